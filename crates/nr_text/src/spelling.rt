//! How the map's replies are written.
use nr_model::{Reply, Row, RowSet};
use std::fmt;
use std::fmt::Write;

/// A reply of the map, as it is written.
#[derive(Drop)]
pub struct ReplyWord<'a>(pub &'a Reply);

impl fmt::Display for ReplyWord<'_> {
    ghost use Rattle.std.specs.Prelude.{Some};
    ghost use Rattle.nr_text.specs.Spelling.{spelled_reply};

    ghost output = { λ word. Some (spelled_reply word.0.now) };

    fn fmt<W: fmt::Write>(&self, f: &mut fmt::Formatter<W>) -> fmt::Result {
        match self.0 {
            Reply::Rows(rows) => {
                let rows = Rows(rows);
                write!(f, "{rows}")
            }
            Reply::Hole => f.write_str("hole"),
            Reply::Send(_) => f.write_str("send"),
            Reply::Waiting => f.write_str("waiting"),
            Reply::Filled => f.write_str("filled"),
            Reply::Done => f.write_str("done"),
            Reply::NotAsked => f.write_str("not-asked"),
            Reply::Stale => f.write_str("stale"),
            Reply::Already => f.write_str("already"),
            Reply::Dropped => f.write_str("dropped"),
            Reply::NoRow => f.write_str("no-row"),
            Reply::TooMany => f.write_str("too-many"),
            Reply::Evicted => f.write_str("evicted"),
            Reply::Nothing => f.write_str("nothing"),
            Reply::Cancelled => f.write_str("cancelled"),
            Reply::Worn => f.write_str("worn"),
        }
    }
}

/// A row set, as it is written.
#[derive(Drop)]
pub struct Rows<'a>(pub &'a RowSet);

impl fmt::Display for Rows<'_> {
    ghost use Rattle.std.specs.Prelude.{Some};
    ghost use Rattle.nr_text.specs.Spelling.{spelled_rows};

    ghost output = { λ rows. Some (spelled_rows rows.0.now) };

    fn fmt<W: fmt::Write>(&self, f: &mut fmt::Formatter<W>) -> fmt::Result {
        f.write_str("rows")?;
        for i in 0..self.0.len() {
            let Some(Row { a, b }) = self.0.get(i) else {
                unreachable!()
            };
            write!(f, " {a}:{b}")?;
        }
        Ok(())
    }
}
