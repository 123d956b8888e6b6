//! Rows and signed rows, and the sets and batches that words spell.
ghost use Rattle.std.specs.Prelude.{◌≡◌, ◌≤◌, length, IfSome, option_map, option_and_then};
ghost use Rattle.nr_text.specs.Grammar.{row, delta, each, set_of, batch_of, within};
ghost use Rattle.nr_text.specs.Words.{words_left};

use crate::words::{Words, number, place_of};
use nr_model::{Batch, Delta, MAX_DELTAS, MAX_ROWS, Row, RowSet, TooMany};

/// Two numbers round a colon.
fn row(word: &[u8]) -> Option<Row>
    ensures { result ≡ row word.now }
{
    let colon = place_of(b':', word)?;
    let a = number(&word[..colon])?;
    let b = number(&word[colon + 1..])?;
    Some(Row { a, b })
}

/// A plus or a minus, and a row right behind it.
fn delta(word: &[u8]) -> Option<Delta>
    ensures { result ≡ delta word.now }
{
    let (sign, spelled) = word.split_first()?;
    let plus = match sign {
        b'+' => true,
        b'-' => false,
        _ => return None,
    };
    let row = row(spelled)?;
    Some(Delta { plus, row })
}

/// The rows that a set is made from: one more than it takes is enough to see that they are too many.
const KEPT_ROWS: usize = MAX_ROWS + 1;

/// The same for a batch.
const KEPT_DELTAS: usize = MAX_DELTAS + 1;

/// The set of the rows that the words spell, if each spells one.
pub fn set(words: Words<'_>) -> Option<Result<RowSet, TooMany>>
    ensures { result ≡ option_map set_of (each row (words_left words.entry)) }
{
    let mut kept = [Row { a: 0, b: 0 }; KEPT_ROWS];
    let mut len = 0;
    for word in words {
        let row = row(word)?;
        if len < KEPT_ROWS {
            kept[len] = row;
            len += 1;
        }
    }
    Some(RowSet::of(&kept[..len]))
}

/// The set, where it has at most that many rows.
pub fn within(set: &Result<RowSet, TooMany>, bound: u32) -> Option<&RowSet>
    ensures value { option_map (λ rows. rows.now) result ≡ within bound set.now }
    ensures fits { IfSome result (λ rows. length rows.now ≤ bound) }
{
    match set {
        Ok(rows) if rows.len() <= bound as usize => Some(rows),
        _ => None,
    }
}

/// The batch of the signed rows that the words spell, if each spells one and they are 1 to 64.
pub fn batch(words: Words<'_>) -> Option<Batch>
    ensures { result ≡ option_and_then batch_of (each delta (words_left words.entry)) }
{
    let mut kept = [Delta {
        plus: false,
        row: Row { a: 0, b: 0 },
    }; KEPT_DELTAS];
    let mut len = 0;
    for word in words {
        let delta = delta(word)?;
        if len < KEPT_DELTAS {
            kept[len] = delta;
            len += 1;
        }
    }
    Batch::of(&kept[..len]).ok()
}
