//! A reader's token, and its calls.
ghost use Rattle.std.specs.Prelude.{◌≡◌, ◌<◌, None};
ghost use Rattle.nr_board.specs.Callers.{token};

use crate::answers::Asked;
use crate::reader_map::ReaderMap;
use crate::token::Token;
use nr_board::Found;
use nr_model::{RowRoom, RowSet};
use std::marker::Model;

/// What a reader makes its steps with. Between its calls it holds no slot.
#[derive(Drop)]
pub struct Reader {
    pub(crate) caller: Token,
}

impl Model for Reader {
    ghost use Rattle.nr_board.specs.Callers.{Caller, token};
    ghost use Rattle.nr_board.specs.Seats.{IdlesAt};
    ghost use Rattle.nr_map.specs.Tokens.{IsReader};

    ghost Value = { Caller };

    ghost view = { λ reader. token reader.caller.seat };

    ghost invariant = { λ reader. IsReader reader.caller.seat reader.caller.own × IdlesAt (token reader.caller.seat).table reader.caller.seat };
}

impl Reader {
    ghost use Rattle.nr_board.specs.Seats.{IdlesAt};
    ghost use Rattle.nr_map.specs.Tokens.{IsReader};

    pub(crate) fn of_token(caller: Token) -> Reader
        requires reader { IsReader caller.seat caller.own }
        requires idle { IdlesAt (token caller.seat).table caller.seat }
        ensures { result ≡ token caller.seat }
    {
        Reader { caller }
    }

    /// The reader's token. The reader ends.
    pub(crate) fn into_token(self) -> Token
        ensures reader { IsReader result.seat result.own }
        ensures idle { IdlesAt self.table result.seat }
        ensures token { token result.seat ≡ self }
    {
        let Reader { caller } = self;
        caller
    }

    /// The reader's number, from 1.
    pub fn number(&self) -> u32
        ensures number { result ≡ self.now.number }
        ensures idle { self.now.holds ≡ None }
    {
        self.caller.number()
    }
}

impl ReaderMap {
    ghost use Rattle.nr_model.specs.Rows.{IsRowSet};
    ghost use Rattle.nr_board.specs.declared.answers.Found.TheVariants as found;
    ghost use Rattle.nr_map.specs.Answers.{AsksKey, FindsIn, FindsKey, MarksFound};

    /// Looks a key up, and writes its rows into the caller's set, which stays as it is where the
    /// key is a hole. By the counts it takes 1 step for a hole, and 2n + 3 for n rows: it arrives,
    /// reads each word of the set once, and departs. A reader that has a word takes 2n + 5: it looks,
    /// announces the slot that it saw, and confirms that the key names it still; it reads, and clears
    /// its word. Where the key names another slot by then it announces and confirms once more, 2n + 7,
    /// and after that it clears its word and finds by the counts, 2n + 9. So it takes 1, 4, 6 or 7 for
    /// a hole.
    #[tactic(auto, using(crate::proofs::SetRooms::finds_set, crate::proofs::SetRooms::finds_row_set))]
    pub fn find(&self, reader: &mut Reader, key: u32, rows: &mut RowSet) -> Found
        requires own { reader.old.table ≡ self.now }
        requires key { key < self.now.shape.keys }
        ensures own { reader.new.table ≡ self.now }
        ensures finds { FindsKey key reader.old rows.old reader.new rows.new result }
        ensures row_set { result ≡ found.Rows → IsRowSet reader.old.table.shape.rows rows.new }
        ensures idle { reader.new.holds ≡ None }
        ensures silent { reader.new.says ≡ 0 }
        ensures marks { MarksFound key reader.old reader.new result }
    {
        self.find_into(reader, key, rows)
    }

    /// As `find`, with any room for rows in place of a set. A room that the rows go to last needs
    /// no copy.
    pub fn find_into<R: RowRoom>(&self, reader: &mut Reader, key: u32, rows: &mut R) -> Found
        requires own { reader.old.table ≡ self.now }
        requires key { key < self.now.shape.keys }
        ensures own { reader.new.table ≡ self.now }
        ensures finds { FindsIn R.shows key reader.old rows.old reader.new rows.new result }
        ensures idle { reader.new.holds ≡ None }
        ensures silent { reader.new.says ≡ 0 }
        ensures marks { MarksFound key reader.old reader.new result }
    {
        reader.caller.find(self, key, rows)
    }

    /// Requests a key, in 1 step. Of the requests since the key became a hole the first is
    /// answered `Send`, with the key's ticket number, and no other.
    pub fn ask(&self, reader: &mut Reader, key: u32) -> Asked
        requires own { reader.old.table ≡ self.now }
        requires key { key < self.now.shape.keys }
        ensures own { reader.new.table ≡ self.now }
        ensures asks { AsksKey key reader.old reader.new result }
        ensures idle { reader.new.holds ≡ None }
        ensures silent { reader.new.says ≡ 0 }
        ensures marks { reader.new.marks ≡ reader.old.marks }
    {
        reader.caller.ask(self, key)
    }
}
