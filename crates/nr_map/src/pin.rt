//! A reader that holds a set, and reads it as often as it likes.
ghost use Rattle.std.specs.Prelude.{◌≡◌, ◌↔◌, ◌<◌, ◌≤◌, ◌*◌, length, slice_get, true, IsSome, None, Some};
ghost use Rattle.nr_model.specs.Rows.{IsRowSet};
ghost use Rattle.nr_core.specs.Marks.{acted};
ghost use Rattle.nr_board.specs.Holds.{HoldsWhatItSays, LooksAgain};
ghost use Rattle.nr_board.specs.Meetings.{HasPut};
ghost use Rattle.nr_board.specs.Callers.{Rests};

use crate::reader::Reader;
use crate::reader_map::ReaderMap;
use crate::token::Token;
use nr_board::Held;
use nr_model::{Row, RowSet};
use std::marker::Model;

/// A reader that holds the set which it found. The set stays as it is until the reader is
/// released, whatever is filled, updated or evicted meanwhile. A pin can't be dropped: it must be
/// released.
pub struct Pin {
    pub(crate) caller: Token,
    pub(crate) held: Held,
}

impl Model for Pin {
    ghost use Rattle.nr_map.specs.Pins.{Pinned, Pins, pinned};

    ghost Value = { Pinned };

    ghost view = { λ pin. pinned pin.caller.seat };

    ghost invariant = { λ pin. Pins pin.caller.seat pin.caller.own pin.held };
}

impl ReaderMap {
    ghost use Rattle.nr_map.specs.Pins.{PinsKey};

    /// Finds a key, and holds its set: in 2 steps by the counts, and in 4, 6 or 8 by the reader's word.
    /// Where the key is a hole, the reader comes back, in 1 step, or by the word in 1, 4, 6 or 7.
    pub fn pin(&self, reader: Reader, key: u32) -> Result<Pin, Reader>
        requires own { reader.table ≡ self.now }
        requires key { key < self.now.shape.keys }
        ensures { PinsKey key reader result }
    {
        let mut caller = reader.into_token();
        match self.board.hold_key(&mut caller.seat, caller.own, key) {
            Some(held) => Ok(Pin { caller, held }),
            None => Err(Reader::of_token(caller)),
        }
    }
}

impl Pin {
    ghost use Rattle.nr_map.specs.Pins.{FindsByPin};

    /// The number of the reader that holds the set.
    pub fn number(&self) -> u32
        ensures { result ≡ self.now.reader.number }
    {
        self.caller.number()
    }

    /// How many rows the set has. Takes no step.
    #[tactic(auto, using(crate::proofs::HandSteps::pin_says))]
    pub fn len(&self) -> u32
        ensures len { result ≡ length self.now.rows }
        ensures few { result ≤ self.now.reader.table.shape.rows }
        ensures row_set { IsRowSet self.now.reader.table.shape.rows self.now.rows }
        ensures holds { IsSome self.now.reader.holds }
        ensures says { HoldsWhatItSays self.now.reader }
    {
        self.held.count
    }

    /// A row of the set, in 2 steps.
    pub fn row(&mut self, map: &ReaderMap, i: u32) -> Row
        requires own { self.old.reader.table ≡ map.now }
        requires i { i < length self.old.rows }
        ensures row { slice_get self.old.rows i ≡ Some result }
        ensures rows { self.new.rows ≡ self.old.rows }
        ensures rests { Rests 2 self.old.reader self.new.reader }
        ensures holds { self.new.reader.holds ≡ self.old.reader.holds }
        ensures says { self.new.reader.says ≡ self.old.reader.says }
        ensures marks { self.new.reader.marks ≡ self.old.reader.marks }
    {
        self.caller.row(map, self.held, i)
    }

    /// Writes the rows of the set over those of the caller's, in 2 steps a row.
    pub fn copy_to(&mut self, map: &ReaderMap, rows: &mut RowSet)
        requires own { self.old.reader.table ≡ map.now }
        ensures copied { rows.new ≡ self.old.rows }
        ensures rows { self.new.rows ≡ self.old.rows }
        ensures rests { Rests (2 * length self.old.rows) self.old.reader self.new.reader }
        ensures holds { self.new.reader.holds ≡ self.old.reader.holds }
        ensures says { self.new.reader.says ≡ self.old.reader.says }
        ensures marks { self.new.reader.marks ≡ self.old.reader.marks }
    {
        map.board
            .copy_from::<0, RowSet>(&mut self.caller.seat, self.held, rows);
    }

    /// Finds a key again, in 1 step, which loads one word and writes none: whether the key still has
    /// the set that the pin holds, put by the same fill or update. Then it is a find of the key, which
    /// is answered with the pin's rows. Else nothing is found, and the pin stays as it is.
    pub fn again(&mut self, map: &ReaderMap, key: u32) -> bool
        requires own { self.old.reader.table ≡ map.now }
        requires key { key < map.now.shape.keys }
        ensures own { self.new.reader.table ≡ map.now }
        ensures finds { FindsByPin key self.old.rows self.old.reader self.new.reader result }
        ensures exact { (result ≡ true) ↔ HasPut key self.old.reader.marks.put self.new.reader }
        ensures rows { self.new.rows ≡ self.old.rows }
        ensures holds { self.new.reader.holds ≡ self.old.reader.holds }
        ensures says { self.new.reader.says ≡ self.old.reader.says }
        ensures marks { LooksAgain key self.old.reader.holds result self.old.reader.marks self.new.reader.marks }
    {
        map.board
            .find_again(&mut self.caller.seat, self.held.slot, key)
    }

    /// Ends the hold, in 1 step, and gives the reader back.
    pub fn release(self, map: &ReaderMap) -> Reader
        requires own { self.reader.table ≡ map.now }
        ensures rests { Rests 1 self.reader result }
        ensures idle { result.holds ≡ None }
        ensures silent { result.says ≡ 0 }
        ensures marks { result.marks ≡ acted self.reader.marks self.reader.marks.put }
    {
        let Pin { mut caller, held } = self;
        map.board.let_go(&mut caller.seat, caller.own, held);
        Reader::of_token(caller)
    }
}
