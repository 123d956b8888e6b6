//! A map that is taken apart, and the sets that stand in its slots.
ghost use Rattle.std.specs.Prelude.{◌≡◌, ◌<◌, All, IfSome, length};
ghost use Rattle.nr_map.specs.Remains.{NextOf, NextSlot, TakenApart};

use crate::reader::Reader;
use crate::reader_map::ReaderMap;
use crate::writer::Writer;
use nr_board::Seat;
use nr_core::SlotLists;
use nr_model::RowRoom;
use std::marker::Model;

/// What is left of a writer: the set of each slot that was ever taken, filled keys' sets among them,
/// but for those that were reaped.
#[derive(Drop)]
pub struct Rest {
    seat: Seat,
    lists: SlotLists,
    next: u32,
}

impl Model for Rest {
    ghost use Rattle.nr_board.specs.Callers.{token};
    ghost use Rattle.nr_board.specs.WriterSeats.{RestsAt};
    ghost use Rattle.nr_map.specs.Remains.{Left};

    ghost Value = { Left };

    ghost view = { λ rest. record { writer = token rest.seat; next = rest.next } };

    ghost invariant = { λ rest. RestsAt (token rest.seat).table rest.lists rest.seat };
}

/// What is left of a map: as `Rest`, with the map.
#[derive(Drop)]
pub struct Remains {
    map: ReaderMap,
    rest: Rest,
}

impl Model for Remains {
    ghost use Rattle.std.specs.Prelude.{◌≡◌};
    ghost use Rattle.nr_map.specs.Remains.{Left};

    ghost Value = { Left };

    ghost view = { λ remains. remains.rest };

    ghost invariant = { λ remains. remains.rest.writer.table ≡ remains.map };
}

impl ReaderMap {
    /// Takes the map apart, once all its readers are back: nobody holds a set any more. The sets
    /// that no call gave out come out of what remains. Takes no steps.
    pub fn take_apart(self, writer: Writer, readers: Vec<Reader>) -> Remains
        requires own { writer.table ≡ self }
        requires all { length readers.items ≡ self.shape.readers }
        requires readers { All (λ reader. reader.table ≡ self) readers.items }
        ensures { TakenApart writer result }
    {
        let rest = self.leave(writer, readers);
        Remains { map: self, rest }
    }

    /// As `take_apart`, of a map that is shared, and so can't be given away. It stays as it is, but
    /// nobody can write to it any more.
    pub fn leave(&self, writer: Writer, readers: Vec<Reader>) -> Rest
        requires own { writer.table ≡ self.now }
        requires all { length readers.items ≡ self.now.shape.readers }
        requires readers { All (λ reader. reader.table ≡ self.now) readers.items }
        ensures { TakenApart writer result }
    {
        drop(readers);
        Rest::of(writer)
    }
}

impl Rest {
    // What is left of a writer, of which no set has come out.
    pub(crate) fn of(writer: Writer) -> Rest
        ensures { TakenApart writer result }
    {
        let Writer {
            seat,
            lists,
            flags: _,
            sorted: _,
        } = writer;
        Rest {
            seat,
            lists,
            next: 0,
        }
    }

    /// Writes the next set into the caller's room, in 2n + 1 steps for n rows. False where all have
    /// come out; then the room stays as it is.
    pub fn next_of<R: RowRoom>(&mut self, map: &ReaderMap, rows: &mut R) -> bool
        requires own { self.old.writer.table ≡ map.now }
        ensures { NextOf R.shows self.old rows.old self.new rows.new result }
    {
        let Some(slot) = self.next_slot() else {
            return false;
        };
        map.board.recall_set::<R>(&mut self.seat, slot, rows);
        self.next = slot + 1;
        true
    }

    fn next_slot(&self) -> Option<u32>
        ensures next { NextSlot self.now.writer self.now.next result }
        ensures inside { IfSome result (λ slot. slot < self.now.writer.table.shape.slots) }
    {
        for slot in self.next..self.lists.taken() {
            if !self.lists.is_reaped(slot) {
                return Some(slot);
            }
        }
        None
    }
}

impl Remains {
    /// As `Rest::next_of`.
    pub fn next_into<R: RowRoom>(&mut self, rows: &mut R) -> bool
        ensures { NextOf R.shows self.old rows.old self.new rows.new result }
    {
        self.rest.next_of::<R>(&self.map, rows)
    }
}
