//! A value in place of one that is still there.
ghost use Rattle.std.specs.Prelude.{◌≡◌, ◌<◌};

use crate::finds::FoundValue;
use crate::store::{Landed, Store};
use nr_idmap::{IdMap, Reclaimed, laws};
use nr_model::RowRoom;

/// What becomes of a value that is to take another's place.
#[derive(Clone, Copy, Debug)]
pub enum Swapped {
    /// It is held. A value that nobody can see any more may have come out.
    Held(Reclaimed),
    /// It is the caller's own, since the id is being changed or the value is too heavy, and the id has none.
    Own,
    /// The id has another value.
    Other(FoundValue),
    /// The id has none.
    Absent,
}

impl Store {
    ghost use Rattle.nr_cache.specs.Swaps.{Swaps};

    /// As `put` where the id's value is `old` still, and else nothing happens.
    pub fn swap<R: RowRoom>(
        &mut self,
        map: &IdMap,
        id: u64,
        old: u64,
        stamp: u64,
        value: u64,
        weight: u32,
        bound: u64,
        had: &mut R,
    ) -> Swapped
        requires own { self.old.keeper.table ≡ map.now }
        requires id { 0 < id }
        requires stamp { 0 < stamp }
        ensures own { self.new.keeper.table ≡ map.now }
        ensures swaps { Swaps R.shows id old stamp value weight bound self.old had.old self.new had.new result }
    {
        match self.look(map, id) {
            Some(found) if found.value == old => {}
            Some(found) => return Swapped::Other(found),
            None => return Swapped::Absent,
        }
        laws::unnamed_is_absent();
        self.writer.is_tied();
        match self.put(map, id, stamp, value, weight, bound, had) {
            Landed::Held(given) => Swapped::Held(given),
            Landed::Own => Swapped::Own,
        }
    }
}
