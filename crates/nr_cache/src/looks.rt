//! The store's own look at an id.
ghost use Rattle.std.specs.Prelude.{◌≡◌, ◌≤◌, ◌<◌, ℕ};
ghost use Rattle.nr_cache.specs.Places.{LooksAtValue, OwesNone};
ghost use Rattle.nr_cache.specs.Values.{BringsValues, values_in};
ghost use Rattle.nr_cache.specs.Weights.{value_at};

use crate::finds::{FoundValue, value_of};
use crate::store::Store;
use nr_idmap::{IdMap, IdWriter, Looked, laws};
use nr_model::SortedRows;

impl Store {
    ghost use Rattle.nr_cache.specs.Stores.{Looks};

    /// The value of an id, if it has one, in all that the store has seen. Nothing else happens.
    pub fn look(&mut self, map: &IdMap, id: u64) -> Option<FoundValue>
        requires own { self.old.keeper.table ≡ map.now }
        requires id { 0 < id }
        ensures own { self.new.keeper.table ≡ map.now }
        ensures looks { Looks id self.old self.new result }
    {
        look_at(map, &mut self.writer, &mut self.limit.found, id)
    }
}

pub(crate) fn look_at(
    map: &IdMap,
    writer: &mut IdWriter,
    found: &mut SortedRows,
    id: u64,
) -> Option<FoundValue>
    requires own { writer.old.table ≡ map.now }
    requires owes { OwesNone writer.old }
    requires values { BringsValues writer.old }
    requires id { 0 < id }
    ensures own { writer.new.table ≡ map.now }
    ensures owes { OwesNone writer.new }
    ensures values { BringsValues writer.new }
    ensures looks { LooksAtValue id writer.old writer.new result }
    ensures stay { (way : ℕ) → value_at writer.new way ≡ value_at writer.old way }
    ensures fewer { values_in writer.new ≤ values_in writer.old }
{
    laws::unnamed_is_absent();
    writer.is_tied();
    let looked = map.look(writer, id, found);
    writer.is_tied();
    match looked {
        Looked::Rows => value_of(found.as_slice()),
        // A way that has a name has a value.
        Looked::Pending => unreachable!(),
        Looked::Absent => None,
    }
}
