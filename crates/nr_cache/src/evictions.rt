//! Values that are taken, to make room or for good.
ghost use Rattle.std.specs.Prelude.{◌≡◌, ◌≤◌, ◌<◌};
ghost use Rattle.nr_ids.specs.Events.{IsAbsent};
ghost use Rattle.nr_ids.specs.Looking.{IsFull};
ghost use Rattle.nr_cache.specs.Places.{IsGone, Loses, MakesRoom, OwesNone, TakesValue, Unnames};
ghost use Rattle.nr_cache.specs.Values.{BringsValues, values_in};
ghost use Rattle.nr_cache.specs.Weights.{Lightens, OnlyValuesWeigh};

use crate::store::Store;
use crate::weights::Weights;
use nr_idmap::{Evict, IdMap, IdWriter, laws};

impl Store {
    ghost use Rattle.nr_cache.specs.Stores.{Evicts};

    /// Takes an id's value to make room: whether there was one. Its flight stays as it is.
    pub fn evict(&mut self, map: &IdMap, id: u64) -> bool
        requires own { self.old.keeper.table ≡ map.now }
        requires id { 0 < id }
        ensures own { self.new.keeper.table ≡ map.now }
        ensures evicts { Evicts id self.old self.new result }
    {
        let_go(map, &mut self.writer, &mut self.limit.weights, id)
    }
}

// Takes an id's value with its weight: whether there was one.
pub(crate) fn let_go(map: &IdMap, writer: &mut IdWriter, weights: &mut Weights, id: u64) -> bool
    requires own { writer.old.table ≡ map.now }
    requires owes { OwesNone writer.old }
    requires values { BringsValues writer.old }
    requires only { OnlyValuesWeigh weights.old writer.old }
    requires id { 0 < id }
    ensures own { writer.new.table ≡ map.now }
    ensures owes { OwesNone writer.new }
    ensures values { BringsValues writer.new }
    ensures only { OnlyValuesWeigh weights.new writer.new }
    ensures loses { Loses id writer.old writer.new result }
    ensures unnames { Unnames id writer.old writer.new }
    ensures lightens { Lightens writer.old weights.old writer.new weights.new }
    ensures gone { IsGone id writer.new }
    ensures fewer { values_in writer.new ≤ values_in writer.old }
{
    laws::unnamed_is_absent();
    laws::named_is_owed_or_resident();
    writer.is_tied();
    let found = map.way_of(writer, id);
    writer.is_tied();
    let Some(way) = found else {
        return false;
    };
    // A way that has a name has a value.
    if !take_value(map, writer, id) {
        unreachable!()
    }
    weights.leave(way);
    true
}

// Takes an id's value: whether there was one.
pub(crate) fn take_value(map: &IdMap, writer: &mut IdWriter, id: u64) -> bool
    requires own { writer.old.table ≡ map.now }
    requires owes { OwesNone writer.old }
    requires values { BringsValues writer.old }
    requires id { 0 < id }
    ensures own { writer.new.table ≡ map.now }
    ensures owes { OwesNone writer.new }
    ensures values { BringsValues writer.new }
    ensures takes { TakesValue id writer.old writer.new result }
    ensures gone { IsGone id writer.new }
    ensures fewer { values_in writer.new ≤ values_in writer.old }
{
    laws::unnamed_is_absent();
    laws::named_is_owed_or_resident();
    writer.is_tied();
    let answer = map.evict(writer, id);
    writer.is_tied();
    match answer {
        Evict::Evicted => true,
        Evict::Nothing => false,
    }
}

// Takes the value of one of an id's group, where each of the id's ways is taken.
pub(crate) fn make_room(map: &IdMap, writer: &mut IdWriter, weights: &mut Weights, id: u64)
    requires own { writer.old.table ≡ map.now }
    requires owes { OwesNone writer.old }
    requires values { BringsValues writer.old }
    requires only { OnlyValuesWeigh weights.old writer.old }
    requires id { 0 < id }
    requires absent { IsAbsent writer.old.clerk.seen id }
    requires full { IsFull id writer.old.clerk }
    ensures own { writer.new.table ≡ map.now }
    ensures owes { OwesNone writer.new }
    ensures values { BringsValues writer.new }
    ensures absent { IsAbsent writer.new.clerk.seen id }
    ensures only { OnlyValuesWeigh weights.new writer.new }
    ensures lightens { Lightens writer.old weights.old writer.new weights.new }
    ensures room { MakesRoom id writer.old writer.new }
    ensures free { IsFull id writer.new.clerk → ⊥ }
{
    laws::named_is_owed_or_resident();
    writer.is_tied();
    let Some(victim) = map.choose(writer, id) else {
        // Each of the group's ways has a name.
        unreachable!()
    };
    writer.is_tied();
    // A way that has a name has a value.
    if !let_go(map, writer, weights, victim) {
        unreachable!()
    }
}
