//! All values are taken.
ghost use Rattle.std.specs.Prelude.{◌≡◌, ◌≤◌, ◌<◌, ℕ};
ghost use Rattle.nr_idmap.specs.Keepers.{name_at};
ghost use Rattle.nr_cache.specs.Places.{IsGone, OwesNone, TakesAt, TakesEach};
ghost use Rattle.nr_cache.specs.Values.{BringsValues, values_in};
ghost use Rattle.nr_cache.specs.Weights.{Lightens, OnlyValuesWeigh};

use crate::evictions::take_value;
use crate::store::Store;
use crate::weights::Weights;
use nr_idmap::{IdMap, IdWriter, laws};

impl Store {
    ghost use Rattle.nr_cache.specs.Stores.{InvalidatesAll};

    /// Takes each id's value, and outdates each flight. Changes stay under way. Takes 1 step of the directory
    /// for each way, and those of an eviction for each value.
    pub fn invalidate_all(&mut self, map: &IdMap)
        requires own { self.old.keeper.table ≡ map.now }
        ensures own { self.new.keeper.table ≡ map.now }
        ensures invalidates { InvalidatesAll self.old self.new }
    {
        self.flights.outdate_all();
        take_all(map, &mut self.writer, &mut self.limit.weights);
    }
}

fn take_all(map: &IdMap, writer: &mut IdWriter, weights: &mut Weights)
    requires own { writer.old.table ≡ map.now }
    requires owes { OwesNone writer.old }
    requires values { BringsValues writer.old }
    requires only { OnlyValuesWeigh weights.old writer.old }
    ensures own { writer.new.table ≡ map.now }
    ensures owes { OwesNone writer.new }
    ensures values { BringsValues writer.new }
    ensures only { OnlyValuesWeigh weights.new writer.new }
    ensures lightens { Lightens writer.old weights.old writer.new weights.new }
    ensures takes { TakesEach map.now.map.shape.keys writer.old writer.new }
    ensures gone { (id : ℕ) → IsGone id writer.new }
    ensures fewer { values_in writer.new ≤ values_in writer.old }
{
    writer.is_tied();
    for way in 0..map.ways() {
        take_at(map, writer, weights, way);
    }
    writer.is_tied();
}

// Takes the value of the id that has the way, if one has it.
fn take_at(map: &IdMap, writer: &mut IdWriter, weights: &mut Weights, way: u32)
    requires own { writer.old.table ≡ map.now }
    requires owes { OwesNone writer.old }
    requires values { BringsValues writer.old }
    requires only { OnlyValuesWeigh weights.old writer.old }
    requires way { way < map.now.map.shape.keys }
    ensures own { writer.new.table ≡ map.now }
    ensures owes { OwesNone writer.new }
    ensures values { BringsValues writer.new }
    ensures only { OnlyValuesWeigh weights.new writer.new }
    ensures lightens { Lightens writer.old weights.old writer.new weights.new }
    ensures takes { TakesAt way writer.old writer.new }
    ensures none { name_at writer.new way ≡ 0 }
    ensures others { (other : ℕ) → name_at writer.old other ≡ 0 → name_at writer.new other ≡ 0 }
{
    laws::named_is_owed_or_resident();
    writer.is_tied();
    let named = map.id_at(writer, way);
    writer.is_tied();
    let Some(id) = named else {
        return;
    };
    // A way that has a name has a value.
    if !take_value(map, writer, id) {
        unreachable!()
    }
    weights.leave(way);
}
