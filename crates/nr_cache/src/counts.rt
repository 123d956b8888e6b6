//! How much a store holds.
ghost use Rattle.std.specs.Prelude.{◌≡◌, ℕ};
ghost use Rattle.nr_cache.specs.Counts.{CountsStore};
ghost use Rattle.nr_cache.specs.Places.{CountsValues};
ghost use Rattle.nr_cache.specs.Values.{BringsValues, values_in};
ghost use Rattle.nr_cache.specs.Weights.{value_at};

use crate::store::Store;
use nr_idmap::{IdMap, IdWriter};

/// How many values are held, what they weigh, how many flights are under way, and how many changes.
#[derive(Clone, Copy, Debug, PartialEq, Eq)]
pub struct Counts {
    pub values: u32,
    pub weight: u64,
    pub flights: usize,
    pub changes: usize,
}

impl Store {
    /// Counts in 1 step of the map, whatever the store holds.
    pub fn count(&mut self, map: &IdMap) -> Counts
        requires own { self.old.keeper.table ≡ map.now }
        ensures own { self.new.keeper.table ≡ map.now }
        ensures counts { CountsStore self.old self.new result }
    {
        Counts {
            values: count_values(map, &mut self.writer),
            weight: self.limit.weights.sum(),
            flights: self.flights.len(),
            changes: self.flights.changes(),
        }
    }
}

// How many values there are.
pub(crate) fn count_values(map: &IdMap, writer: &mut IdWriter) -> u32
    requires own { writer.old.table ≡ map.now }
    requires values { BringsValues writer.old }
    ensures own { writer.new.table ≡ map.now }
    ensures values { BringsValues writer.new }
    ensures counts { CountsValues writer.old writer.new result }
    ensures same { values_in writer.new ≡ values_in writer.old }
    ensures stay { (way : ℕ) → value_at writer.new way ≡ value_at writer.old way }
{
    writer.is_tied();
    map.slot_counts(writer).filled
}
