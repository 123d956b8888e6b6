//! A value that goes because its caller wants room: the same one as in a full store.
ghost use Rattle.std.specs.Prelude.{◌≡◌, ◌<◌, ◌≤◌};
ghost use Rattle.nr_cache.specs.Firsts.{TakesFirstOrNone};
ghost use Rattle.nr_cache.specs.Places.{OwesNone};
ghost use Rattle.nr_cache.specs.Values.{BringsValues, values_in};
ghost use Rattle.nr_cache.specs.Weights.{OnlyValuesWeigh, stock_of};

use crate::choice::Need;
use crate::evictions::take_value;
use crate::given::GivenValue;
use crate::limits::Limit;
use crate::looks::look_at;
use crate::store::Store;
use nr_idmap::{IdMap, IdWriter, laws};

impl Store {
    ghost use Rattle.nr_cache.specs.Firsts.{EvictsOne};

    /// Takes the value that goes next, as where one lands in a full store: one with a stamp below the bound, if
    /// one is met. Tells it, with its id, and none only where no id has a value. It comes out by a later call, and
    /// its id's flight stays as it is. The next look for a stale value begins eight ways on, unless one was met.
    pub fn evict_one(&mut self, map: &IdMap, bound: u64) -> Option<GivenValue>
        requires own { self.old.keeper.table ≡ map.now }
        ensures own { self.new.keeper.table ≡ map.now }
        ensures evicts { EvictsOne bound self.old self.new result }
    {
        take_first(map, &mut self.writer, &mut self.limit, bound)
    }
}

// Takes the value of the way that goes first, and tells it.
fn take_first(
    map: &IdMap,
    writer: &mut IdWriter,
    limit: &mut Limit,
    bound: u64,
) -> Option<GivenValue>
    requires own { writer.old.table ≡ map.now }
    requires owes { OwesNone writer.old }
    requires values { BringsValues writer.old }
    requires only { OnlyValuesWeigh limit.old.weights writer.old }
    requires hand { limit.old.hand < map.now.map.shape.keys }
    ensures own { writer.new.table ≡ map.now }
    ensures owes { OwesNone writer.new }
    ensures values { BringsValues writer.new }
    ensures only { OnlyValuesWeigh limit.new.weights writer.new }
    ensures hand { limit.new.hand < map.now.map.shape.keys }
    ensures takes { TakesFirstOrNone bound (stock_of writer.old limit.old.weights limit.old.hand) (stock_of writer.new limit.new.weights limit.new.hand) result }
    ensures fewer { values_in writer.new ≤ values_in writer.old }
    ensures same { limit.new.capacity ≡ limit.old.capacity }
{
    laws::named_is_owed_or_resident();
    writer.is_tied();
    // A way that there isn't: nobody is a newcomer.
    let nobody = map.ways();
    let named = limit.first_to_go(map, writer, nobody, Need::Place, bound);
    writer.is_tied();
    let victim = match named {
        Some(victim) => victim,
        None => return None,
    };
    let seen = look_at(map, writer, &mut limit.found, victim.id);
    writer.is_tied();
    let Some(found) = seen else {
        // A way that has a name has a value.
        unreachable!()
    };
    // It was seen.
    if !take_value(map, writer, victim.id) {
        unreachable!()
    }
    limit.weights.leave(victim.way);
    Some(GivenValue {
        id: victim.id,
        stamp: found.stamp,
        value: found.value,
    })
}
