//! How values leave a cache. One thread at a time.
ghost use Rattle.std.specs.Prelude.{◌≡◌, ⊤};
ghost use Rattle.nr_c.specs.Caches.{CacheCalls, EvictsOneByCode, EvictsValueByCode, InvalidatesAllByCode, InvalidatesByCode, ReapsByCode};
ghost use Rattle.nr_c.specs.IdLive.{WithId};
ghost use Rattle.nr_c.specs.Live.{WhenLive};

use crate::cache_codes::{either, of_taken};
use crate::cache_handle::NrCache;
use crate::codes::{NR_CLOSED, NR_DONE, NR_EVICTED, NR_NO_KEY, NR_NOTHING, of_reaped};
use nr_cache::GivenValue;

/// Takes an id's value, and outdates its flight, as after a write in the base: `NR_EVICTED`; or `NR_NOTHING` where it
/// had none. `NR_NO_KEY` for the id 0.
#[unsafe(no_mangle)]
pub extern "C" fn nr_cache_invalidate(cache: &mut NrCache, id: u64) -> u32
    ensures { WhenLive ⊤ (WithId id ⊤ (CacheCalls (InvalidatesByCode id))) cache.old.live cache.new.live result }
{
    if !cache.is_live() {
        return NR_CLOSED;
    }
    if id == 0 {
        return NR_NO_KEY;
    }
    let side = cache.side();
    let had = side.store.invalidate(&side.map, id);
    either(had, NR_EVICTED, NR_NOTHING)
}

/// Gives out a value that nobody can see any more, where no reader holds it: `NR_GIVEN`, and `given` tells it.
/// `NR_HELD` where readers hold all that wait, and `NR_NOTHING` where none waits; then `given` stays.
#[unsafe(no_mangle)]
pub extern "C" fn nr_cache_reap(cache: &mut NrCache, given: &mut GivenValue) -> u32
    ensures { WhenLive (given.new ≡ given.old) (CacheCalls (ReapsByCode given.old given.new)) cache.old.live cache.new.live result }
{
    if !cache.is_live() {
        return NR_CLOSED;
    }
    let side = cache.side();
    of_reaped(side.store.reap(&side.map, given))
}

/// Takes an id's value, so that there is room; what is known of the base stays: `NR_EVICTED`; or `NR_NOTHING` where it
/// had none. Its flight is held still. `NR_NO_KEY` for the id 0.
#[unsafe(no_mangle)]
pub extern "C" fn nr_cache_evict(cache: &mut NrCache, id: u64) -> u32
    ensures { WhenLive ⊤ (WithId id ⊤ (CacheCalls (EvictsValueByCode id))) cache.old.live cache.new.live result }
{
    if !cache.is_live() {
        return NR_CLOSED;
    }
    if id == 0 {
        return NR_NO_KEY;
    }
    let side = cache.side();
    let had = side.store.evict(&side.map, id);
    either(had, NR_EVICTED, NR_NOTHING)
}

/// Takes the value that goes next, as where one lands in a full cache, so that there is room: `NR_EVICTED`, and
/// `taken` tells it, which comes out by a later call. `NR_NOTHING` where no id has one, and `taken` stays.
#[unsafe(no_mangle)]
pub extern "C" fn nr_cache_evict_one(cache: &mut NrCache, bound: u64, taken: &mut GivenValue) -> u32
    ensures { WhenLive (taken.new ≡ taken.old) (CacheCalls (EvictsOneByCode bound taken.old taken.new)) cache.old.live cache.new.live result }
{
    if !cache.is_live() {
        return NR_CLOSED;
    }
    let side = cache.side();
    let value = side.store.evict_one(&side.map, bound);
    of_taken(value, taken)
}

/// Takes each id's value, and outdates each flight: `NR_DONE`. Changes stay under way.
#[unsafe(no_mangle)]
pub extern "C" fn nr_cache_invalidate_all(cache: &mut NrCache) -> u32
    ensures { WhenLive ⊤ (CacheCalls InvalidatesAllByCode) cache.old.live cache.new.live result }
{
    if !cache.is_live() {
        return NR_CLOSED;
    }
    let side = cache.side();
    side.store.invalidate_all(&side.map);
    NR_DONE
}
