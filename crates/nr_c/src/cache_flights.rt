//! What a cache's caller begins and ends: loads of ids, and changes of the base. One thread at a time.
ghost use Rattle.std.specs.Prelude.{◌≡◌, ⊤};
ghost use Rattle.nr_c.specs.Caches.{BeginsByCode, CacheCalls, ChangesByCode, EndsChangeByCode, FailsByCode, FailsOldestByCode};
ghost use Rattle.nr_c.specs.IdLive.{WithId};
ghost use Rattle.nr_c.specs.Live.{WhenLive};

use crate::cache_codes::{either, of_begun, of_ended};
use crate::cache_flight::NrFlight;
use crate::cache_handle::NrCache;
use crate::codes::{NR_CLOSED, NR_DONE, NR_FULL, NR_NO_KEY, NR_NOTHING};

/// What a miss of an id comes to. Answers `NR_SEND` where the caller loads it: its flight begins, with a number of
/// the caller's for those that wait for it; `NR_WAITING` where its flight is under way; then `flight` tells it.
/// `NR_ROWS` where the id has a value by now; or `NR_FULL` where as many flights are under way as there is room
/// for: the caller loads it by itself. `NR_NO_KEY` for the id 0.
#[unsafe(no_mangle)]
pub extern "C" fn nr_cache_begin(
    cache: &mut NrCache,
    id: u64,
    mark: u64,
    flight: &mut NrFlight,
) -> u32
    ensures { WhenLive (flight.new ≡ flight.old) (WithId id (flight.new ≡ flight.old) (CacheCalls (BeginsByCode id mark flight.old flight.new))) cache.old.live cache.new.live result }
{
    if !cache.is_live() {
        return NR_CLOSED;
    }
    if id == 0 {
        return NR_NO_KEY;
    }
    let side = cache.side();
    let begun = side.store.begin(&side.map, id, mark);
    of_begun(begun, flight)
}

/// Ends the flight of that number without a value: `NR_DONE`, and `flight` tells it; or `NR_NOTHING` where none of
/// that number is under way.
#[unsafe(no_mangle)]
pub extern "C" fn nr_cache_fail(cache: &mut NrCache, number: u64, flight: &mut NrFlight) -> u32
    ensures { WhenLive (flight.new ≡ flight.old) (CacheCalls (FailsByCode number flight.old flight.new)) cache.old.live cache.new.live result }
{
    if !cache.is_live() {
        return NR_CLOSED;
    }
    let side = cache.side();
    let ended = side.store.fail(number);
    of_ended(ended, flight)
}

/// Ends the flight that began first of those under way, without a value: `NR_DONE`, and `flight` tells it, so that who
/// waits for it is woken before a close; or `NR_NOTHING` where none is under way.
#[unsafe(no_mangle)]
pub extern "C" fn nr_cache_fail_oldest(cache: &mut NrCache, flight: &mut NrFlight) -> u32
    ensures { WhenLive (flight.new ≡ flight.old) (CacheCalls (FailsOldestByCode flight.old flight.new)) cache.old.live cache.new.live result }
{
    if !cache.is_live() {
        return NR_CLOSED;
    }
    let side = cache.side();
    let ended = side.store.fail_oldest();
    of_ended(ended, flight)
}

/// Begins a change of an id in the base: until it ends, the values of the id's flights are their loaders' own.
/// `NR_DONE`; or `NR_FULL` where as many changes are under way as there is room for. What the id has stays.
/// `NR_NO_KEY` for the id 0.
#[unsafe(no_mangle)]
pub extern "C" fn nr_cache_begin_change(cache: &mut NrCache, id: u64) -> u32
    ensures { WhenLive ⊤ (WithId id ⊤ (CacheCalls (ChangesByCode id))) cache.old.live cache.new.live result }
{
    if !cache.is_live() {
        return NR_CLOSED;
    }
    if id == 0 {
        return NR_NO_KEY;
    }
    let side = cache.side();
    let begun = side.store.begin_change(id);
    either(begun, NR_DONE, NR_FULL)
}

/// Ends a change: `NR_DONE`; or `NR_NOTHING` where none of the id is under way. `NR_NO_KEY` for the id 0.
#[unsafe(no_mangle)]
pub extern "C" fn nr_cache_end_change(cache: &mut NrCache, id: u64) -> u32
    ensures { WhenLive ⊤ (WithId id ⊤ (CacheCalls (EndsChangeByCode id))) cache.old.live cache.new.live result }
{
    if !cache.is_live() {
        return NR_CLOSED;
    }
    if id == 0 {
        return NR_NO_KEY;
    }
    let side = cache.side();
    let ended = side.store.end_change(id);
    either(ended, NR_DONE, NR_NOTHING)
}
