//! How values come into a cache. One thread at a time.
ghost use Rattle.std.specs.Prelude.{◌≡◌};
ghost use Rattle.nr_c.specs.Caches.{BringsToCache, CacheCalls, LandsByCode, PutsByCode, SwapsByCode};
ghost use Rattle.nr_c.specs.IdLive.{WithNumber};
ghost use Rattle.nr_c.specs.Live.{WhenLive};
ghost use Rattle.nr_c.specs.Numbers.{answer_bad_row};

use crate::cache_codes::{of_landed, of_swapped};
use crate::cache_handle::NrCache;
use crate::codes::{NR_BAD_ROW, NR_CLOSED, NR_NO_KEY};
use nr_cache::GivenValue;

/// Ends the flight of that number by its value, with a stamp above 0. It is held unless its id was invalidated, put
/// or changed since the flight began, or was being changed then, or it is heavier than all may be: `NR_DONE`, or `NR_GIVEN` where a value that nobody
/// can see any more came out, and `given` tells it. `NR_OWN` where it is the caller's own, and `given` stays.
/// `NR_BAD_ROW` for the stamp 0. Where the cache is full, or the value too heavy beside the others, others go until it
/// fits: first one with a stamp below the bound, of the next eight ways that it comes to.
#[unsafe(no_mangle)]
pub extern "C" fn nr_cache_land(
    cache: &mut NrCache,
    number: u64,
    stamp: u64,
    value: u64,
    weight: u32,
    bound: u64,
    given: &mut GivenValue,
) -> u32
    ensures { WhenLive (given.new ≡ given.old) (WithNumber answer_bad_row stamp (given.new ≡ given.old) (CacheCalls (LandsByCode number stamp value weight bound given.old given.new))) cache.old.live cache.new.live result }
{
    if !cache.is_live() {
        return NR_CLOSED;
    }
    if stamp == 0 {
        return NR_BAD_ROW;
    }
    let side = cache.side();
    let landed = side
        .store
        .land(&side.map, number, stamp, value, weight, bound, given);
    of_landed(landed)
}

/// Puts a value, with a stamp above 0, in place of what the id has; its flight is outdated. Answers as
/// `nr_cache_land`; while the id is being changed, or where the value is heavier than all may be, it is the caller's
/// own, and the id has none. `NR_NO_KEY`
/// for the id 0.
#[unsafe(no_mangle)]
pub extern "C" fn nr_cache_put(
    cache: &mut NrCache,
    id: u64,
    stamp: u64,
    value: u64,
    weight: u32,
    bound: u64,
    given: &mut GivenValue,
) -> u32
    ensures { BringsToCache id stamp (given.new ≡ given.old) (PutsByCode id stamp value weight bound given.old given.new) cache.old.live cache.new.live result }
{
    if !cache.is_live() {
        return NR_CLOSED;
    }
    if id == 0 {
        return NR_NO_KEY;
    }
    if stamp == 0 {
        return NR_BAD_ROW;
    }
    let side = cache.side();
    let landed = side
        .store
        .put(&side.map, id, stamp, value, weight, bound, given);
    of_landed(landed)
}

/// As `nr_cache_put` where the id's value is `old` still. Else nothing happens: `NR_OTHER` where it has another, and
/// `NR_HOLE` where it has none; then `given` stays.
#[unsafe(no_mangle)]
pub extern "C" fn nr_cache_swap(
    cache: &mut NrCache,
    id: u64,
    old: u64,
    stamp: u64,
    value: u64,
    weight: u32,
    bound: u64,
    given: &mut GivenValue,
) -> u32
    ensures { BringsToCache id stamp (given.new ≡ given.old) (SwapsByCode id old stamp value weight bound given.old given.new) cache.old.live cache.new.live result }
{
    if !cache.is_live() {
        return NR_CLOSED;
    }
    if id == 0 {
        return NR_NO_KEY;
    }
    if stamp == 0 {
        return NR_BAD_ROW;
    }
    let side = cache.side();
    let swapped = side
        .store
        .swap(&side.map, id, old, stamp, value, weight, bound, given);
    of_swapped(swapped)
}
