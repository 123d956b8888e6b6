//! What a cache tells its caller of itself. One thread at a time.
ghost use Rattle.std.specs.Prelude.{◌≡◌};
ghost use Rattle.nr_c.specs.Caches.{CacheCalls, CountsCache, LooksByValueCode, counts_of};
ghost use Rattle.nr_c.specs.IdLive.{WithId};
ghost use Rattle.nr_c.specs.Live.{WhenLive};

use crate::cache_codes::of_value;
use crate::cache_handle::NrCache;
use crate::codes::{NR_CLOSED, NR_DONE, NR_NO_KEY};
use nr_cache::{Counts, FoundValue};

/// How many values a cache holds, what they weigh, and how many loads and changes are under way.
#[repr(C)]
#[derive(Clone, Copy)]
pub struct NrCacheCounts {
    pub values: u64,
    pub weight: u64,
    pub flights: u64,
    pub changes: u64,
}

impl NrCacheCounts {
    pub fn of(counts: Counts) -> NrCacheCounts
        ensures { result ≡ counts_of counts }
    {
        NrCacheCounts {
            values: counts.values as u64,
            weight: counts.weight,
            flights: counts.flights as u64,
            changes: counts.changes as u64,
        }
    }
}

/// The store's own find of an id, by which nothing is held: `NR_ROWS`, and `found` has the value with its stamp; or
/// `NR_HOLE`, and `found` stays. `NR_NO_KEY` for the id 0.
#[unsafe(no_mangle)]
pub extern "C" fn nr_cache_look(cache: &mut NrCache, id: u64, found: &mut FoundValue) -> u32
    ensures { WhenLive (found.new ≡ found.old) (WithId id (found.new ≡ found.old) (CacheCalls (LooksByValueCode id found.old found.new))) cache.old.live cache.new.live result }
{
    if !cache.is_live() {
        return NR_CLOSED;
    }
    if id == 0 {
        return NR_NO_KEY;
    }
    let side = cache.side();
    let value = side.store.look(&side.map, id);
    of_value(value, found)
}

/// Counts, in 1 step: `NR_DONE`.
#[unsafe(no_mangle)]
pub extern "C" fn nr_cache_count(cache: &mut NrCache, counts: &mut NrCacheCounts) -> u32
    ensures { WhenLive (counts.new ≡ counts.old) (CacheCalls (CountsCache counts.new)) cache.old.live cache.new.live result }
{
    if !cache.is_live() {
        return NR_CLOSED;
    }
    let side = cache.side();
    let counted = side.store.count(&side.map);
    *counts = NrCacheCounts::of(counted);
    NR_DONE
}
