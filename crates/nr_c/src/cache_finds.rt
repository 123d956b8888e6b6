//! A cache's reader, which takes no lock.
ghost use Rattle.std.specs.Prelude.{◌≡◌, ⊤};
ghost use Rattle.nr_c.specs.Caches.{FindsValueByCode, HoldsValueByCode};
ghost use Rattle.nr_c.specs.IdLive.{IdHandHears, IdHandTurns, WhenHoldingById, WithId};
ghost use Rattle.nr_c.specs.IdPins.{ReleasesId};
ghost use Rattle.nr_c.specs.Live.{WhenLive};

use crate::cache_codes::of_value;
use crate::cache_reader_handle::NrCacheReader;
use crate::codes::{NR_CLOSED, NR_DONE, NR_NO_KEY, NR_NOT_HOLDING};
use nr_cache::FoundValue;

/// Finds the value of an id, which the reader holds until its next find or its release: meanwhile it doesn't
/// come out, whatever happens to the id. Answers `NR_ROWS`, and `found` has the value with its stamp; or
/// `NR_HOLE`, and then nothing is held and `found` stays. `NR_CLOSED` in place of `NR_HOLE` where the cache was
/// closed; `NR_NO_KEY` for the id 0, with no step. Takes the steps of a hand's `pin`.
#[unsafe(no_mangle)]
pub extern "C" fn nr_cache_find(reader: &mut NrCacheReader, id: u64, found: &mut FoundValue) -> u32
    ensures { WhenLive (found.new ≡ found.old) (WithId id (found.new ≡ found.old) (IdHandHears (FindsValueByCode id found.old found.new))) reader.old.live reader.new.live result }
{
    if !reader.is_live() {
        return NR_CLOSED;
    }
    if id == 0 {
        return NR_NO_KEY;
    }
    let side = reader.side();
    let value = nr_cache::find(&side.map, &mut side.hand, id);
    let answer = of_value(value, found);
    side.watch.heard(answer)
}

/// Finds and holds the value of an id as `nr_cache_find` does, for who has just landed or put it: the choice of whose
/// value goes doesn't count it. The same answers. Takes the steps of a hand's `hold`.
#[unsafe(no_mangle)]
pub extern "C" fn nr_cache_hold(reader: &mut NrCacheReader, id: u64, found: &mut FoundValue) -> u32
    ensures { WhenLive (found.new ≡ found.old) (WithId id (found.new ≡ found.old) (IdHandHears (HoldsValueByCode id found.old found.new))) reader.old.live reader.new.live result }
{
    if !reader.is_live() {
        return NR_CLOSED;
    }
    if id == 0 {
        return NR_NO_KEY;
    }
    let side = reader.side();
    let value = nr_cache::hold(&side.map, &mut side.hand, id);
    let answer = of_value(value, found);
    side.watch.heard(answer)
}

/// Ends the hold, in 1 step: `NR_DONE`; or `NR_NOT_HOLDING` with no step.
#[unsafe(no_mangle)]
pub extern "C" fn nr_cache_release(reader: &mut NrCacheReader) -> u32
    ensures { WhenLive ⊤ (WhenHoldingById ⊤ (IdHandTurns ReleasesId)) reader.old.live reader.new.live result }
{
    if !reader.is_live() {
        return NR_CLOSED;
    }
    let side = reader.side();
    if !side.holds() {
        return NR_NOT_HOLDING;
    }
    side.hand.release(&side.map);
    NR_DONE
}
