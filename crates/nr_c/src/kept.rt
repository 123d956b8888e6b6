//! Finds by a reader that keeps what it found.
ghost use Rattle.std.specs.Prelude.{◌≡◌};
ghost use Rattle.nr_c.specs.Live.{WhenLive, WithKey, reader_keys};
ghost use Rattle.nr_c.specs.Kept.{KeepsByCode};

use crate::codes::{NR_CLOSED, NR_NO_KEY, of_found};
use crate::reader_handle::NrReader;
use crate::rows::NrRows;

/// Looks a key up and holds its set for the next call. Where the key still has the set that the
/// reader holds, it takes 2n + 1 steps for n rows, which write no word. Else it finds and holds anew, in
/// the steps of a hand's `find_kept`, with `nr_find`'s look at a hole. Answers `NR_ROWS`, or `NR_HOLE` or
/// `NR_CLOSED`, and then nothing is held and the caller's cells stay; or `NR_NO_KEY` with no step.
#[unsafe(no_mangle)]
pub extern "C" fn nr_find_kept(reader: &mut NrReader, key: u32, rows: &mut NrRows) -> u32
    ensures { WhenLive (rows.new ≡ rows.old) (WithKey reader_keys key (rows.new ≡ rows.old) (KeepsByCode key rows.old rows.new)) reader.old.live reader.new.live result }
{
    if !reader.is_live() {
        return NR_CLOSED;
    }
    let side = reader.side();
    if !side.has_key(key) {
        return NR_NO_KEY;
    }
    side.hand.hold_for(key);
    let answer = of_found(side.hand.find_kept(&side.map, key, rows));
    side.watch.heard(answer)
}
