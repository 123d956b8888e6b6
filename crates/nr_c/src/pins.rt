//! A reader that holds a set.
ghost use Rattle.std.specs.Prelude.{◌≡◌, ⊤};
ghost use Rattle.nr_c.specs.Live.{ByIdleReader, WhenHolding, WhenLive, WithKey, reader_keys};
ghost use Rattle.nr_c.specs.Pins.{CopiesSet, FindsByHold, PinsCells, Releases, ReadsRow};

use crate::codes::{
    NR_CLOSED, NR_DONE, NR_HOLDING, NR_HOLE, NR_NO_KEY, NR_NO_ROW, NR_NOT_HOLDING, NR_OTHER,
    NR_ROWS,
};
use crate::reader_handle::NrReader;
use crate::rows::NrRows;
use nr_model::Row;

/// Finds a key, and holds its set, which stays as it is until the reader is released, whatever is
/// filled, updated or evicted meanwhile. Takes the steps of the map's `pin`, and at a hole `nr_find`'s look.
/// Answers `NR_ROWS`, and then `count` is the number of its rows; or `NR_HOLE` or `NR_CLOSED`, and then the
/// reader holds nothing and `count` stays.
/// `NR_NO_KEY`, or `NR_HOLDING` where it holds a set, with no step.
#[unsafe(no_mangle)]
pub extern "C" fn nr_pin(reader: &mut NrReader, key: u32, count: &mut u32) -> u32
    ensures { ByIdleReader key (count.new ≡ count.old) (PinsCells key count.old count.new) reader.old.live reader.new.live result }
{
    if !reader.is_live() {
        return NR_CLOSED;
    }
    let side = reader.side();
    if !side.has_key(key) {
        return NR_NO_KEY;
    }
    if side.holds() {
        return NR_HOLDING;
    }
    if !side.hand.pin(&side.map, key) {
        return side.watch.heard(NR_HOLE);
    }
    *count = side.hand.len();
    NR_ROWS
}

/// A row of the held set, from 0, in 2 steps: `NR_ROWS`. `NR_NO_ROW` where it has no such row, with
/// no step, and `row` stays. `NR_NOT_HOLDING` where nothing is held, with no step.
#[unsafe(no_mangle)]
pub extern "C" fn nr_row_at(reader: &mut NrReader, place: u32, row: &mut Row) -> u32
    ensures { WhenLive (row.new ≡ row.old) (WhenHolding (row.new ≡ row.old) (ReadsRow place row.old row.new)) reader.old.live reader.new.live result }
{
    if !reader.is_live() {
        return NR_CLOSED;
    }
    let side = reader.side();
    if !side.holds() {
        return NR_NOT_HOLDING;
    }
    if place >= side.hand.len() {
        return NR_NO_ROW;
    }
    *row = side.hand.row(&side.map, place);
    NR_ROWS
}

/// Writes the rows of the held set over those of the caller's, in 2 steps a row: `NR_ROWS`;
/// or `NR_NOT_HOLDING`, and they stay.
#[unsafe(no_mangle)]
pub extern "C" fn nr_copy(reader: &mut NrReader, rows: &mut NrRows) -> u32
    ensures { WhenLive (rows.new ≡ rows.old) (WhenHolding (rows.new ≡ rows.old) (CopiesSet rows.new)) reader.old.live reader.new.live result }
{
    if !reader.is_live() {
        return NR_CLOSED;
    }
    let side = reader.side();
    if !side.holds() {
        return NR_NOT_HOLDING;
    }
    side.hand.copy_to(&side.map, rows);
    NR_ROWS
}

/// Finds a key again, in 1 step, which loads one word and writes none: `NR_ROWS` where the key still
/// has the set that the reader holds, put by the same fill or update, and then this is a find of the
/// key. `NR_OTHER` where it hasn't; the reader holds the same set in either case.
/// `NR_NO_KEY`, or `NR_NOT_HOLDING` where nothing is held, with no step.
#[unsafe(no_mangle)]
pub extern "C" fn nr_again(reader: &mut NrReader, key: u32) -> u32
    ensures { WhenLive ⊤ (WithKey reader_keys key ⊤ (WhenHolding ⊤ (FindsByHold key))) reader.old.live reader.new.live result }
{
    if !reader.is_live() {
        return NR_CLOSED;
    }
    let side = reader.side();
    if !side.has_key(key) {
        return NR_NO_KEY;
    }
    if !side.holds() {
        return NR_NOT_HOLDING;
    }
    side.hand.hold_for(key);
    let found = side.hand.again(&side.map, key);
    if found { NR_ROWS } else { NR_OTHER }
}

/// Ends the hold, in 1 step: `NR_DONE`; or `NR_NOT_HOLDING` with no step.
#[unsafe(no_mangle)]
pub extern "C" fn nr_release(reader: &mut NrReader) -> u32
    ensures { WhenLive ⊤ (WhenHolding ⊤ Releases) reader.old.live reader.new.live result }
{
    if !reader.is_live() {
        return NR_CLOSED;
    }
    let side = reader.side();
    if !side.holds() {
        return NR_NOT_HOLDING;
    }
    side.hand.release(&side.map);
    NR_DONE
}
