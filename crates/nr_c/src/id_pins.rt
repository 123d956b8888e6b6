//! A reader by id that holds a set.
ghost use Rattle.std.specs.Prelude.{◌≡◌, ⊤};
ghost use Rattle.nr_c.specs.IdLive.{ByIdleIdReader, IdHandHears, IdHandTurns, WhenHoldingById, WithId};
ghost use Rattle.nr_c.specs.IdPins.{CopiesIdSet, FindsIdByHold, KeepsIdByCode, PinsIdByCode, PinsRowByCode, ReadsIdRow, ReleasesId, count_told, row_told};
ghost use Rattle.nr_c.specs.Live.{WhenLive};
ghost use Rattle.nr_model.specs.Rows.{IsRowSet};
ghost use Rattle.nr_model.specs.declared.rows.TheConstants.{MAX_ROWS};

use crate::codes::{
    NR_CLOSED, NR_DONE, NR_HOLDING, NR_NO_KEY, NR_NO_ROW, NR_NOT_HOLDING, NR_OTHER, NR_ROWS,
};
use crate::id_codes::of_found_id;
use crate::id_reader_handle::NrIdReader;
use crate::rows::NrRows;
use nr_idmap::FoundId;
use nr_model::Row;

/// Finds an id, and holds its set, which stays as it is until the reader is released, whatever is filled,
/// updated or evicted meanwhile. Takes the steps of a hand's `pin`. Answers `NR_ROWS`, and then `count` is
/// the number of its rows; or as `nr_find_id`, and then the reader holds nothing and `count` stays.
/// `NR_NO_KEY` for the id 0, or `NR_HOLDING` where it holds a set, with no step.
#[unsafe(no_mangle)]
pub extern "C" fn nr_pin_id(reader: &mut NrIdReader, id: u64, count: &mut u32) -> u32
    ensures { ByIdleIdReader id (count.new ≡ count.old) (IdHandHears (PinsIdByCode id count.old count.new)) reader.old.live reader.new.live result }
{
    if !reader.is_live() {
        return NR_CLOSED;
    }
    if id == 0 {
        return NR_NO_KEY;
    }
    let side = reader.side();
    if side.holds() {
        return NR_HOLDING;
    }
    let found = side.hand.pin(&side.map, id);
    tell_count(&found, side.hand.rows(), count);
    side.watch.heard(of_found_id(found))
}

/// As `nr_pin_id`, and in place of the number of rows it tells the first of them: `NR_ROWS`, and then `row` is
/// that, and stays where the set has none; or as `nr_pin_id`, and then `row` stays.
#[unsafe(no_mangle)]
pub extern "C" fn nr_pin_row_id(reader: &mut NrIdReader, id: u64, row: &mut Row) -> u32
    ensures { ByIdleIdReader id (row.new ≡ row.old) (IdHandHears (PinsRowByCode id row.old row.new)) reader.old.live reader.new.live result }
{
    if !reader.is_live() {
        return NR_CLOSED;
    }
    if id == 0 {
        return NR_NO_KEY;
    }
    let side = reader.side();
    if side.holds() {
        return NR_HOLDING;
    }
    let found = side.hand.pin(&side.map, id);
    tell_first(&found, side.hand.rows(), row);
    side.watch.heard(of_found_id(found))
}

// How many rows are held, where some were found.
fn tell_count(found: &FoundId, held: &[Row], count: &mut u32)
    requires few { IsRowSet MAX_ROWS held.now }
    ensures { count.new ≡ count_told count.old found.now held.now }
{
    if let FoundId::Rows = found {
        *count = held.len() as u32;
    }
}

// And the first of them, where there is one.
fn tell_first(found: &FoundId, held: &[Row], row: &mut Row)
    ensures { row.new ≡ row_told row.old found.now held.now }
{
    if let (FoundId::Rows, Some(first)) = (found, held.first()) {
        *row = *first;
    }
}

/// Looks an id up and holds its set for the next call. Where the id's way still has the set of it that
/// the reader holds, it takes 1 step, which writes no word, 1 look at the way's mark, and 1 to mark it
/// where it isn't marked. Else it finds and holds anew, in the steps of a hand's `find_kept`. Answers as
/// `nr_find_id`; where that isn't `NR_ROWS`, nothing is held and the caller's cells stay.
#[unsafe(no_mangle)]
pub extern "C" fn nr_find_kept_id(reader: &mut NrIdReader, id: u64, rows: &mut NrRows) -> u32
    ensures { WhenLive (rows.new ≡ rows.old) (WithId id (rows.new ≡ rows.old) (IdHandHears (KeepsIdByCode id rows.old rows.new))) reader.old.live reader.new.live result }
{
    if !reader.is_live() {
        return NR_CLOSED;
    }
    if id == 0 {
        return NR_NO_KEY;
    }
    let side = reader.side();
    let answer = of_found_id(side.hand.find_kept(&side.map, id, rows));
    side.watch.heard(answer)
}

/// A row of the held set, from 0: `NR_ROWS`. `NR_NO_ROW` where it has no such row, and `row` stays.
/// `NR_NOT_HOLDING` where nothing is held. No step.
#[unsafe(no_mangle)]
pub extern "C" fn nr_row_at_id(reader: &mut NrIdReader, place: u32, row: &mut Row) -> u32
    ensures { WhenLive (row.new ≡ row.old) (WhenHoldingById (row.new ≡ row.old) (IdHandTurns (ReadsIdRow place row.old row.new))) reader.old.live reader.new.live result }
{
    if !reader.is_live() {
        return NR_CLOSED;
    }
    let side = reader.side();
    if !side.holds() {
        return NR_NOT_HOLDING;
    }
    let held = side.hand.rows();
    if place as usize >= held.len() {
        return NR_NO_ROW;
    }
    *row = held[place as usize];
    NR_ROWS
}

/// Writes the rows of the held set over those of the caller's: `NR_ROWS`; or `NR_NOT_HOLDING`, and they
/// stay. No step.
#[unsafe(no_mangle)]
pub extern "C" fn nr_copy_id(reader: &mut NrIdReader, rows: &mut NrRows) -> u32
    ensures { WhenLive (rows.new ≡ rows.old) (WhenHoldingById (rows.new ≡ rows.old) (IdHandTurns (CopiesIdSet rows.new))) reader.old.live reader.new.live result }
{
    if !reader.is_live() {
        return NR_CLOSED;
    }
    let side = reader.side();
    if !side.holds() {
        return NR_NOT_HOLDING;
    }
    side.hand.copy_to(rows);
    NR_ROWS
}

/// Finds an id again, in 1 step, which loads one word and writes none: `NR_ROWS` where its way still has
/// the set that the reader holds, put by the same fill or update, and then this is a find of the id.
/// `NR_OTHER` where it hasn't, or, with no step, where the held set is another id's; the reader holds the
/// same set in each case. `NR_NO_KEY` for the id 0, or `NR_NOT_HOLDING` where nothing is held, with no
/// step.
#[unsafe(no_mangle)]
pub extern "C" fn nr_again_id(reader: &mut NrIdReader, id: u64) -> u32
    ensures { WhenLive ⊤ (WithId id ⊤ (WhenHoldingById ⊤ (IdHandTurns (FindsIdByHold id)))) reader.old.live reader.new.live result }
{
    if !reader.is_live() {
        return NR_CLOSED;
    }
    if id == 0 {
        return NR_NO_KEY;
    }
    let side = reader.side();
    if !side.holds() {
        return NR_NOT_HOLDING;
    }
    let found = side.hand.again(&side.map, id);
    if found { NR_ROWS } else { NR_OTHER }
}

/// Ends the hold, in 1 step: `NR_DONE`; or `NR_NOT_HOLDING` with no step.
#[unsafe(no_mangle)]
pub extern "C" fn nr_release_id(reader: &mut NrIdReader) -> u32
    ensures { WhenLive ⊤ (WhenHoldingById ⊤ (IdHandTurns ReleasesId)) reader.old.live reader.new.live result }
{
    if !reader.is_live() {
        return NR_CLOSED;
    }
    let side = reader.side();
    if !side.holds() {
        return NR_NOT_HOLDING;
    }
    side.hand.release(&side.map);
    NR_DONE
}
