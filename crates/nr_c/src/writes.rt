//! What the writer calls.
ghost use Rattle.std.specs.Prelude.{◌≡◌, ⊤};
ghost use Rattle.nr_c.specs.Live.{WhenLive, WithKey, WriterCalls, writer_keys};
ghost use Rattle.nr_c.specs.Writes.{CancelsByCode, EvictsByCode, FillsByCode, IsNumber, LooksByCode, ReplacesByCode, StatesByCode, UpdatesByCode};

use crate::codes::{
    NR_BAD_BATCH, NR_CLOSED, NR_DONE, NR_NO_KEY, of_cancel, of_evict, of_fill, of_found, of_kind,
    of_replace, of_update,
};
use crate::rows::{NrRows, are_batch, refusal};
use crate::writer_handle::NrWriter;
use nr_model::{Delta, Row};

/// A find of the writer's own. 1 step for a hole, and 2n + 2 for n rows. Answers `NR_ROWS` or
/// `NR_HOLE`, and the caller's cells stay as they are where the key is a hole; or `NR_NO_KEY` with no
/// step.
#[unsafe(no_mangle)]
pub extern "C" fn nr_look(writer: &mut NrWriter, key: u32, rows: &mut NrRows) -> u32
    ensures { WhenLive (rows.new ≡ rows.old) (WithKey writer_keys key (rows.new ≡ rows.old) (WriterCalls (LooksByCode key rows.old rows.new))) writer.old.live writer.new.live result }
{
    if !writer.is_live() {
        return NR_CLOSED;
    }
    let side = writer.side();
    if !side.has_key(key) {
        return NR_NO_KEY;
    }
    of_found(side.map.look_into(&mut side.writer, key, rows))
}

/// Fills a key that was asked for, by its request's ticket number, with rows in ascending order.
/// Answers `NR_NO_KEY`, `NR_TOO_MANY` where they are more than a key may have, and `NR_NOT_SORTED` where one is
/// below the one before it, with no step; and else as the map's fill does: `NR_DONE`,
/// `NR_NOT_ASKED`, `NR_ALREADY`, `NR_STALE`; or `NR_NO_SLOT` where readers hold slots, and else
/// `NR_ALL_FILLED`.
#[unsafe(no_mangle)]
pub extern "C" fn nr_fill(writer: &mut NrWriter, key: u32, number: u64, rows: &[Row]) -> u32
    ensures { WhenLive ⊤ (WithKey writer_keys key ⊤ (WriterCalls (FillsByCode key number rows.now))) writer.old.live writer.new.live result }
{
    if !writer.is_live() {
        return NR_CLOSED;
    }
    let side = writer.side();
    if !side.has_key(key) {
        return NR_NO_KEY;
    }
    if let Some(code) = refusal(side.map.rows(), rows) {
        return code;
    }
    of_fill(side.map.fill_rows(&mut side.writer, key, number, rows))
}

/// Applies a batch of 1 to 64 signed rows to the rows of a filled key, whole or not at all. Answers
/// `NR_NO_KEY`, or `NR_BAD_BATCH` where they are none or more, with no step; and else as the map's update does:
/// `NR_DONE`, `NR_DROPPED`, `NR_NO_ROW`, `NR_TOO_MANY`; or `NR_NO_SLOT` where readers hold slots, and
/// else `NR_ALL_FILLED`.
#[unsafe(no_mangle)]
pub extern "C" fn nr_update(writer: &mut NrWriter, key: u32, deltas: &[Delta]) -> u32
    ensures { WhenLive ⊤ (WithKey writer_keys key ⊤ (WriterCalls (UpdatesByCode key deltas.now))) writer.old.live writer.new.live result }
{
    if !writer.is_live() {
        return NR_CLOSED;
    }
    let side = writer.side();
    if !side.has_key(key) {
        return NR_NO_KEY;
    }
    if !are_batch(deltas) {
        return NR_BAD_BATCH;
    }
    of_update(side.map.update_rows(&mut side.writer, key, deltas))
}

/// Puts rows in ascending order whole in place of a filled key's, by one publication and without a
/// read of the old ones. Answers `NR_NO_KEY`, `NR_TOO_MANY` and `NR_NOT_SORTED` as a fill does, with
/// no step; and else as the map's replacement does: `NR_DONE`, `NR_DROPPED`; or `NR_NO_SLOT` where
/// readers hold slots, and else `NR_ALL_FILLED`.
#[unsafe(no_mangle)]
pub extern "C" fn nr_replace(writer: &mut NrWriter, key: u32, rows: &[Row]) -> u32
    ensures { WhenLive ⊤ (WithKey writer_keys key ⊤ (WriterCalls (ReplacesByCode key rows.now))) writer.old.live writer.new.live result }
{
    if !writer.is_live() {
        return NR_CLOSED;
    }
    let side = writer.side();
    if !side.has_key(key) {
        return NR_NO_KEY;
    }
    if let Some(code) = refusal(side.map.rows(), rows) {
        return code;
    }
    of_replace(side.map.replace_rows(&mut side.writer, key, rows))
}

/// Makes a filled key a hole, in 2 steps, and 1 where it is not filled. Answers `NR_EVICTED` or
/// `NR_NOTHING`; or `NR_NO_KEY` with no step.
#[unsafe(no_mangle)]
pub extern "C" fn nr_evict(writer: &mut NrWriter, key: u32) -> u32
    ensures { WhenLive ⊤ (WithKey writer_keys key ⊤ (WriterCalls (EvictsByCode key))) writer.old.live writer.new.live result }
{
    if !writer.is_live() {
        return NR_CLOSED;
    }
    let side = writer.side();
    if !side.has_key(key) {
        return NR_NO_KEY;
    }
    of_evict(side.map.evict(&mut side.writer, key))
}

/// Takes the request of a key back, in 2 steps, and 1 where nothing happens. Answers
/// `NR_CANCELLED`, `NR_NOTHING` or `NR_WORN`; or `NR_NO_KEY` with no step.
#[unsafe(no_mangle)]
pub extern "C" fn nr_cancel(writer: &mut NrWriter, key: u32) -> u32
    ensures { WhenLive ⊤ (WithKey writer_keys key ⊤ (WriterCalls (CancelsByCode key))) writer.old.live writer.new.live result }
{
    if !writer.is_live() {
        return NR_CLOSED;
    }
    let side = writer.side();
    if !side.has_key(key) {
        return NR_NO_KEY;
    }
    of_cancel(side.map.cancel(&mut side.writer, key))
}

/// What a key is, in 1 step: `NR_HOLE`, `NR_ASKED` or `NR_ROWS`; or `NR_NO_KEY` with no step.
#[unsafe(no_mangle)]
pub extern "C" fn nr_state(writer: &mut NrWriter, key: u32) -> u32
    ensures { WhenLive ⊤ (WithKey writer_keys key ⊤ (WriterCalls (StatesByCode key))) writer.old.live writer.new.live result }
{
    if !writer.is_live() {
        return NR_CLOSED;
    }
    let side = writer.side();
    if !side.has_key(key) {
        return NR_NO_KEY;
    }
    of_kind(side.map.state(&mut side.writer, key))
}

/// A key's ticket number: that of its request, or of its next one where nobody asks. A fill names that
/// number. Answers `NR_DONE` or `NR_NO_KEY`. No step.
#[unsafe(no_mangle)]
pub extern "C" fn nr_number(writer: &mut NrWriter, key: u32, number: &mut u64) -> u32
    ensures { WhenLive (number.new ≡ number.old) (WithKey writer_keys key (number.new ≡ number.old) (WriterCalls (IsNumber key number.new))) writer.old.live writer.new.live result }
{
    if !writer.is_live() {
        return NR_CLOSED;
    }
    let side = writer.side();
    if !side.has_key(key) {
        return NR_NO_KEY;
    }
    *number = side.map.number(&side.writer, key);
    NR_DONE
}
