//! What the writer calls where rows refer to more: calls that also give out what their slot had.
ghost use Rattle.std.specs.Prelude.{◌≡◌};
ghost use Rattle.nr_c.specs.Live.{WhenLive, WithKey, WriterCalls, writer_keys};
ghost use Rattle.nr_c.specs.Reclaims.{FillsReclaimingByCode, ReapsByCode, ReplacesReclaimingByCode, UpdatesReclaimingByCode};

use crate::codes::{
    NR_BAD_BATCH, NR_CLOSED, NR_NO_KEY, of_fill_reclaiming, of_reaped, of_replace_reclaiming,
    of_update_reclaiming,
};
use crate::rows::{NrRows, are_batch, refusal};
use crate::writer_handle::NrWriter;
use nr_model::{Delta, Row};

/// As `nr_fill`, and gives out the set that stood in the slot which the call took: `NR_GIVEN` in place
/// of `NR_DONE`, and `had` shows it. No key has that set, and no reader holds it. `had` stays with each
/// other answer. 2m + 1 steps more for a set of m rows.
#[unsafe(no_mangle)]
pub extern "C" fn nr_fill_reclaiming(
    writer: &mut NrWriter,
    key: u32,
    number: u64,
    rows: &[Row],
    had: &mut NrRows,
) -> u32
    ensures { WhenLive (had.new ≡ had.old) (WithKey writer_keys key (had.new ≡ had.old) (WriterCalls (FillsReclaimingByCode key number rows.now had.old had.new))) writer.old.live writer.new.live result }
{
    if !writer.is_live() {
        return NR_CLOSED;
    }
    let side = writer.side();
    if !side.has_key(key) {
        return NR_NO_KEY;
    }
    if let Some(code) = refusal(side.map.rows(), rows) {
        return code;
    }
    let answer = side
        .map
        .fill_reclaiming(&mut side.writer, key, number, rows, had);
    of_fill_reclaiming(answer)
}

/// As `nr_update`, and gives out what its slot had, as `nr_fill_reclaiming`.
#[unsafe(no_mangle)]
pub extern "C" fn nr_update_reclaiming(
    writer: &mut NrWriter,
    key: u32,
    deltas: &[Delta],
    had: &mut NrRows,
) -> u32
    ensures { WhenLive (had.new ≡ had.old) (WithKey writer_keys key (had.new ≡ had.old) (WriterCalls (UpdatesReclaimingByCode key deltas.now had.old had.new))) writer.old.live writer.new.live result }
{
    if !writer.is_live() {
        return NR_CLOSED;
    }
    let side = writer.side();
    if !side.has_key(key) {
        return NR_NO_KEY;
    }
    if !are_batch(deltas) {
        return NR_BAD_BATCH;
    }
    let answer = side
        .map
        .update_reclaiming(&mut side.writer, key, deltas, had);
    of_update_reclaiming(answer)
}

/// As `nr_replace`, and gives out what its slot had, as `nr_fill_reclaiming`.
#[unsafe(no_mangle)]
pub extern "C" fn nr_replace_reclaiming(
    writer: &mut NrWriter,
    key: u32,
    rows: &[Row],
    had: &mut NrRows,
) -> u32
    ensures { WhenLive (had.new ≡ had.old) (WithKey writer_keys key (had.new ≡ had.old) (WriterCalls (ReplacesReclaimingByCode key rows.now had.old had.new))) writer.old.live writer.new.live result }
{
    if !writer.is_live() {
        return NR_CLOSED;
    }
    let side = writer.side();
    if !side.has_key(key) {
        return NR_NO_KEY;
    }
    if let Some(code) = refusal(side.map.rows(), rows) {
        return code;
    }
    let answer = side
        .map
        .replace_reclaiming(&mut side.writer, key, rows, had);
    of_replace_reclaiming(answer)
}

/// Gives out a retired set before its slot is taken again, the oldest that waits and that no reader
/// holds: `NR_GIVEN`, and `had` shows it. `NR_HELD` where readers hold all that wait, and `NR_NOTHING`
/// where none waits; then `had` stays. Takes a step for each set that it polls, and 2m + 1 for a set of
/// m rows.
#[unsafe(no_mangle)]
pub extern "C" fn nr_reap(writer: &mut NrWriter, had: &mut NrRows) -> u32
    ensures { WhenLive (had.new ≡ had.old) (WriterCalls (ReapsByCode had.old had.new)) writer.old.live writer.new.live result }
{
    if !writer.is_live() {
        return NR_CLOSED;
    }
    let side = writer.side();
    of_reaped(side.map.reap(&mut side.writer, had))
}
