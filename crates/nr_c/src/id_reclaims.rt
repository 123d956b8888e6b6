//! What the writer by id calls where rows refer to more: calls that also give out what their slot had. A
//! set comes out with its tag, a first row (0, id).
ghost use Rattle.std.specs.Prelude.{◌≡◌};
ghost use Rattle.nr_c.specs.IdLive.{IdWriterTurns, WithId};
ghost use Rattle.nr_c.specs.IdReclaims.{FillsIdReclaimingByCode, ReapsIdByCode, ReplacesIdReclaimingByCode, UpdatesIdReclaimingByCode};
ghost use Rattle.nr_c.specs.IdUpqueries.{WithOwn};
ghost use Rattle.nr_c.specs.Live.{WhenLive};

use crate::codes::{
    NR_CLOSED, NR_NO_KEY, NR_STALE, NR_STRANGER, of_no_slot, of_reaped, of_reclaimed,
};
use crate::id_codes::{of_id_replace_reclaiming, of_id_update_reclaiming};
use crate::id_rows::{id_batch_refusal, id_refusal};
use crate::id_writer_handle::NrIdWriter;
use crate::kept_upquery::NrUpquery;
use crate::rows::NrRows;
use nr_idmap::Unfilled;
use nr_model::{Delta, Row};

/// As `nr_fill_id`, and gives out the set that stood in the slot which the call took: `NR_GIVEN` in place
/// of `NR_DONE`, and `had` shows it. `had` stays with each other answer. 2m + 1 steps more for a set of m
/// rows.
#[unsafe(no_mangle)]
pub extern "C" fn nr_fill_id_reclaiming(
    writer: &mut NrIdWriter,
    upquery: &NrUpquery,
    rows: &[Row],
    had: &mut NrRows,
) -> u32
    ensures { WhenLive (had.new ≡ had.old) (IdWriterTurns (WithOwn upquery.now (had.new ≡ had.old) (FillsIdReclaimingByCode upquery.now rows.now had.old had.new))) writer.old.live writer.new.live result }
{
    if !writer.is_live() {
        return NR_CLOSED;
    }
    let side = writer.side();
    if !side.ledger.is_own(upquery) {
        return NR_STRANGER;
    }
    if let Some(code) = id_refusal(side.map.rows(), rows) {
        return code;
    }
    let Some(opened) = side.ledger.give_up(*upquery) else {
        return NR_STALE;
    };
    match side
        .map
        .fill_reclaiming(&mut side.writer, opened, rows, had)
    {
        Ok(given) => of_reclaimed(given),
        Err(Unfilled::Closed) => NR_STALE,
        Err(Unfilled::NoSlot(opened, counts)) => {
            side.ledger.keep(upquery.count, opened);
            of_no_slot(counts)
        }
    }
}

/// As `nr_update_id`, and gives out what its slot had, as `nr_fill_id_reclaiming`.
#[unsafe(no_mangle)]
pub extern "C" fn nr_update_id_reclaiming(
    writer: &mut NrIdWriter,
    id: u64,
    deltas: &[Delta],
    had: &mut NrRows,
) -> u32
    ensures { WhenLive (had.new ≡ had.old) (WithId id (had.new ≡ had.old) (IdWriterTurns (UpdatesIdReclaimingByCode id deltas.now had.old had.new))) writer.old.live writer.new.live result }
{
    if !writer.is_live() {
        return NR_CLOSED;
    }
    if id == 0 {
        return NR_NO_KEY;
    }
    let side = writer.side();
    if let Some(code) = id_batch_refusal(deltas) {
        return code;
    }
    let answer = side
        .map
        .update_reclaiming(&mut side.writer, id, deltas, had);
    of_id_update_reclaiming(answer)
}

/// As `nr_replace_id`, and gives out what its slot had, as `nr_fill_id_reclaiming`.
#[unsafe(no_mangle)]
pub extern "C" fn nr_replace_id_reclaiming(
    writer: &mut NrIdWriter,
    id: u64,
    rows: &[Row],
    had: &mut NrRows,
) -> u32
    ensures { WhenLive (had.new ≡ had.old) (WithId id (had.new ≡ had.old) (IdWriterTurns (ReplacesIdReclaimingByCode id rows.now had.old had.new))) writer.old.live writer.new.live result }
{
    if !writer.is_live() {
        return NR_CLOSED;
    }
    if id == 0 {
        return NR_NO_KEY;
    }
    let side = writer.side();
    if let Some(code) = id_refusal(side.map.rows(), rows) {
        return code;
    }
    let answer = side.map.replace_reclaiming(&mut side.writer, id, rows, had);
    of_id_replace_reclaiming(answer)
}

/// Gives out a retired set before its slot is taken again, the oldest that waits and that no find reads:
/// `NR_GIVEN`, and `had` shows it. `NR_HELD` where finds read all that wait, and `NR_NOTHING` where none
/// waits; then `had` stays. Takes a step for each set that it polls, and 2m + 1 for a set of m rows.
#[unsafe(no_mangle)]
pub extern "C" fn nr_reap_id(writer: &mut NrIdWriter, had: &mut NrRows) -> u32
    ensures { WhenLive (had.new ≡ had.old) (IdWriterTurns (ReapsIdByCode had.old had.new)) writer.old.live writer.new.live result }
{
    if !writer.is_live() {
        return NR_CLOSED;
    }
    let side = writer.side();
    of_reaped(side.map.reap(&mut side.writer, had))
}
