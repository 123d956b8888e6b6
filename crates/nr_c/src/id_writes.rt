//! What the writer by id calls, beside upqueries.
ghost use Rattle.std.specs.Prelude.{◌≡◌, ⊤};
ghost use Rattle.nr_c.specs.IdLive.{IdWriterCalls, WithId};
ghost use Rattle.nr_c.specs.IdWrites.{EvictsIdByCode, LooksIdByCode, ReplacesIdByCode, UpdatesIdByCode};
ghost use Rattle.nr_c.specs.Live.{WhenLive};

use crate::codes::{NR_CLOSED, NR_NO_KEY, of_evict};
use crate::id_codes::{of_id_replace, of_id_update, of_looked};
use crate::id_rows::{id_batch_refusal, id_refusal};
use crate::id_writer_handle::NrIdWriter;
use crate::rows::NrRows;
use nr_model::{Delta, Row};

/// The writer's own find by id. Answers `NR_ROWS`, and the caller's cells show the id's rows; `NR_ASKED`
/// where its upquery is under way, `NR_HOLE` where it has no way, or `NR_NO_KEY` for the id 0, and they
/// stay. Takes the steps of a look-up; then 1 where the way is a hole, and 2n + 4 for n rows.
#[unsafe(no_mangle)]
pub extern "C" fn nr_look_id(writer: &mut NrIdWriter, id: u64, rows: &mut NrRows) -> u32
    ensures { WhenLive (rows.new ≡ rows.old) (WithId id (rows.new ≡ rows.old) (IdWriterCalls (LooksIdByCode id rows.old rows.new))) writer.old.live writer.new.live result }
{
    if !writer.is_live() {
        return NR_CLOSED;
    }
    if id == 0 {
        return NR_NO_KEY;
    }
    let side = writer.side();
    of_looked(side.map.look(&mut side.writer, id, rows))
}

/// Applies a batch of 1 to 64 signed rows to an id's rows, whole or not at all. Answers `NR_NO_KEY` for
/// the id 0, `NR_BAD_BATCH` where they are none or more, and `NR_BAD_ROW` where the first number of one
/// is 0, with no step; `NR_NOTHING` where the id has no way; and else as `nr_update`, `NR_DROPPED` where
/// the id's upquery is under way.
#[unsafe(no_mangle)]
pub extern "C" fn nr_update_id(writer: &mut NrIdWriter, id: u64, deltas: &[Delta]) -> u32
    ensures { WhenLive ⊤ (WithId id ⊤ (IdWriterCalls (UpdatesIdByCode id deltas.now))) writer.old.live writer.new.live result }
{
    if !writer.is_live() {
        return NR_CLOSED;
    }
    if id == 0 {
        return NR_NO_KEY;
    }
    let side = writer.side();
    if let Some(code) = id_batch_refusal(deltas) {
        return code;
    }
    of_id_update(side.map.update(&mut side.writer, id, deltas))
}

/// Puts rows in ascending order whole in place of all that an id has. Answers `NR_NO_KEY` for the id 0,
/// `NR_TOO_MANY`, `NR_NOT_SORTED` and `NR_BAD_ROW` for rows that aren't an id's, with no step;
/// `NR_NOTHING` where the id has no way; and else as `nr_replace`, `NR_DROPPED` where the id's upquery is
/// under way.
#[unsafe(no_mangle)]
pub extern "C" fn nr_replace_id(writer: &mut NrIdWriter, id: u64, rows: &[Row]) -> u32
    ensures { WhenLive ⊤ (WithId id ⊤ (IdWriterCalls (ReplacesIdByCode id rows.now))) writer.old.live writer.new.live result }
{
    if !writer.is_live() {
        return NR_CLOSED;
    }
    if id == 0 {
        return NR_NO_KEY;
    }
    let side = writer.side();
    if let Some(code) = id_refusal(side.map.rows(), rows) {
        return code;
    }
    of_id_replace(side.map.replace(&mut side.writer, id, rows))
}

/// Takes an id's rows, and then its way, which another id can have then. Answers `NR_EVICTED`;
/// `NR_NOTHING` where the id has no way or its upquery is under way; or `NR_NO_KEY` for the id 0, with no
/// step. Takes the steps of a look-up, 2 of the map, and 3 of the directory; where nothing happens,
/// 1 or none of the map, and no more.
#[unsafe(no_mangle)]
pub extern "C" fn nr_evict_id(writer: &mut NrIdWriter, id: u64) -> u32
    ensures { WhenLive ⊤ (WithId id ⊤ (IdWriterCalls (EvictsIdByCode id))) writer.old.live writer.new.live result }
{
    if !writer.is_live() {
        return NR_CLOSED;
    }
    if id == 0 {
        return NR_NO_KEY;
    }
    let side = writer.side();
    of_evict(side.map.evict(&mut side.writer, id))
}
