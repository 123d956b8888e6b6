//! What the writer by id calls after a write in the base.
ghost use Rattle.std.specs.Prelude.{◌≡◌, ⊤};
ghost use Rattle.nr_c.specs.IdInvalidations.{InvalidatesIdByCode};
ghost use Rattle.nr_c.specs.IdLive.{IdWriterTurns, WithId};
ghost use Rattle.nr_c.specs.Live.{WhenLive};

use crate::codes::{NR_CLOSED, NR_NO_KEY, of_evict};
use crate::id_upqueries::take_back;
use crate::id_writer_handle::NrIdWriter;

/// Has what is known of an id forgotten, for a write in the base: its open upquery is taken back, as by
/// `nr_withdraw_id`, so that an answer from before the write is stale; where none is open its rows and its
/// way are taken, as by `nr_evict_id`. Answers `NR_CANCELLED` or `NR_WORN`; `NR_EVICTED` or `NR_NOTHING`; or
/// `NR_NO_KEY` for the id 0, with no step. Takes the steps of the one or the other.
#[unsafe(no_mangle)]
pub extern "C" fn nr_invalidate_id(writer: &mut NrIdWriter, id: u64) -> u32
    ensures { WhenLive ⊤ (WithId id ⊤ (IdWriterTurns (InvalidatesIdByCode id))) writer.old.live writer.new.live result }
{
    if !writer.is_live() {
        return NR_CLOSED;
    }
    if id == 0 {
        return NR_NO_KEY;
    }
    let side = writer.side();
    let first = side.map.group_of(id);
    let second = side.map.second_of(id);
    match side.ledger.find(first, second, id) {
        Some(upquery) => take_back(side, upquery),
        None => of_evict(side.map.evict(&mut side.writer, id)),
    }
}
