//! What helps the writer by id to choose whom to evict.
ghost use Rattle.std.specs.Prelude.{◌≡◌, ⊤};
ghost use Rattle.nr_c.specs.IdChoices.{ChoosesByCode, UsesIdByCode};
ghost use Rattle.nr_c.specs.IdLive.{IdWriterCalls, IdWriterTurns, WithId};
ghost use Rattle.nr_c.specs.Live.{WhenLive};

use crate::codes::{NR_ALL_ASKED, NR_CLOSED, NR_DONE, NR_NO_KEY, NR_NOTHING};
use crate::id_writer_handle::NrIdWriter;

/// Whether an id's rows were found since this was asked last: `NR_DONE`, or `NR_NOTHING`. It is a hint: a
/// find that comes meanwhile may count or not, and `nr_again_id` doesn't. Answers `NR_NO_KEY` for the id
/// 0, with no step. Takes the looks of a look-up, and then 1 step, or 2 where the answer is `NR_DONE`.
#[unsafe(no_mangle)]
pub extern "C" fn nr_uses_id(writer: &mut NrIdWriter, id: u64) -> u32
    ensures { WhenLive ⊤ (WithId id ⊤ (IdWriterCalls (UsesIdByCode id))) writer.old.live writer.new.live result }
{
    if !writer.is_live() {
        return NR_CLOSED;
    }
    if id == 0 {
        return NR_NO_KEY;
    }
    let side = writer.side();
    let used = side.map.uses(&mut side.writer, id);
    if used { NR_DONE } else { NR_NOTHING }
}

/// The id of a way of another's group, which may be evicted in its favour: `NR_DONE`, and `chosen` is the first from
/// the last choice on that wasn't found since. `NR_NOTHING` where the way that was chosen has no id, and
/// `chosen` stays. Takes 3 steps. With no step it answers `NR_ALL_ASKED` where each way of the group has an
/// open upquery, so that no choice could be evicted, and `NR_NO_KEY` for the id 0.
#[unsafe(no_mangle)]
pub extern "C" fn nr_choose_id(writer: &mut NrIdWriter, id: u64, chosen: &mut u64) -> u32
    ensures { WhenLive (chosen.new ≡ chosen.old) (WithId id (chosen.new ≡ chosen.old) (IdWriterTurns (ChoosesByCode id chosen.old chosen.new))) writer.old.live writer.new.live result }
{
    if !writer.is_live() {
        return NR_CLOSED;
    }
    if id == 0 {
        return NR_NO_KEY;
    }
    let side = writer.side();
    if side.ledger.are_all_asked(side.map.group_of(id)) {
        return NR_ALL_ASKED;
    }
    match side.map.choose(&mut side.writer, id) {
        Some(named) => {
            *chosen = named;
            NR_DONE
        }
        None => NR_NOTHING,
    }
}
