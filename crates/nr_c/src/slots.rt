//! How the slots of a map are in use, as C has it.
ghost use Rattle.std.specs.Prelude.{◌≡◌};
ghost use Rattle.nr_c.specs.Live.{WhenLive, WriterCalls};
ghost use Rattle.nr_c.specs.Slots.{CountsByCode, slots_of};

use crate::codes::{NR_CLOSED, NR_DONE};
use crate::writer_handle::NrWriter;
use nr_map::SlotCounts;

/// How many slots filled keys have, how many are retired, and how many were never taken.
#[repr(C)]
#[derive(Clone, Copy)]
pub struct NrSlots {
    pub filled: u32,
    pub retired: u32,
    pub free: u32,
}

impl NrSlots {
    fn of(counts: SlotCounts) -> NrSlots
        ensures { result ≡ slots_of counts }
    {
        NrSlots {
            filled: counts.filled,
            retired: counts.retired,
            free: counts.free,
        }
    }
}

/// Counts the map's slots, in 1 step: `NR_DONE`.
#[unsafe(no_mangle)]
pub extern "C" fn nr_stats(writer: &mut NrWriter, slots: &mut NrSlots) -> u32
    ensures { WhenLive (slots.new ≡ slots.old) (WriterCalls (CountsByCode slots.new)) writer.old.live writer.new.live result }
{
    if !writer.is_live() {
        return NR_CLOSED;
    }
    let side = writer.side();
    *slots = NrSlots::of(side.map.slot_counts(&mut side.writer));
    NR_DONE
}
