//! How the slots are in use.
ghost use Rattle.std.specs.Prelude.{◌≡◌};
ghost use Rattle.nr_map.specs.SlotCounts.{CountsSlots};

use crate::reader_map::ReaderMap;
use crate::writer::Writer;

/// How many slots filled keys have, how many are retired, and how many were never taken. Retired ones
/// were taken, and no key has them any more: those that readers still hold, and those that wait to be
/// taken again, reaped or not.
#[derive(Clone, Copy, Debug, PartialEq, Eq)]
pub struct SlotCounts {
    pub filled: u32,
    pub retired: u32,
    pub free: u32,
}

impl ReaderMap {
    /// Counts the slots, in 1 step. The writer learns the history so far, and `filled` is how many keys
    /// are filled after it. After a call that found no slot the counts are those of its answer.
    pub fn slot_counts(&self, writer: &mut Writer) -> SlotCounts
        requires own { writer.old.table ≡ self.now }
        ensures { CountsSlots writer.old writer.new result }
    {
        self.board.learn(&mut writer.seat);
        let taken = writer.lists.taken();
        let retired = writer.lists.retired_len() as u32;
        let free = self.slots() - taken;
        SlotCounts {
            filled: taken - retired,
            retired,
            free,
        }
    }
}
