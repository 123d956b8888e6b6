//! How many ids have rows.
ghost use Rattle.std.specs.Prelude.{◌≡◌};
ghost use Rattle.nr_map.specs.SlotCounts.{CountsSlots};
ghost use Rattle.nr_idmap.specs.Keepers.{OwesSame};

use crate::id_map::IdMap;
use crate::tokens::IdWriter;
use nr_map::SlotCounts;

impl IdMap {
    /// Counts the slots, in 1 step of the map, as its `slot_counts`: `filled` is how many ids have rows.
    pub fn slot_counts(&self, writer: &mut IdWriter) -> SlotCounts
        requires own { writer.old.table ≡ self.now }
        ensures own { writer.new.table ≡ self.now }
        ensures counts { CountsSlots writer.old.writer writer.new.writer result }
        ensures clerk { writer.new.clerk ≡ writer.old.clerk }
        ensures asker { writer.new.asker ≡ writer.old.asker }
        ensures owes { OwesSame writer.old writer.new }
    {
        self.map.slot_counts(&mut writer.writer)
    }
}
