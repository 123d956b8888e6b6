//! Which ids were found of late, and which one another may take the place of.
ghost use Rattle.std.specs.Prelude.{◌≡◌, ◌<◌};
ghost use Rattle.nr_idmap.specs.IdChoices.{ChoosesId, StaysButClerk, UsesId};

use crate::id_map::IdMap;
use crate::tokens::IdWriter;

impl IdMap {
    /// Whether an id's rows were found since this was asked last. A find that comes
    /// meanwhile may count or not, and a hand's `again` doesn't. Takes the looks of a look-up, and then 1
    /// step, or 2 where the answer is yes.
    pub fn uses(&self, writer: &mut IdWriter, id: u64) -> bool
        requires own { writer.old.table ≡ self.now }
        requires id { 0 < id }
        ensures own { writer.new.table ≡ self.now }
        ensures uses { UsesId id writer.old.clerk writer.new.clerk result }
        ensures stays { StaysButClerk writer.old writer.new }
    {
        let Some(way) = self.directory.way_of(&mut writer.clerk, id) else {
            return false;
        };
        self.directory.take_mark(&mut writer.clerk, way)
    }

    /// An id of the same group, which may be evicted to make room for this one. It is chosen by second
    /// chance: the first behind the last choice that wasn't found since. `None` means that the way that was
    /// chosen has no id. An id whose upquery is open can't be evicted, and the next call chooses the next
    /// one. Takes 3 steps.
    pub fn choose(&self, writer: &mut IdWriter, id: u64) -> Option<u64>
        requires own { writer.old.table ≡ self.now }
        ensures own { writer.new.table ≡ self.now }
        ensures chooses { ChoosesId id writer.old.clerk writer.new.clerk result }
        ensures stays { StaysButClerk writer.old writer.new }
    {
        let way = self.directory.choose(&mut writer.clerk, id);
        self.directory.id_of(&mut writer.clerk, way)
    }
}
