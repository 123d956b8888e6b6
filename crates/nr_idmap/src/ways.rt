//! What the writer knows of ways.
ghost use Rattle.std.specs.Prelude.{◌≡◌, ◌<◌};
ghost use Rattle.nr_ids.specs.Answers.{FindsId, FindsWay};
ghost use Rattle.nr_ids.specs.Marks.{TakesMark};
ghost use Rattle.nr_idmap.specs.IdChoices.{StaysButClerk};

use crate::id_map::IdMap;
use crate::tokens::IdWriter;

impl IdMap {
    /// The way that an id has, if it has one, in the steps of a look-up.
    pub fn way_of(&self, writer: &mut IdWriter, id: u64) -> Option<u32>
        requires own { writer.old.table ≡ self.now }
        requires id { 0 < id }
        ensures own { writer.new.table ≡ self.now }
        ensures finds { FindsWay id writer.old.clerk writer.new.clerk result }
        ensures stays { StaysButClerk writer.old writer.new }
    {
        self.directory.way_of(&mut writer.clerk, id)
    }

    /// The id that has a way, if one has it, in 1 step of the directory.
    pub fn id_at(&self, writer: &mut IdWriter, way: u32) -> Option<u64>
        requires own { writer.old.table ≡ self.now }
        requires way { way < self.now.map.shape.keys }
        ensures own { writer.new.table ≡ self.now }
        ensures names { FindsId way writer.old.clerk writer.new.clerk result }
        ensures stays { StaysButClerk writer.old writer.new }
    {
        self.directory.id_of(&mut writer.clerk, way)
    }

    /// Whether rows were found in a way since this was asked last, whichever id has it, as `uses` tells it.
    /// Takes 1 step of the directory, or 2 where the answer is yes.
    pub fn uses_way(&self, writer: &mut IdWriter, way: u32) -> bool
        requires own { writer.old.table ≡ self.now }
        requires way { way < self.now.map.shape.keys }
        ensures own { writer.new.table ≡ self.now }
        ensures takes { TakesMark way writer.old.clerk writer.new.clerk result }
        ensures stays { StaysButClerk writer.old writer.new }
    {
        self.directory.take_mark(&mut writer.clerk, way)
    }
}
