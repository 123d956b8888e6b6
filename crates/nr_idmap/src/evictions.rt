//! Evictions by id.
ghost use Rattle.std.specs.Prelude.{◌≡◌, ◌<◌};
ghost use Rattle.nr_idmap.specs.Keepers.{OwesSame};

use crate::id_map::IdMap;
use crate::tokens::IdWriter;
use nr_map::Evict;

impl IdMap {
    ghost use Rattle.nr_idmap.specs.IdWrites.{EvictsId};

    /// Takes an id's rows, and then its way, which another id can have then. Nothing happens where the
    /// id has no way, or its upquery is under way: that is ended by a fill or a withdrawal. Takes the
    /// steps of a look-up, 2 of the map, and 3 of the directory; where nothing happens, 1 or none of
    /// the map, and no more.
    pub fn evict(&self, writer: &mut IdWriter, id: u64) -> Evict
        requires own { writer.old.table ≡ self.now }
        requires id { 0 < id }
        ensures own { writer.new.table ≡ self.now }
        ensures evicts { EvictsId id writer.old writer.new result }
        ensures owes { OwesSame writer.old writer.new }
        ensures asker { writer.new.asker ≡ writer.old.asker }
    {
        let Some(way) = self.directory.way_of(&mut writer.clerk, id) else {
            return Evict::Nothing;
        };
        match self.map.evict(&mut writer.writer, way) {
            Evict::Evicted => {
                // A way that is asked for keeps its name: its late answer would fill the next absence.
                self.directory.unname(&mut writer.clerk, way);
                Evict::Evicted
            }
            Evict::Nothing => Evict::Nothing,
        }
    }
}
