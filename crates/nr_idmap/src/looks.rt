//! The writer's own look at an id.
ghost use Rattle.std.specs.Prelude.{◌≡◌, ◌<◌};
ghost use Rattle.nr_idmap.specs.Keepers.{OwesSame};

use crate::id_map::IdMap;
use crate::rows::copy_behind;
use crate::tokens::IdWriter;
use nr_map::Found;
use nr_model::RowRoom;

/// The answer to a look by id.
#[derive(Clone, Copy, Debug, PartialEq, Eq)]
pub enum Looked {
    /// The caller's room has the id's rows.
    Rows,
    /// The id has a way, whose upquery is under way.
    Pending,
    /// The id has no way.
    Absent,
}

impl IdMap {
    ghost use Rattle.nr_idmap.specs.IdLooks.{LooksById};

    /// The writer's own find: writes the id's rows into the caller's room, which stays as it is unless
    /// the answer is `Rows`. Takes the steps of a look-up; then 1 where the id's way is a hole,
    /// and 2n + 4 for n rows.
    pub fn look<R: RowRoom>(&self, writer: &mut IdWriter, id: u64, rows: &mut R) -> Looked
        requires own { writer.old.table ≡ self.now }
        requires id { 0 < id }
        ensures own { writer.new.table ≡ self.now }
        ensures looks { LooksById R.shows id writer.old rows.old writer.new rows.new result }
        ensures owes { OwesSame writer.old writer.new }
        ensures asker { writer.new.asker ≡ writer.old.asker }
    {
        let Some(way) = self.directory.way_of(&mut writer.clerk, id) else {
            return Looked::Absent;
        };
        match self
            .map
            .look_into(&mut writer.writer, way, &mut writer.sorted)
        {
            Found::Hole => Looked::Pending,
            Found::Rows => {
                copy_behind(writer.sorted.as_slice(), id, rows);
                Looked::Rows
            }
        }
    }
}
