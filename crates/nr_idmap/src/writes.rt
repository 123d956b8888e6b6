//! Updates and replacements by id.
ghost use Rattle.std.specs.Prelude.{◌≡◌, ◌<◌, ◌∷◌};
ghost use Rattle.nr_model.specs.Batches.{IsBatch};
ghost use Rattle.nr_board.specs.WriterAnswers.{ReplacesKey, UpdatesKey};
ghost use Rattle.nr_idmap.specs.Keepers.{OwesSame, id_rows};
ghost use Rattle.nr_idmap.specs.Tags.{AreIdDeltas, IsIdSet, tag_of};

use crate::id_map::IdMap;
use crate::rows::put_tagged;
use crate::tokens::IdWriter;
use nr_map::{ReplaceFault, UpdateFault};
use nr_model::{Delta, Row};

/// Why a call by id does nothing.
#[derive(Clone, Copy, Debug, PartialEq, Eq)]
pub enum IdFault<F> {
    /// The id has no way.
    Absent,
    /// The map refuses the call on the id's way; `Dropped` means that its upquery is under way.
    Refused(F),
}

impl IdMap {
    ghost use Rattle.nr_idmap.specs.IdWrites.{CallsWay};

    /// Applies one to sixty-four signed rows to an id's rows, whole or not at all. Refused where the id
    /// has no way, and as the map's `update`. Takes the steps of a look-up, and those of the
    /// map's `update` with a row more.
    pub fn update(
        &self,
        writer: &mut IdWriter,
        id: u64,
        deltas: &[Delta],
    ) -> Result<(), IdFault<UpdateFault>>
        requires own { writer.old.table ≡ self.now }
        requires id { 0 < id }
        requires batch { IsBatch deltas.now }
        requires deltas { AreIdDeltas deltas.now }
        ensures own { writer.new.table ≡ self.now }
        ensures updates { CallsWay (λ way. UpdatesKey self.now.map.shape.rows way deltas.now) id writer.old writer.new result }
        ensures owes { OwesSame writer.old writer.new }
        ensures asker { writer.new.asker ≡ writer.old.asker }
    {
        let Some(way) = self.directory.way_of(&mut writer.clerk, id) else {
            return Err(IdFault::Absent);
        };
        match self.map.update_rows(&mut writer.writer, way, deltas) {
            Ok(()) => Ok(()),
            Err(fault) => Err(IdFault::Refused(fault)),
        }
    }

    /// Puts rows, at most as many as an id may have, in place of all that an id has. Refused where the
    /// id has no way, and as the map's `replace`. Takes the steps of a look-up, and those of the
    /// map's `replace` for a row more.
    pub fn replace(
        &self,
        writer: &mut IdWriter,
        id: u64,
        rows: &[Row],
    ) -> Result<(), IdFault<ReplaceFault>>
        requires own { writer.old.table ≡ self.now }
        requires id { 0 < id }
        requires rows { IsIdSet (id_rows self.now) rows.now }
        ensures own { writer.new.table ≡ self.now }
        ensures replaces { CallsWay (λ way. ReplacesKey way (tag_of id ∷ rows.now)) id writer.old writer.new result }
        ensures owes { OwesSame writer.old writer.new }
        ensures asker { writer.new.asker ≡ writer.old.asker }
    {
        let Some(way) = self.directory.way_of(&mut writer.clerk, id) else {
            return Err(IdFault::Absent);
        };
        put_tagged(&mut writer.sorted, id, rows, self.map.rows() - 1);
        match self
            .map
            .replace_rows(&mut writer.writer, way, writer.sorted.as_slice())
        {
            Ok(()) => Ok(()),
            Err(fault) => Err(IdFault::Refused(fault)),
        }
    }
}
