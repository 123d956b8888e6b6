//! The writer's calls by id that also give out the set which their slot had, and the one that gives
//! out a set before. A set comes out with its tag: its first row's `b` is the id that it was of.
ghost use Rattle.std.specs.Prelude.{◌≡◌, ◌<◌, ◌∷◌, Err, IfErr};
ghost use Rattle.nr_model.specs.Batches.{IsBatch};
ghost use Rattle.nr_board.specs.Reaping.{ReapsIn};
ghost use Rattle.nr_board.specs.Reclaiming.{ReplacesReclaiming, UpdatesReclaiming};
ghost use Rattle.nr_idmap.specs.Keepers.{OwesSame, id_rows};
ghost use Rattle.nr_idmap.specs.Tags.{AreIdDeltas, IsIdSet, tag_of};

use crate::id_map::IdMap;
use crate::rows::put_tagged;
use crate::tokens::IdWriter;
use crate::upqueries::{Unfilled, Upquery};
use crate::writes::IdFault;
use nr_map::{FillFault, Reaped, Reclaimed, ReplaceFault, UpdateFault};
use nr_model::{Delta, Row, RowRoom};

impl IdMap {
    ghost use Rattle.nr_idmap.specs.IdWrites.{CallsWay, FillsIdReclaiming, ReturnsTo};

    /// As `fill`, and writes the set that the taken slot had into `had`, as the map's `fill_reclaiming`.
    pub fn fill_reclaiming<R: RowRoom>(
        &self,
        writer: &mut IdWriter,
        upquery: Upquery,
        rows: &[Row],
        had: &mut R,
    ) -> Result<Reclaimed, Unfilled>
        requires own { writer.old.table ≡ self.now }
        requires upquery { upquery.table ≡ self.now }
        requires rows { IsIdSet (id_rows self.now) rows.now }
        ensures own { writer.new.table ≡ self.now }
        ensures fills { FillsIdReclaiming R.shows upquery.owed rows.now writer.old had.old writer.new had.new result }
        ensures returns { IfErr result (λ unfilled. ReturnsTo self.now unfilled) }
        ensures asker { writer.new.asker ≡ writer.old.asker }
    {
        let (way, number, id) = upquery.into_parts();
        if self.directory.way_of(&mut writer.clerk, id) != Some(way) {
            return Err(Unfilled::Closed);
        }
        put_tagged(&mut writer.sorted, id, rows, self.map.rows() - 1);
        match self.map.fill_reclaiming(
            &mut writer.writer,
            way,
            number,
            writer.sorted.as_slice(),
            had,
        ) {
            Ok(given) => Ok(given),
            Err(FillFault::NoSlot(counts)) => {
                Err(Unfilled::NoSlot(self.upquery(way, number, id), counts))
            }
            Err(FillFault::NotAsked) => Err(Unfilled::Closed),
            Err(FillFault::Already) => Err(Unfilled::Closed),
            Err(FillFault::Stale) => Err(Unfilled::Closed),
        }
    }

    /// As `update`, and writes the set that the taken slot had into `had`, as the map's
    /// `update_reclaiming`.
    pub fn update_reclaiming<R: RowRoom>(
        &self,
        writer: &mut IdWriter,
        id: u64,
        deltas: &[Delta],
        had: &mut R,
    ) -> Result<Reclaimed, IdFault<UpdateFault>>
        requires own { writer.old.table ≡ self.now }
        requires id { 0 < id }
        requires batch { IsBatch deltas.now }
        requires deltas { AreIdDeltas deltas.now }
        ensures own { writer.new.table ≡ self.now }
        ensures updates { CallsWay (λ way old new r. UpdatesReclaiming R.shows self.now.map.shape.rows way deltas.now old had.old new had.new r) id writer.old writer.new result }
        ensures absent { result ≡ Err IdFault.Absent → had.new ≡ had.old }
        ensures owes { OwesSame writer.old writer.new }
        ensures asker { writer.new.asker ≡ writer.old.asker }
    {
        let Some(way) = self.directory.way_of(&mut writer.clerk, id) else {
            return Err(IdFault::Absent);
        };
        match self
            .map
            .update_reclaiming(&mut writer.writer, way, deltas, had)
        {
            Ok(given) => Ok(given),
            Err(fault) => Err(IdFault::Refused(fault)),
        }
    }

    /// As `replace`, and writes the set that the taken slot had into `had`, as the map's
    /// `replace_reclaiming`.
    pub fn replace_reclaiming<R: RowRoom>(
        &self,
        writer: &mut IdWriter,
        id: u64,
        rows: &[Row],
        had: &mut R,
    ) -> Result<Reclaimed, IdFault<ReplaceFault>>
        requires own { writer.old.table ≡ self.now }
        requires id { 0 < id }
        requires rows { IsIdSet (id_rows self.now) rows.now }
        ensures own { writer.new.table ≡ self.now }
        ensures replaces { CallsWay (λ way old new r. ReplacesReclaiming R.shows way (tag_of id ∷ rows.now) old had.old new had.new r) id writer.old writer.new result }
        ensures absent { result ≡ Err IdFault.Absent → had.new ≡ had.old }
        ensures owes { OwesSame writer.old writer.new }
        ensures asker { writer.new.asker ≡ writer.old.asker }
    {
        let Some(way) = self.directory.way_of(&mut writer.clerk, id) else {
            return Err(IdFault::Absent);
        };
        put_tagged(&mut writer.sorted, id, rows, self.map.rows() - 1);
        match self
            .map
            .replace_reclaiming(&mut writer.writer, way, writer.sorted.as_slice(), had)
        {
            Ok(given) => Ok(given),
            Err(fault) => Err(IdFault::Refused(fault)),
        }
    }

    /// Writes the oldest set that waits and that no reader holds into `had`, as the map's `reap`.
    pub fn reap<R: RowRoom>(&self, writer: &mut IdWriter, had: &mut R) -> Reaped
        requires own { writer.old.table ≡ self.now }
        ensures own { writer.new.table ≡ self.now }
        ensures reaps { ReapsIn R.shows writer.old.writer had.old writer.new.writer had.new result }
        ensures clerk { writer.new.clerk ≡ writer.old.clerk }
        ensures asker { writer.new.asker ≡ writer.old.asker }
        ensures owes { OwesSame writer.old writer.new }
    {
        self.map.reap(&mut writer.writer, had)
    }
}
