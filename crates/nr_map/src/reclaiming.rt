//! The writer's calls that also give out the set which the slot had that they take, and the one that
//! gives out a set before.
ghost use Rattle.std.specs.Prelude.{◌≡◌, ◌<◌};
ghost use Rattle.nr_model.specs.Batches.{IsBatch};
ghost use Rattle.nr_model.specs.Rows.{IsRowSet};

use crate::reader_map::ReaderMap;
use crate::writer::Writer;
use nr_board::{FillFault, Reaped, Reclaimed, ReplaceFault, UpdateFault};
use nr_model::{Delta, Row, RowRoom};
use std::marker::Brand;

// A call takes the next slot that was never taken, and once there is none the first retired one that
// no reader holds. The set that stands in such a slot is one that no key has, nobody holds, and nobody
// can find: it is given out before the call's own set is put over it, unless it was reaped.
impl ReaderMap {
    ghost use Rattle.nr_board.specs.Reaping.{ReapsIn};
    ghost use Rattle.nr_board.specs.Reclaiming.{FillsReclaiming, ReplacesReclaiming, UpdatesReclaiming};

    /// As `fill_rows`, and writes the set that the taken slot had before into `had`, which stays as it
    /// is where the slot was never taken or was reaped, and where the fill is refused. Takes 2m + 1
    /// steps more for a set of m rows.
    pub fn fill_reclaiming<R: RowRoom>(
        &self,
        writer: &mut Writer,
        key: u32,
        number: u64,
        rows: &[Row],
        had: &mut R,
    ) -> Result<Reclaimed, FillFault>
        requires own { writer.old.table ≡ self.now }
        requires key { key < self.now.shape.keys }
        requires row_set { IsRowSet self.now.shape.rows rows.now }
        ensures { FillsReclaiming R.shows key number rows.now writer.old had.old writer.new had.new result }
    {
        self.board.fill_reclaiming::<Brand, R>(
            &mut writer.seat,
            &mut writer.lists,
            &mut writer.flags,
            key,
            number,
            rows,
            had,
        )
    }

    /// As `update_rows`, and writes the set that the taken slot had before into `had`, as
    /// `fill_reclaiming`. The set that the update replaces comes out once its own slot is taken.
    pub fn update_reclaiming<R: RowRoom>(
        &self,
        writer: &mut Writer,
        key: u32,
        deltas: &[Delta],
        had: &mut R,
    ) -> Result<Reclaimed, UpdateFault>
        requires own { writer.old.table ≡ self.now }
        requires key { key < self.now.shape.keys }
        requires batch { IsBatch deltas.now }
        ensures { UpdatesReclaiming R.shows self.now.shape.rows key deltas.now writer.old had.old writer.new had.new result }
    {
        self.board.update_reclaiming::<Brand, R>(
            &mut writer.seat,
            &mut writer.lists,
            &mut writer.flags,
            &mut writer.sorted,
            key,
            deltas,
            had,
        )
    }

    /// As `replace_rows`, and writes the set that the taken slot had before into `had`, as
    /// `fill_reclaiming`.
    pub fn replace_reclaiming<R: RowRoom>(
        &self,
        writer: &mut Writer,
        key: u32,
        rows: &[Row],
        had: &mut R,
    ) -> Result<Reclaimed, ReplaceFault>
        requires own { writer.old.table ≡ self.now }
        requires key { key < self.now.shape.keys }
        requires row_set { IsRowSet self.now.shape.rows rows.now }
        ensures { ReplacesReclaiming R.shows key rows.now writer.old had.old writer.new had.new result }
    {
        self.board.replace_reclaiming::<Brand, R>(
            &mut writer.seat,
            &mut writer.lists,
            &mut writer.flags,
            key,
            rows,
            had,
        )
    }

    /// Writes a retired set into `had` before its slot is taken again. It is the oldest set that waits
    /// and that no reader holds. Where readers have words, it is the oldest of those that no word was
    /// found to announce, and if there is none of these, all words are scanned once. If no set can be
    /// given out, `had` stays as it is. The slot stays retired, and a call that takes it later gives
    /// out nothing.
    ///
    /// Takes a step for each slot that it polls, which are those whose sets wait, oldest first, one
    /// for each word that it scans, and 2m + 1 for a set of m rows. Takes none if no set waits.
    pub fn reap<R: RowRoom>(&self, writer: &mut Writer, had: &mut R) -> Reaped
        requires own { writer.old.table ≡ self.now }
        ensures { ReapsIn R.shows writer.old had.old writer.new had.new result }
    {
        self.board.reap::<R>(&mut writer.seat, &mut writer.lists, &mut writer.flags, had)
    }
}
