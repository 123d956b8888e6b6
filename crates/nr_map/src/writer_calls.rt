//! The writer's calls.
ghost use Rattle.std.specs.Prelude.{◌≡◌, ◌<◌, ◌≤◌, length};
ghost use Rattle.nr_model.specs.Batches.{IsBatch};
ghost use Rattle.nr_model.specs.Rows.{IsRowSet};

use crate::reader_map::ReaderMap;
use crate::writer::Writer;
use nr_board::{Evict, FillFault, Found, ReplaceFault, UpdateFault};
use nr_model::{Batch, Delta, Row, RowRoom, RowSet};
use std::marker::Brand;

// A writer's type says that it stands between two calls, and in the midst of one it doesn't. So each
// public call lends the writer's seat and slots, one by one, to the call as its seat makes it.
impl ReaderMap {
    ghost use Rattle.nr_board.specs.declared.answers.Found.TheVariants as found;
    ghost use Rattle.nr_board.specs.WriterAnswers.{LooksAt, LooksIn, FillsKey, UpdatesKey, ReplacesKey, EvictsKey};

    /// A find of the writer's own: writes the key's rows into the caller's set, which stays as it
    /// is where the key is a hole. Takes 1 step for a hole, and 2n + 2 for n rows.
    #[tactic(auto, using(crate::proofs::SetRooms::looks_set, crate::proofs::SetRooms::looks_row_set))]
    pub fn look(&self, writer: &mut Writer, key: u32, rows: &mut RowSet) -> Found
        requires own { writer.old.table ≡ self.now }
        requires key { key < self.now.shape.keys }
        ensures looks { LooksAt key writer.old rows.old writer.new rows.new result }
        ensures row_set { result ≡ found.Rows → IsRowSet writer.old.table.shape.rows rows.new }
    {
        self.look_into(writer, key, rows)
    }

    /// As `look`, with any room for rows in place of a set.
    pub fn look_into<R: RowRoom>(&self, writer: &mut Writer, key: u32, rows: &mut R) -> Found
        requires own { writer.old.table ≡ self.now }
        requires key { key < self.now.shape.keys }
        ensures { LooksIn R.shows key writer.old rows.old writer.new rows.new result }
    {
        self.board
            .look_up::<Brand, R>(&mut writer.seat, &writer.lists, key, rows)
    }

    /// Fills a key that was asked for, by its request's ticket number, with at most `rows()` rows.
    /// Refused where nobody asked, where the key is filled, where its request has another ticket
    /// number (`Stale`), and where it needs a slot and each one is a filled key's or held by a
    /// reader. Takes 1 step where it is refused by the key, 2n + 3 and the polls for n rows where
    /// it is done, and 1 and a poll of each retired slot where there is none.
    pub fn fill(
        &self,
        writer: &mut Writer,
        key: u32,
        number: u64,
        rows: &RowSet,
    ) -> Result<(), FillFault>
        requires own { writer.old.table ≡ self.now }
        requires key { key < self.now.shape.keys }
        requires few { length rows.now ≤ self.now.shape.rows }
        ensures { FillsKey key number rows.now writer.old writer.new result }
    {
        self.fill_rows(writer, key, number, rows.as_slice())
    }

    /// As `fill`, with at most `rows()` rows in ascending order in place of a set, so that rows
    /// which stand in order somewhere need no copy.
    pub fn fill_rows(
        &self,
        writer: &mut Writer,
        key: u32,
        number: u64,
        rows: &[Row],
    ) -> Result<(), FillFault>
        requires own { writer.old.table ≡ self.now }
        requires key { key < self.now.shape.keys }
        requires row_set { IsRowSet self.now.shape.rows rows.now }
        ensures { FillsKey key number rows.now writer.old writer.new result }
    {
        self.board.fill_key::<Brand>(
            &mut writer.seat,
            &mut writer.lists,
            &mut writer.flags,
            key,
            number,
            rows,
        )
    }

    /// Applies a batch to the set of a filled key, whole or not at all. Refused where the key is not
    /// filled, where the batch takes away a row that is not there, where too many rows would be
    /// left, and where it needs a slot and each one is a filled key's or held by a reader. Takes 1
    /// step where the key is not filled; with o rows before and n after, 2o + 2 where the batch is
    /// refused, 2o + 2n + 4 and the polls where it is done, and 2o + 2 and a poll of each retired
    /// slot where there is none.
    pub fn update(&self, writer: &mut Writer, key: u32, batch: &Batch) -> Result<(), UpdateFault>
        requires own { writer.old.table ≡ self.now }
        requires key { key < self.now.shape.keys }
        ensures { UpdatesKey self.now.shape.rows key batch.now writer.old writer.new result }
    {
        self.update_rows(writer, key, batch.as_slice())
    }

    /// As `update`, with one to sixty-four signed rows in place of a batch, so that those which
    /// stand somewhere need no copy.
    pub fn update_rows(
        &self,
        writer: &mut Writer,
        key: u32,
        deltas: &[Delta],
    ) -> Result<(), UpdateFault>
        requires own { writer.old.table ≡ self.now }
        requires key { key < self.now.shape.keys }
        requires batch { IsBatch deltas.now }
        ensures { UpdatesKey self.now.shape.rows key deltas.now writer.old writer.new result }
    {
        self.board.update_key::<Brand>(
            &mut writer.seat,
            &mut writer.lists,
            &mut writer.flags,
            &mut writer.sorted,
            key,
            deltas,
        )
    }

    /// Puts a set of at most `rows()` rows whole in place of a filled key's, by one publication,
    /// without a read of the old one. Refused where the key is not filled, and where it needs a slot
    /// and each one is a filled key's or held by a reader. Takes 1 step where the key is not filled,
    /// 2n + 3 and the polls for n rows where it is done, and 1 and a poll of each retired slot where
    /// there is none.
    pub fn replace(&self, writer: &mut Writer, key: u32, rows: &RowSet) -> Result<(), ReplaceFault>
        requires own { writer.old.table ≡ self.now }
        requires key { key < self.now.shape.keys }
        requires few { length rows.now ≤ self.now.shape.rows }
        ensures { ReplacesKey key rows.now writer.old writer.new result }
    {
        self.replace_rows(writer, key, rows.as_slice())
    }

    /// As `replace`, with at most `rows()` rows in ascending order in place of a set.
    pub fn replace_rows(
        &self,
        writer: &mut Writer,
        key: u32,
        rows: &[Row],
    ) -> Result<(), ReplaceFault>
        requires own { writer.old.table ≡ self.now }
        requires key { key < self.now.shape.keys }
        requires row_set { IsRowSet self.now.shape.rows rows.now }
        ensures { ReplacesKey key rows.now writer.old writer.new result }
    {
        self.board.replace_key::<Brand>(
            &mut writer.seat,
            &mut writer.lists,
            &mut writer.flags,
            key,
            rows,
        )
    }

    /// Makes a filled key a hole, which keeps its ticket number. Takes 2 steps, and 1 where the key
    /// is not filled: one that is asked for stays so. Where the rows that are under way may be out of
    /// date, cancel first.
    pub fn evict(&self, writer: &mut Writer, key: u32) -> Evict
        requires own { writer.old.table ≡ self.now }
        requires key { key < self.now.shape.keys }
        ensures { EvictsKey key writer.old writer.new result }
    {
        self.board
            .evict_key::<Brand>(&mut writer.seat, &mut writer.lists, key)
    }
}
