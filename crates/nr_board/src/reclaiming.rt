//! The writer's calls that also give out the set which the slot that they take had before.
ghost use Rattle.std.specs.Prelude.{◌≡◌, ◌<◌};
ghost use Rattle.nr_model.specs.Batches.{IsBatch};
ghost use Rattle.nr_model.specs.Rows.{IsRowSet};
ghost use Rattle.nr_core.specs.declared.calls.WriterCall.TheVariants as writer;
ghost use Rattle.nr_board.specs.Callers.{token};
ghost use Rattle.nr_board.specs.Reclaiming.{FillsReclaiming, ReplacesReclaiming, UpdatesReclaiming};
ghost use Rattle.nr_board.specs.Flags.{IsFlagged};
ghost use Rattle.nr_board.specs.WriterSeats.{RestsAt};

use crate::answers::{FillFault, Reclaimed, ReplaceFault, UpdateFault};
use crate::board::{Board, Seat};
use crate::rule::BegunCall;
use crate::scans::ScanFlags;
use nr_core::SlotLists;
use nr_model::{Delta, Row, RowRoom, SortedRows};

impl Board {
    /// As `fill_key`, and between the search and the put reads the set of m rows that the slot had
    /// into `had`: 2m + 1 steps more. A slot that was never taken, or was reaped, has none to give
    /// (`Nothing`); then, and where the fill is refused, `had` stays as it was.
    pub fn fill_reclaiming<G: BegunCall, R: RowRoom>(
        &self,
        seat: &mut Seat,
        lists: &mut SlotLists,
        flags: &mut ScanFlags,
        key: u32,
        number: u64,
        rows: &[Row],
        had: &mut R,
    ) -> Result<Reclaimed, FillFault>
        requires call { G.call ≡ writer.Fill key number rows.now }
        requires row_set { IsRowSet self.now.shape.rows rows.now }
        requires own { (token seat.old).table ≡ self.now }
        requires rests { RestsAt (token seat.old).table lists.old seat.old }
        requires flagged { IsFlagged self.now lists.old.retired (token seat.old).heard flags.old }
        requires key { key < self.now.shape.keys }
        ensures rests { RestsAt (token seat.new).table lists.new seat.new }
        ensures flagged { IsFlagged self.now lists.new.retired (token seat.new).heard flags.new }
        ensures fills { FillsReclaiming R.shows key number rows.now (token seat.old) had.old (token seat.new) had.new result }
    {
        self.begin_fill::<G>(seat, lists, key, number, rows)?;
        match self.publish_reclaiming::<G, R>(seat, lists, flags, key, rows, had) {
            Ok(given) => Ok(given),
            Err(counts) => Err(FillFault::NoSlot(counts)),
        }
    }

    /// As `update_key`, and gives out what the slot had, as `fill_reclaiming`.
    pub fn update_reclaiming<G: BegunCall, R: RowRoom>(
        &self,
        seat: &mut Seat,
        lists: &mut SlotLists,
        flags: &mut ScanFlags,
        sorted: &mut SortedRows,
        key: u32,
        deltas: &[Delta],
        had: &mut R,
    ) -> Result<Reclaimed, UpdateFault>
        requires call { G.call ≡ writer.Update key deltas.now }
        requires batch { IsBatch deltas.now }
        requires own { (token seat.old).table ≡ self.now }
        requires rests { RestsAt (token seat.old).table lists.old seat.old }
        requires flagged { IsFlagged self.now lists.old.retired (token seat.old).heard flags.old }
        requires key { key < self.now.shape.keys }
        ensures rests { RestsAt (token seat.new).table lists.new seat.new }
        ensures flagged { IsFlagged self.now lists.new.retired (token seat.new).heard flags.new }
        ensures updates { UpdatesReclaiming R.shows self.now.shape.rows key deltas.now (token seat.old) had.old (token seat.new) had.new result }
    {
        self.begin_update::<G>(seat, lists, sorted, key, deltas)?;
        match self.publish_reclaiming::<G, R>(seat, lists, flags, key, sorted.as_slice(), had) {
            Ok(given) => Ok(given),
            Err(counts) => Err(UpdateFault::NoSlot(counts)),
        }
    }

    /// As `replace_key`, and gives out what the slot had, as `fill_reclaiming`.
    pub fn replace_reclaiming<G: BegunCall, R: RowRoom>(
        &self,
        seat: &mut Seat,
        lists: &mut SlotLists,
        flags: &mut ScanFlags,
        key: u32,
        rows: &[Row],
        had: &mut R,
    ) -> Result<Reclaimed, ReplaceFault>
        requires call { G.call ≡ writer.Replace key rows.now }
        requires row_set { IsRowSet self.now.shape.rows rows.now }
        requires own { (token seat.old).table ≡ self.now }
        requires rests { RestsAt (token seat.old).table lists.old seat.old }
        requires flagged { IsFlagged self.now lists.old.retired (token seat.old).heard flags.old }
        requires key { key < self.now.shape.keys }
        ensures rests { RestsAt (token seat.new).table lists.new seat.new }
        ensures flagged { IsFlagged self.now lists.new.retired (token seat.new).heard flags.new }
        ensures replaces { ReplacesReclaiming R.shows key rows.now (token seat.old) had.old (token seat.new) had.new result }
    {
        self.begin_replace::<G>(seat, lists, key, rows)?;
        match self.publish_reclaiming::<G, R>(seat, lists, flags, key, rows, had) {
            Ok(given) => Ok(given),
            Err(counts) => Err(ReplaceFault::NoSlot(counts)),
        }
    }
}
