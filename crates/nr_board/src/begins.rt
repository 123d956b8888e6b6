//! How a call of the writer begins that puts a set: by its look, and an update by a read of the set.
ghost use Rattle.std.specs.Prelude.{◌≡◌, ◌<◌};
ghost use Rattle.nr_model.specs.Batches.{IsBatch};
ghost use Rattle.nr_model.specs.Rows.{IsRowSet};
ghost use Rattle.nr_core.specs.declared.calls.WriterCall.TheVariants as writer;
ghost use Rattle.nr_board.specs.Begins.{BeginsFill, BeginsReplace, BeginsUpdate};
ghost use Rattle.nr_board.specs.Callers.{token};
ghost use Rattle.nr_board.specs.WriterSeats.{RestsAt};

use crate::answers::{FillFault, ReplaceFault, UpdateFault};
use crate::board::{Board, Seat};
use crate::only_proved::only_proved;
use crate::rule::BegunCall;
use nr_core::SlotLists;
use nr_model::{ApplyFault, Delta, Row, SortedRows};
use nr_words::parts;

impl Board {
    #[inline(always)]
    pub(crate) fn begin_fill<G: BegunCall>(
        &self,
        seat: &mut Seat,
        lists: &SlotLists,
        key: u32,
        number: u64,
        rows: &[Row],
    ) -> Result<(), FillFault>
        requires call { G.call ≡ writer.Fill key number rows.now }
        requires row_set { IsRowSet self.now.shape.rows rows.now }
        requires own { (token seat.old).table ≡ self.now }
        requires rests { RestsAt (token seat.old).table lists.now seat.old }
        requires key { key < self.now.shape.keys }
        ensures { BeginsFill self.now lists.now key number rows.now seat.old seat.new result }
    {
        only_proved(lists);
        only_proved(rows);
        let found = parts(self.look::<G>(seat, key));
        if found.filled {
            return Err(FillFault::Already);
        }
        if !found.ask {
            return Err(FillFault::NotAsked);
        }
        if u64::from(found.slot) != number {
            return Err(FillFault::Stale);
        }
        Ok(())
    }

    #[inline(always)]
    pub(crate) fn begin_update<G: BegunCall>(
        &self,
        seat: &mut Seat,
        lists: &SlotLists,
        sorted: &mut SortedRows,
        key: u32,
        deltas: &[Delta],
    ) -> Result<(), UpdateFault>
        requires call { G.call ≡ writer.Update key deltas.now }
        requires batch { IsBatch deltas.now }
        requires own { (token seat.old).table ≡ self.now }
        requires rests { RestsAt (token seat.old).table lists.now seat.old }
        requires key { key < self.now.shape.keys }
        ensures { BeginsUpdate self.now lists.now key deltas.now sorted.new seat.old seat.new result }
    {
        only_proved(lists);
        let found = parts(self.look::<G>(seat, key));
        if !found.filled {
            return Err(UpdateFault::Dropped);
        }
        self.read_set::<G, SortedRows>(seat, found.slot, sorted);
        match sorted.apply_deltas(deltas, self.rows()) {
            Ok(()) => Ok(()),
            Err(ApplyFault::NoRow) => Err(UpdateFault::NoRow),
            Err(ApplyFault::TooMany) => Err(UpdateFault::TooMany),
        }
    }

    #[inline(always)]
    pub(crate) fn begin_replace<G: BegunCall>(
        &self,
        seat: &mut Seat,
        lists: &SlotLists,
        key: u32,
        rows: &[Row],
    ) -> Result<(), ReplaceFault>
        requires call { G.call ≡ writer.Replace key rows.now }
        requires row_set { IsRowSet self.now.shape.rows rows.now }
        requires own { (token seat.old).table ≡ self.now }
        requires rests { RestsAt (token seat.old).table lists.now seat.old }
        requires key { key < self.now.shape.keys }
        ensures { BeginsReplace self.now lists.now key rows.now seat.old seat.new result }
    {
        only_proved(lists);
        only_proved(rows);
        if !parts(self.look::<G>(seat, key)).filled {
            return Err(ReplaceFault::Dropped);
        }
        Ok(())
    }
}
