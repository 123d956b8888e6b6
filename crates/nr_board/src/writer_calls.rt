//! The writer's calls, as its seat makes them. A call has up to five parts, in this order: it looks,
//! reads, searches for a slot, puts a set there, and publishes that slot. Its last step is its
//! linearization point; a call that finds no slot has none, and adds no entry.
ghost use Rattle.std.specs.Prelude.{◌≡◌, ◌<◌};
ghost use Rattle.nr_model.specs.Batches.{IsBatch};
ghost use Rattle.nr_model.specs.Rows.{IsRowSet};
ghost use Rattle.nr_core.specs.declared.calls.WriterCall.TheVariants as writer;
ghost use Rattle.nr_board.specs.Callers.{token};
ghost use Rattle.nr_board.specs.Flags.{IsFlagged};
ghost use Rattle.nr_board.specs.WriterSeats.{RestsAt};

use crate::answers::{Cancel, Evict, FillFault, Found, ReplaceFault, UpdateFault};
use crate::board::{Board, Seat};
use crate::only_proved::only_proved;
use crate::rule::BegunCall;
use crate::scans::ScanFlags;
use nr_core::SlotLists;
use nr_model::{Delta, LAST_NUMBER, Row, RowRoom, SortedRows};
use nr_words::parts;

impl Board {
    ghost use Rattle.nr_board.specs.WriterAnswers.{LooksIn, FillsKey, UpdatesKey, ReplacesKey, EvictsKey, CancelsKey};

    /// The writer's find: loads the key's word, which ends the call at a hole, after 1 step; and
    /// where it is filled the number of rows and the n rows of the slot that it names, 2n + 2 steps
    /// in all. No arrival is counted, since nobody but the writer changes a slot.
    pub fn look_up<G: BegunCall, R: RowRoom>(
        &self,
        seat: &mut Seat,
        lists: &SlotLists,
        key: u32,
        rows: &mut R,
    ) -> Found
        requires call { G.call ≡ writer.Find key }
        requires own { (token seat.old).table ≡ self.now }
        requires rests { RestsAt (token seat.old).table lists.now seat.old }
        requires key { key < self.now.shape.keys }
        ensures rests { RestsAt (token seat.new).table lists.now seat.new }
        ensures looks { LooksIn R.shows key (token seat.old) rows.old (token seat.new) rows.new result }
    {
        only_proved(lists);
        let found = parts(self.look::<G>(seat, key));
        if !found.filled {
            return Found::Hole;
        }
        self.read_set::<G, R>(seat, found.slot, rows);
        Found::Rows
    }

    /// Answers a request with n rows. The look, a load of the key's word, ends the call where the
    /// key is a hole (`NotAsked`), filled (`Already`), or asked by another ticket number (`Stale`).
    /// The search takes a slot that was never taken, without a step; else it polls the retired ones,
    /// oldest first, for one whose departures are its arrivals, so that nobody holds it. Where there
    /// is none (`NoSlot`) nothing has changed. The put stores the number of rows and the rows there,
    /// where no reader can come yet. The publication is one swap of the key's word: it names the
    /// slot, with arrivals that begin at the slot's departures. 2n + 3 steps and the polls.
    pub fn fill_key<G: BegunCall>(
        &self,
        seat: &mut Seat,
        lists: &mut SlotLists,
        flags: &mut ScanFlags,
        key: u32,
        number: u64,
        rows: &[Row],
    ) -> Result<(), FillFault>
        requires call { G.call ≡ writer.Fill key number rows.now }
        requires row_set { IsRowSet self.now.shape.rows rows.now }
        requires own { (token seat.old).table ≡ self.now }
        requires rests { RestsAt (token seat.old).table lists.old seat.old }
        requires flagged { IsFlagged self.now lists.old.retired (token seat.old).heard flags.old }
        requires key { key < self.now.shape.keys }
        ensures rests { RestsAt (token seat.new).table lists.new seat.new }
        ensures flagged { IsFlagged self.now lists.new.retired (token seat.new).heard flags.new }
        ensures fills { FillsKey key number rows.now (token seat.old) (token seat.new) result }
    {
        self.begin_fill::<G>(seat, lists, key, number, rows)?;
        if let Err(counts) = self.publish_set::<G>(seat, lists, flags, key, rows) {
            return Err(FillFault::NoSlot(counts));
        }
        Ok(())
    }

    /// Changes the set of a filled key by a batch. The look ends the call at any other key
    /// (`Dropped`). It reads the o rows of the slot that the key's word names into `sorted`, where
    /// readers see none of it, and applies the batch to this copy, which ends the call where a row
    /// isn't there (`NoRow`) or too many would be left (`TooMany`). It searches, puts the n rows
    /// that are left, and publishes, as a fill does. What the swap took out says how many readers
    /// arrived at the old slot, a count that is final: with it the slot is retired. 2o + 2n + 4
    /// steps and the polls.
    pub fn update_key<G: BegunCall>(
        &self,
        seat: &mut Seat,
        lists: &mut SlotLists,
        flags: &mut ScanFlags,
        sorted: &mut SortedRows,
        key: u32,
        deltas: &[Delta],
    ) -> Result<(), UpdateFault>
        requires call { G.call ≡ writer.Update key deltas.now }
        requires batch { IsBatch deltas.now }
        requires own { (token seat.old).table ≡ self.now }
        requires rests { RestsAt (token seat.old).table lists.old seat.old }
        requires flagged { IsFlagged self.now lists.old.retired (token seat.old).heard flags.old }
        requires key { key < self.now.shape.keys }
        ensures rests { RestsAt (token seat.new).table lists.new seat.new }
        ensures flagged { IsFlagged self.now lists.new.retired (token seat.new).heard flags.new }
        ensures updates { UpdatesKey self.now.shape.rows key deltas.now (token seat.old) (token seat.new) result }
    {
        self.begin_update::<G>(seat, lists, sorted, key, deltas)?;
        if let Err(counts) = self.publish_set::<G>(seat, lists, flags, key, sorted.as_slice()) {
            return Err(UpdateFault::NoSlot(counts));
        }
        Ok(())
    }

    /// Puts n rows in place of the set that a filled key has, as an update does, but reads nothing
    /// of it: the look (`Dropped` where the key isn't filled), the search, the put and the
    /// publication, 2n + 3 steps and the polls.
    pub fn replace_key<G: BegunCall>(
        &self,
        seat: &mut Seat,
        lists: &mut SlotLists,
        flags: &mut ScanFlags,
        key: u32,
        rows: &[Row],
    ) -> Result<(), ReplaceFault>
        requires call { G.call ≡ writer.Replace key rows.now }
        requires row_set { IsRowSet self.now.shape.rows rows.now }
        requires own { (token seat.old).table ≡ self.now }
        requires rests { RestsAt (token seat.old).table lists.old seat.old }
        requires flagged { IsFlagged self.now lists.old.retired (token seat.old).heard flags.old }
        requires key { key < self.now.shape.keys }
        ensures rests { RestsAt (token seat.new).table lists.new seat.new }
        ensures flagged { IsFlagged self.now lists.new.retired (token seat.new).heard flags.new }
        ensures replaces { ReplacesKey key rows.now (token seat.old) (token seat.new) result }
    {
        self.begin_replace::<G>(seat, lists, key, rows)?;
        if let Err(counts) = self.publish_set::<G>(seat, lists, flags, key, rows) {
            return Err(ReplaceFault::NoSlot(counts));
        }
        Ok(())
    }

    /// Makes a filled key a hole. The look ends the call at any other key (`Nothing`). One swap puts
    /// in the word of a hole with the key's ticket number, which a filled key's word has no room for
    /// and the writer's list keeps. What it took out says which slot is retired, and how many
    /// readers have arrived there. 2 steps.
    pub fn evict_key<G: BegunCall>(&self, seat: &mut Seat, lists: &mut SlotLists, key: u32) -> Evict
        requires call { G.call ≡ writer.Evict key }
        requires own { (token seat.old).table ≡ self.now }
        requires rests { RestsAt (token seat.old).table lists.old seat.old }
        requires key { key < self.now.shape.keys }
        ensures rests { RestsAt (token seat.new).table lists.new seat.new }
        ensures evicts { EvictsKey key (token seat.old) (token seat.new) result }
    {
        let found = parts(self.look::<G>(seat, key));
        if !found.filled {
            return Evict::Nothing;
        }
        let old_word = self.unpublish(seat, key, lists.number(key));
        lists.retire(old_word);
        Evict::Evicted
    }

    /// Takes a request back. The look ends the call where the key has no request (`Nothing`), or one
    /// with the last ticket number (`Worn`). One swap puts in a hole whose ticket number is one
    /// higher, so no reader sees the flag cleared without the next number, and a fill by the old one
    /// is stale. What the swap takes out is of no use: arrivals at a key that isn't filled count
    /// nothing. 2 steps.
    pub fn cancel_key<G: BegunCall>(
        &self,
        seat: &mut Seat,
        lists: &mut SlotLists,
        key: u32,
    ) -> Cancel
        requires call { G.call ≡ writer.Cancel key }
        requires own { (token seat.old).table ≡ self.now }
        requires rests { RestsAt (token seat.old).table lists.old seat.old }
        requires key { key < self.now.shape.keys }
        ensures rests { RestsAt (token seat.new).table lists.new seat.new }
        ensures cancels { CancelsKey key (token seat.old) (token seat.new) result }
    {
        let found = parts(self.look::<G>(seat, key));
        if found.filled || !found.ask {
            return Cancel::Nothing;
        }
        if u64::from(found.slot) >= LAST_NUMBER {
            return Cancel::Worn;
        }
        let next = lists.number(key) + 1;
        self.withdraw(seat, key, next);
        lists.renumber(key, next);
        Cancel::Cancelled
    }
}
