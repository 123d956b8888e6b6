//! How a call takes a slot that nobody holds, puts its set there and names the slot at its key.
ghost use Rattle.std.specs.Prelude.{◌≡◌, ◌<◌, ◌≤◌, ◌+◌, ◌*◌, [], length, slice_set};
ghost use Rattle.nr_core.specs.States.{key_of};
ghost use Rattle.nr_core.specs.Writer.{moved_to};
ghost use Rattle.nr_core.specs.declared.places.Place.TheVariants.{Putting};
ghost use Rattle.nr_board.specs.Views.{desk_of, view_of};
ghost use Rattle.nr_board.specs.Callers.{Grows, token, IsSound};
ghost use Rattle.nr_board.specs.WriterSeats.{Settles, WritesAt};

use crate::answers::Reclaimed;
use crate::board::{Board, Seat};
use crate::only_proved::only_proved;
use crate::rule::BegunCall;
use crate::scans::ScanFlags;
use nr_core::{NoSlot, SlotLists};
use nr_model::{Row, RowRoom};
use nr_words::same_count;

/// A slot that a call took, and its departures.
#[derive(Clone, Copy)]
pub struct Taken {
    pub slot: u32,
    pub departures: u64,
}

impl Board {
    ghost use Rattle.nr_board.specs.Reclaiming.{PublishesReclaiming, TakesReclaiming};
    ghost use Rattle.nr_board.specs.Flags.{IsFlagged};
    ghost use Rattle.nr_board.specs.Searches.{PublishesFor, TakesFor};

    /// Takes a slot for the set of a call, puts the set there, and names the slot at the call's
    /// key; the slot that the key named before is retired. Takes the steps of the search, a put for
    /// each word of the set, and one swap.
    #[inline(always)]
    pub(crate) fn publish_set<G: BegunCall>(
        &self,
        seat: &mut Seat,
        lists: &mut SlotLists,
        flags: &mut ScanFlags,
        key: u32,
        rows: &[Row],
    ) -> Result<(), NoSlot>
        requires settles { Settles self.now G.call rows.now lists.old seat.old }
        requires flagged { IsFlagged self.now lists.old.retired (view_of seat.old).heard flags.old }
        requires call { key ≡ key_of G.call }
        requires key { key < self.now.shape.keys }
        ensures publishes { PublishesFor self.now G.call rows.now seat.old lists.old seat.new lists.new result }
        ensures flagged { IsFlagged self.now lists.new.retired (view_of seat.new).heard flags.new }
    {
        let taken = self.take_slot::<G>(seat, lists, flags, rows)?;
        self.put_rows::<G>(seat, rows, taken);
        let old_word = self.publish(seat, key, taken.slot, taken.departures);
        lists.retire(old_word);
        lists.set_reaped(taken.slot, false);
        flags.flag(taken.slot);
        Ok(())
    }

    // Takes a slot for the set of a call: the next one that was never taken, without a step, or
    // else a retired one that no reader holds.
    #[inline(always)]
    fn take_slot<G: BegunCall>(
        &self,
        seat: &mut Seat,
        lists: &mut SlotLists,
        flags: &mut ScanFlags,
        rows: &[Row],
    ) -> Result<Taken, NoSlot>
        requires settles { Settles self.now G.call rows.now lists.old seat.old }
        requires flagged { IsFlagged self.now lists.old.retired (view_of seat.old).heard flags.old }
        ensures takes { TakesFor self.now G.call rows.now seat.old lists.old seat.new lists.new result }
        ensures flagged { IsFlagged self.now lists.old.retired (view_of seat.new).heard flags.new }
    {
        if let Some(slot) = lists.take_fresh() {
            let departures = self.shape().first_count;
            return Ok(Taken { slot, departures });
        }
        self.take_retired::<G>(seat, lists, flags, rows)
    }

    // Where no reader has a word, a poll of each retired slot tells whether it is held.
    #[inline(always)]
    fn take_retired<G: BegunCall>(
        &self,
        seat: &mut Seat,
        lists: &mut SlotLists,
        flags: &mut ScanFlags,
        rows: &[Row],
    ) -> Result<Taken, NoSlot>
        requires settles { Settles self.now G.call rows.now lists.old seat.old }
        requires none_fresh { lists.old.slots ≤ lists.old.fresh }
        requires flagged { IsFlagged self.now lists.old.retired (view_of seat.old).heard flags.old }
        ensures takes { TakesFor self.now G.call rows.now seat.old lists.old seat.new lists.new result }
        ensures flagged { IsFlagged self.now lists.old.retired (view_of seat.new).heard flags.new }
    {
        if self.announcers() == 0 {
            return self.poll_retired::<G>(seat, lists, rows);
        }
        if lists.retired_len() == 0 {
            return Err(lists.counts());
        }
        self.search_retired(seat, lists, flags)
    }

    #[inline(always)]
    fn poll_retired<G: BegunCall>(
        &self,
        seat: &mut Seat,
        lists: &mut SlotLists,
        rows: &[Row],
    ) -> Result<Taken, NoSlot>
        requires settles { Settles self.now G.call rows.now lists.old seat.old }
        requires none_fresh { lists.old.slots ≤ lists.old.fresh }
        requires counted { self.now.announcers ≡ 0 }
        ensures { TakesFor self.now G.call rows.now seat.old lists.old seat.new lists.new result }
    {
        only_proved(rows);
        let Some(oldest) = lists.take_oldest() else {
            return Err(lists.counts());
        };
        let first = self.poll(seat, oldest.slot);
        if same_count(first, oldest.arrivals) {
            return Ok(Taken {
                slot: oldest.slot,
                departures: first,
            });
        }
        lists.put_back(oldest);
        for place in 1..lists.retired_len() {
            let entry = lists.retired_at(place);
            let departures = self.poll(seat, entry.slot);
            if same_count(departures, entry.arrivals) {
                lists.take_retired(place);
                return Ok(Taken {
                    slot: entry.slot,
                    departures,
                });
            }
        }
        Err(lists.counts())
    }

    /// As `publish_set`, and writes the set that the slot had before over the rows of `had`, if the
    /// slot was retired and not reaped, by one read of each of its words; else `had` stays as it is.
    #[inline(always)]
    pub(crate) fn publish_reclaiming<G: BegunCall, R: RowRoom>(
        &self,
        seat: &mut Seat,
        lists: &mut SlotLists,
        flags: &mut ScanFlags,
        key: u32,
        rows: &[Row],
        had: &mut R,
    ) -> Result<Reclaimed, NoSlot>
        requires settles { Settles self.now G.call rows.now lists.old seat.old }
        requires flagged { IsFlagged self.now lists.old.retired (view_of seat.old).heard flags.old }
        requires call { key ≡ key_of G.call }
        requires key { key < self.now.shape.keys }
        ensures publishes { PublishesReclaiming R.shows self.now G.call rows.now (record { seat = seat.old; lists = lists.old; room = had.old }) (record { seat = seat.new; lists = lists.new; room = had.new }) result }
        ensures flagged { IsFlagged self.now lists.new.retired (view_of seat.new).heard flags.new }
    {
        let (taken, given) = self.take_reclaiming::<G, R>(seat, lists, flags, rows, had)?;
        self.put_rows::<G>(seat, rows, taken);
        let named = self.publish(seat, key, taken.slot, taken.departures);
        lists.retire(named);
        let slot = taken.slot;
        lists.set_reaped(slot, false);
        flags.flag(slot);
        Ok(given)
    }

    // As `take_slot`. A slot that was never taken has no set to give, and a reaped one gave it.
    #[inline(always)]
    fn take_reclaiming<G: BegunCall, R: RowRoom>(
        &self,
        seat: &mut Seat,
        lists: &mut SlotLists,
        flags: &mut ScanFlags,
        rows: &[Row],
        had: &mut R,
    ) -> Result<(Taken, Reclaimed), NoSlot>
        requires settles { Settles self.now G.call rows.now lists.old seat.old }
        requires flagged { IsFlagged self.now lists.old.retired (view_of seat.old).heard flags.old }
        ensures takes { TakesReclaiming R.shows self.now G.call rows.now (record { seat = seat.old; lists = lists.old; room = had.old }) (record { seat = seat.new; lists = lists.new; room = had.new }) result }
        ensures flagged { IsFlagged self.now lists.old.retired (view_of seat.new).heard flags.new }
    {
        if let Some(slot) = lists.take_fresh() {
            let departures = self.shape().first_count;
            return Ok((Taken { slot, departures }, Reclaimed::Nothing));
        }
        let taken = self.take_retired::<G>(seat, lists, flags, rows)?;
        if lists.is_reaped(taken.slot) {
            return Ok((taken, Reclaimed::Nothing));
        }
        self.recall_set::<R>(seat, taken.slot, had);
        Ok((taken, Reclaimed::Set))
    }

    fn put_rows<G: BegunCall>(&self, seat: &mut Seat, rows: &[Row], taken: Taken)
        requires writer { WritesAt self.now (moved_to (desk_of (view_of seat.old).role) (Putting G.call rows.now taken.slot taken.departures 0)) seat.old }
        requires knows { IsSound (token seat.old) }
        ensures writer { WritesAt self.now (moved_to (desk_of (view_of seat.old).role) (Putting G.call rows.now taken.slot taken.departures (2 * length rows.now + 1))) seat.new }
        ensures grows { Grows (2 * length rows.now + 1) [] (token seat.old) (token seat.new) }
        ensures marks { (view_of seat.new).marks ≡ (view_of seat.old).marks }
        ensures heard { slice_set (view_of seat.new).heard taken.slot 0 ≡ slice_set (view_of seat.old).heard taken.slot 0 }
    {
        let begin = self.content(taken.slot);
        self.put(seat, begin, 0, rows.len() as u64);
        for (i, row) in rows.iter().enumerate() {
            let index = 2 * i as u64 + 1;
            self.put(seat, begin, index, row.a);
            self.put(seat, begin, index + 1, row.b);
        }
    }
}
