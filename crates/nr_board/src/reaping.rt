//! How the writer gives out a retired set before its slot is taken again.
ghost use Rattle.std.specs.Prelude.{◌≡◌};
ghost use Rattle.nr_board.specs.Callers.{token};
ghost use Rattle.nr_board.specs.Flags.{IsFlagged};
ghost use Rattle.nr_board.specs.Reaping.{ReapsIn, SweepsFor, SweepsHeard};
ghost use Rattle.nr_board.specs.Views.{view_of};
ghost use Rattle.nr_board.specs.WriterSeats.{RestsAt};

use crate::answers::Reaped;
use crate::board::{Board, Seat};
use crate::scans::ScanFlags;
use nr_core::SlotLists;
use nr_model::RowRoom;
use nr_words::same_count;

/// What a sweep over the retired slots finds.
#[derive(Clone, Copy)]
pub enum Sweep {
    /// This slot's set waited, and nobody holds it.
    Free(u32),
    /// Each set that waits is held.
    Held,
    Nothing,
}

impl Board {
    /// Writes the oldest retired set that waits and that nobody holds over the rows of the caller's
    /// (`Set`): a poll of each set that waits, up to this one, and 2m + 1 reads for its m rows. The
    /// slot stays retired, and what takes it gives out no set of it. `Held` after the polls, where
    /// readers hold all that wait; `Nothing`, without a step, where none waits. Where readers have
    /// words, a set is polled only if all were heard not to announce it; if that finds none, the
    /// words are scanned, and what they don't announce is polled.
    pub fn reap<R: RowRoom>(
        &self,
        seat: &mut Seat,
        lists: &mut SlotLists,
        flags: &mut ScanFlags,
        had: &mut R,
    ) -> Reaped
        requires own { (token seat.old).table ≡ self.now }
        requires rests { RestsAt (token seat.old).table lists.old seat.old }
        requires flagged { IsFlagged self.now lists.old.retired (token seat.old).heard flags.old }
        ensures rests { RestsAt (token seat.new).table lists.new seat.new }
        ensures flagged { IsFlagged self.now lists.new.retired (token seat.new).heard flags.new }
        ensures reaps { ReapsIn R.shows (token seat.old) had.old (token seat.new) had.new result }
    {
        match self.sweep_heard(seat, lists, flags) {
            Sweep::Free(slot) => {
                lists.set_reaped(slot, true);
                self.recall_set::<R>(seat, slot, had);
                Reaped::Set
            }
            Sweep::Held => Reaped::Held,
            Sweep::Nothing => Reaped::Nothing,
        }
    }

    // A sweep, and where it is in vain and readers have words a scan and another one.
    fn sweep_heard(&self, seat: &mut Seat, lists: &SlotLists, flags: &mut ScanFlags) -> Sweep
        requires rests { RestsAt self.now lists.now seat.old }
        requires flagged { IsFlagged self.now lists.now.retired (view_of seat.old).heard flags.old }
        ensures own { seat.new.table_id ≡ seat.old.table_id }
        ensures sweeps { SweepsHeard lists.now seat.old seat.new result }
        ensures flagged { IsFlagged self.now lists.now.retired (view_of seat.new).heard flags.new }
    {
        let first = self.sweep(seat, lists, flags);
        if self.announcers() == 0 || !matches!(first, Sweep::Held) {
            return first;
        }
        self.scan_at_rest(seat, lists, flags);
        self.sweep(seat, lists, flags)
    }

    // Polls the retired slots whose sets wait and that were heard, oldest first, up to the first that
    // nobody holds.
    fn sweep(&self, seat: &mut Seat, lists: &SlotLists, flags: &ScanFlags) -> Sweep
        requires rests { RestsAt self.now lists.now seat.old }
        requires flagged { IsFlagged self.now lists.now.retired (view_of seat.old).heard flags.now }
        ensures own { seat.new.table_id ≡ seat.old.table_id }
        ensures sweeps { SweepsFor lists.now seat.old seat.new result }
    {
        let first = lists.passed();
        let mut waits = false;
        for place in first..lists.retired_len() {
            let entry = lists.retired_at(place);
            if !lists.is_reaped(entry.slot) {
                waits = true;
                if !self.is_flagged(flags, entry.slot) {
                    let departures = self.probe(seat, entry);
                    if same_count(departures, entry.arrivals) {
                        return Sweep::Free(entry.slot);
                    }
                }
            }
        }
        if waits { Sweep::Held } else { Sweep::Nothing }
    }
}
