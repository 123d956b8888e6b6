//! How a writer of a map whose readers have words searches its retired slots.
ghost use Rattle.std.specs.Prelude.{◌≡◌, ◌<◌, length};
ghost use Rattle.nr_board.specs.Callers.{IsSound, token};
ghost use Rattle.nr_board.specs.Flags.{Flagged};
ghost use Rattle.nr_board.specs.Passes.{PassesFor};
ghost use Rattle.nr_board.specs.Searches.{SearchesFor};
ghost use Rattle.nr_board.specs.SearchSeats.{SearchesIn};
ghost use Rattle.nr_board.specs.Views.{view_of};

use crate::board::{Board, Seat};
use crate::publish::Taken;
use crate::scans::ScanFlags;
use nr_core::{NoSlot, SlotLists};
use nr_words::same_count;

impl Board {
    /// Takes a retired slot that nobody holds, where readers have words: a pass over the slots that the
    /// last scan heard, and if they are all held a scan of the words and another pass. A search that
    /// takes none ends with a load.
    pub(crate) fn search_retired(
        &self,
        seat: &mut Seat,
        lists: &mut SlotLists,
        flags: &mut ScanFlags,
    ) -> Result<Taken, NoSlot>
        requires search { SearchesIn self.now lists.old seat.old }
        requires knows { IsSound (token seat.old) }
        requires waits { 0 < length lists.old.retired }
        requires some_words { 0 < self.now.announcers }
        requires flagged { Flagged self.now lists.old.retired (view_of seat.old).heard flags.old }
        ensures searches { SearchesFor self.now seat.old lists.old seat.new lists.new result }
        ensures flagged { Flagged self.now lists.old.retired (view_of seat.new).heard flags.new }
    {
        if let Some(taken) = self.pass(seat, lists, flags) {
            return Ok(taken);
        }
        self.scan_words(seat, lists, flags);
        if let Some(taken) = self.pass(seat, lists, flags) {
            return Ok(taken);
        }
        self.give_up(seat);
        Err(lists.counts())
    }

    // Polls the retired slots that have no flag, oldest first, up to the first that nobody holds.
    fn pass(&self, seat: &mut Seat, lists: &mut SlotLists, flags: &ScanFlags) -> Option<Taken>
        requires search { SearchesIn self.now lists.old seat.old }
        requires knows { IsSound (token seat.old) }
        requires flagged { Flagged self.now lists.old.retired (view_of seat.old).heard flags.now }
        ensures { PassesFor self.now seat.old lists.old seat.new lists.new result }
    {
        for place in 0..lists.retired_len() {
            let entry = lists.retired_at(place);
            if !flags.is_flagged(entry.slot) {
                let departures = self.try_slot(seat, entry);
                if same_count(departures, entry.arrivals) {
                    lists.take_retired(place);
                    return Some(Taken {
                        slot: entry.slot,
                        departures,
                    });
                }
            }
        }
        None
    }
}
