//! Laws over the definitions alone. Nothing runs here: each function's contract is the law.
ghost use Rattle.nr_map.specs.Answers.{FindsByCounts};
ghost use Rattle.nr_map.specs.ExactPlaces.{DoneMeansFewerInUse, NoSlotMeansAllInUse};
ghost use Rattle.nr_map.specs.Written.{FindsWhatItHeard, FindsWritten, HearsAllCalls, ReadsNoOlder};
ghost use Rattle.nr_map.specs.SlotBounds.{NoSlotIsRare, SearchesAreShort, RoomForFills, RoomForReplacements, RoomForUpdates};
ghost use Rattle.nr_map.specs.SlotCounts.{CountsAtNoSlot};
ghost use Rattle.nr_map.specs.Reclaims.{CancelLeaves, EvictionLeaves, GatheredStands, HandedOutOnce, LedgerStays, NobodyHoldsIt, NoSlotLeaves, OpeningBegins, QuietLeaves, ReapedOnce, StandsAfterReap};
ghost use Rattle.nr_map.specs.GivenBack.{EachSetComesOutOnce};
ghost use Rattle.nr_map.specs.Remains.{RestComesOutOnce};
ghost use Rattle.nr_map.specs.RowBounds.{RowsFitTheMap};
ghost use Rattle.nr_map.specs.Theorem.{Theorem};
ghost use Rattle.nr_map.specs.Rounds.{BeginningsMeet, CallsStay, EntriesAreCallers, RoundsTellAll, SendsOfAll, SendsOfAllKeys};

use nr_model::RowRoom;

/// What a caller of the map may rely on: each call is one entry of a legal history, which begins with all
/// that its caller had seen, and is answered as the partial map answers after the entries before it; a write
/// without a slot is none, and with slots enough there is no such write; who heard a note is answered after
/// all that its maker had seen; and each set that was put comes out once.
pub fn theorem<R: RowRoom>()
    ensures { Theorem R.shows }
{}

/// Of a map whose readers have no words, finds take the steps of the counted way: 2n + 3 for n rows, and
/// 1 for a hole.
#[tactic(auto, using(crate::proofs::Pinning::finds_by_counts_lem))]
pub fn finds_by_counts()
    ensures { FindsByCounts }
{}

/// A caller's calls stay in a history that goes on.
pub fn calls_stay()
    ensures { CallsStay }
{}

/// After one round of gathers over all readers, and before another, with no calls in between, the
/// writer's history has exactly the readers' calls. The second round shows it: each reader then
/// sees what the writer had.
#[tactic(auto, using(crate::proofs::Gathered::rounds_tell_all_lem))]
pub fn rounds_tell_all()
    ensures { RoundsTellAll }
{}

/// Such a history's entries are the callers', however they are counted.
#[tactic(auto, using(crate::proofs::Gathered::entries_are_callers_lem))]
pub fn entries_are_callers()
    ensures { EntriesAreCallers }
{}

/// All requests of a key that were answered `Send` are its fills and its cancels, and one more where
/// it is asked.
#[tactic(auto, using(crate::proofs::Gathered::sends_of_all_lem))]
pub fn sends_of_all()
    ensures { SendsOfAll }
{}

/// So over all keys the requests that were answered `Send` are the fills that were done and the
/// requests that were cancelled, and one more for each key that is asked.
#[tactic(auto, using(crate::proofs::AllKeys::sends_of_all_keys_lem))]
pub fn sends_of_all_keys()
    ensures { SendsOfAllKeys }
{}

/// Of two histories each of which begins with the other, both are the same.
#[tactic(auto, using(crate::proofs::AllKeys::beginnings_meet_lem))]
pub fn beginnings_meet()
    ensures { BeginningsMeet }
{}

/// Where no reader has a word of its own, and the writer knows how all readers are, and gathers them again after a call that found no
/// slot, the filled keys and the different pinned put numbers that no key has are all the slots.
pub fn no_slot_means_all_in_use()
    ensures { NoSlotMeansAllInUse }
{
    nr_core::laws::no_slot_by_marks();
}

/// Where it gathers them before and after a fill or an update that was done, they were fewer.
pub fn done_means_fewer_in_use()
    ensures { DoneMeansFewerInUse }
{
    nr_core::laws::done_by_marks();
}

/// A fill or an update that is done searches in few steps: where no reader has a word of its own, it
/// polls at most one slot more than there are readers.
pub fn searches_are_short()
    ensures { SearchesAreShort }
{}

/// One that finds no slot polls no more slots than there are readers, and `held` is at most that.
/// With a slot for each key, each reader and one more it never comes to that.
pub fn no_slot_is_rare()
    ensures { NoSlotIsRare }
{}

/// So no fill of such a map is answered `NoSlot`.
pub fn room_for_fills()
    ensures { RoomForFills }
{}

/// Nor is an update.
pub fn room_for_updates()
    ensures { RoomForUpdates }
{}

/// Nor is a replacement.
pub fn room_for_replacements()
    ensures { RoomForReplacements }
{}

/// After a call that was answered `NoSlot` `slot_counts` tells what the answer told, and that no
/// slot is free.
pub fn counts_at_no_slot()
    ensures { CountsAtNoSlot }
{}

/// A find that comes after a put of its key, in any legal history, has the rows of that put or of a
/// later one, and is a hole only where the key was evicted since.
#[tactic(auto, using(crate::proofs::Written::finds_written_lem))]
pub fn finds_written()
    ensures { FindsWritten }
{}

/// So a caller that hears a note whose maker had seen a put of a key, by its own fill or update or
/// by another note, finds the key's rows of that put or of a later one, or a hole where the key was
/// evicted since. It may make other calls between.
pub fn finds_what_it_heard()
    ensures { FindsWhatItHeard }
{}

/// A caller that hears a note reads nothing older than its maker had seen: the find's answer is that
/// of a history which begins with all of it. So a thread's second reader that met the first never
/// goes back behind what the first one read.
pub fn reads_no_older()
    ensures { ReadsNoOlder }
{}

/// A caller that hears a note has all calls that its maker had made.
pub fn hears_all_calls()
    ensures { HearsAllCalls }
{}

/// Each set that was put is let go at most once: by the call that takes its slot again, which gives
/// it out if it is a reclaiming one. Those that no call let go stand in the slots that were taken,
/// one in each. A caller carries the ledger along, from an opening on.
pub fn handed_out_once()
    ensures { HandedOutOnce }
{}

/// A reap lets go of the set that it gives out, and whatever takes its slot then lets go of none.
pub fn reaped_once()
    ensures { ReapedOnce }
{}

/// The ledger of a new map is empty.
pub fn opening_begins()
    ensures { OpeningBegins }
{}

/// An eviction leaves the ledger as it was.
pub fn eviction_leaves()
    ensures { EvictionLeaves }
{}

/// So does a cancel.
pub fn cancel_leaves()
    ensures { CancelLeaves }
{}

/// So do a find of the writer's and a call that is refused by its key.
pub fn quiet_leaves()
    ensures { QuietLeaves }
{}

/// So does a call that finds no slot.
pub fn no_slot_leaves()
    ensures { NoSlotLeaves }
{}

/// So does a step that leaves slots, put numbers and what was reaped, as those of a meeting.
pub fn ledger_stays()
    ensures { LedgerStays }
{}

/// Once the map was taken apart and all that was left has come out, each set that was put has come out
/// exactly once: by a call that let it go, or of what was left.
pub fn rest_comes_out_once<R: RowRoom>()
    ensures { RestComesOutOnce R.shows }
{}

/// So a caller that puts sets by reclaiming calls alone, reaps, and takes the map apart at its end gets
/// each set that it put exactly once, with its rows, and nothing else. It may make any other calls of
/// the writer's between, but for those that put a set and give none out.
pub fn each_set_comes_out_once<R: RowRoom>()
    ensures { EachSetComesOutOnce R.shows }
{}

/// The set that a gathered reader holds stands in a slot, and was not reaped.
pub fn gathered_stands()
    ensures { GatheredStands }
{}

/// So it stays over a reap that gives out another set. A reader whose own set comes out has let it go
/// since it was gathered.
pub fn stands_after_reap<R: RowRoom>()
    ensures { StandsAfterReap R.shows }
{}

/// A reader whose set stands so holds none that was let go.
pub fn nobody_holds_it()
    ensures { NobodyHoldsIt }
{}

/// In the history that a token has seen, each filled key has at most as many rows as a key of its
/// map may have, in ascending order: no fill brings more, and no update leaves more.
pub fn rows_fit_the_map()
    ensures { RowsFitTheMap }
{
    nr_model::laws::rows_stay_within_bound();
}
