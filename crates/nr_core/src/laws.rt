//! Laws over the definitions alone. Nothing runs here: each function's contract is the law.
//!
//! The first four are about lists of events. The others are the laws of the steps, which speak of
//! any list of callers, so that a map of running callers builds on them. Each is of one form
//! (`CanStep`): whatever the core state is, a caller of that role can make that operation, then the
//! core state stands again, and this is what the operation told the caller.
ghost use Rattle.nr_core.specs.Laws.{EverySchedule, SlotBound, RunGoesOn};
ghost use Rattle.nr_core.specs.InTime.{EntriesInTime};
ghost use Rattle.nr_core.specs.StepLaws.{ArriveLaw, AskLaw, LookUpLaw, HoldNamedLaw, ReadLaw, FindAgainLaw, DepartLaw, LookLaw, GoLaw, TryLaw, GiveUpLaw, LearnLaw, OpeningLaw, SeatLaw, NoteLaw};
ghost use Rattle.nr_core.specs.MarkLaws.{NoSlotByMarks, DoneByMarks, PutGoesOn};

/// Whatever the callers attempt, in any order: the history is legal, the words show its map, the
/// writer lists each key's ticket number, each slot is accounted for, a held slot is not written, and each
/// no-slot is justified.
pub fn every_schedule()
    ensures { EverySchedule }
{}

/// In one call at most as many polls as there are readers find their slot held; with a slot for
/// each key, each reader and one more, no call ends with no slot.
pub fn slot_bound()
    ensures { SlotBound }
{}

/// A run goes on by one event and keeps its shape, and the states that a story tells are the run's.
pub fn run_goes_on()
    ensures { RunGoesOn }
{}

/// Of two calls, of which one ends before the other begins, the first one's entry comes first: each
/// entry is told at a step of its call, and what comes later adds its entries behind.
pub fn entries_in_time()
    ensures { EntriesInTime }
{}

/// A reader that holds nothing arrives at a key, and its find is an entry.
pub fn arrives()
    ensures { ArriveLaw }
{}

/// A reader that holds nothing asks for a key, and its request is an entry.
pub fn asks()
    ensures { AskLaw }
{}

/// A reader that holds nothing looks a key up: a hole is found.
pub fn looks_up()
    ensures { LookUpLaw }
{}

/// A reader may hold the slot that a key names as if it had arrived there.
pub fn holds_named()
    ensures { HoldNamedLaw }
{}

/// A reader that holds a slot reads a word of its set.
pub fn reads()
    ensures { ReadLaw }
{}

/// A reader that holds a slot finds a key again, by one load, where the key names that slot.
pub fn finds_again()
    ensures { FindAgainLaw }
{}

/// A reader that holds a slot departs.
pub fn departs()
    ensures { DepartLaw }
{}

/// The writer begins a call by its look, which may be its end and an entry.
pub fn looks()
    ensures { LookLaw }
{}

/// The writer's call makes its next step, of whichever kind: a read, a poll, a put, a publish, an
/// unpublish or a withdraw. A call that ends with a reply is an entry.
pub fn goes()
    ensures { GoLaw }
{}

/// In its search the writer polls whichever retired slot it likes, and takes it where nobody holds it.
pub fn tries()
    ensures { TryLaw }
{}

/// The writer gives its search up, and the call ends without an entry.
pub fn gives_up()
    ensures { GiveUpLaw }
{}

/// Any caller loads a word, and only learns.
pub fn learns()
    ensures { LearnLaw }
{}

/// The words at opening are a core state of the writer and up to all readers.
pub fn opens()
    ensures { OpeningLaw }
{}

/// A reader that holds nothing joins, where there is room for one more.
pub fn seats()
    ensures { SeatLaw }
{}

/// A note joins.
pub fn notes()
    ensures { NoteLaw }
{}

/// Where every reader is gathered after each call, a call ends with no slot only where the filled
/// keys and the different pinned put numbers that no key has are all the slots.
pub fn no_slot_by_marks()
    ensures { NoSlotByMarks }
{}

/// A fill or an update is done only where they are fewer.
pub fn done_by_marks()
    ensures { DoneByMarks }
{}

/// With one entry more a history has put one set more, if that entry put one, and the number of the
/// set is then its key's.
pub fn put_goes_on()
    ensures { PutGoesOn }
{}
