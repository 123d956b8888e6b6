//! Laws over the definitions alone. Nothing runs here: each function's contract is the law.
ghost use Rattle.nr_ids.specs.Laws.{AtItsPlaces, ClerkKnows, EachPlaceIsChosen, FindsWhatItHeard, FindsWhatItKnew, HintsTell, MarksTell, OneClaim, OneNaming, OneWay, SecondIsAnother, TurnCounts};

/// An id has at most one way.
pub fn one_way()
    ensures { OneWay }
{}

/// An id's way is one of its group, or of its second group.
pub fn at_its_places()
    ensures { AtItsPlaces }
{}

/// A way that has an id's name has the id's hint, which isn't 0.
pub fn hints_tell()
    ensures { HintsTell }
{}

/// An id's second group is another one, where there are two.
pub fn second_is_another()
    ensures { SecondIsAnother }
{}

/// A group's claim is granted once between two clearings.
pub fn one_claim()
    ensures { OneClaim }
{}

/// An id is named once for each absence: between two namings its first way lost its name.
pub fn one_naming()
    ensures { OneNaming }
{}

/// A group's turn is how often it was claimed and cleared.
pub fn turn_counts()
    ensures { TurnCounts }
{}

/// What the clerk knows of names is exact.
pub fn clerk_knows()
    ensures { ClerkKnows }
{}

/// A token that knows, as by a note, that a way has an id's name finds it there, unless the name was
/// taken since.
pub fn finds_what_it_knew()
    ensures { FindsWhatItKnew }
{}

/// So does one that heard a note whose maker knew that, unless the name was taken since the note.
pub fn finds_what_it_heard()
    ensures { FindsWhatItHeard }
{}

/// A way is marked exactly where it was marked since its mark was taken last.
pub fn marks_tell()
    ensures { MarksTell }
{}

/// Where no way of a group is marked meanwhile, eight choices come to each that had no mark, and sixteen to
/// every way.
pub fn each_place_is_chosen()
    ensures { EachPlaceIsChosen }
{}
