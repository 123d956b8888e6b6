//! Laws over the definitions alone. Nothing runs here: each function's contract is the law.
ghost use Rattle.nr_idmap.specs.IdHeard.{FindsIdHeard, FindsItsRows, PinsItsRows};
ghost use Rattle.nr_idmap.specs.IdLaws.{HeardFinds, NamedIsOwedOrResident, OneSet, OneUpquery, OwedIsNamed, ReadsAsIds, TidyBegins, TiedReadsAsIds, UnnamedIsAbsent};

use nr_model::RowRoom;

/// A legal history of keys whose writer puts tags, as its writer by id does, is one of the partial map
/// over ids, read by the tags, and both end with the same rows.
pub fn reads_as_ids()
    ensures { ReadsAsIds }
{}

/// In it an id is resident with one set, of one key.
pub fn one_set()
    ensures { OneSet }
{}

/// So is each beginning of such a history, as what a reader has seen whom the writer has heard.
pub fn tidy_begins()
    ensures { TidyBegins }
{}

/// What the writer by id has seen is, by its tags, a legal history of the partial map over ids.
pub fn tied_reads_as_ids()
    ensures { TiedReadsAsIds }
{}

/// A find by id of a reader whose history the writer has heard answers the rows that the id has at that
/// entry.
pub fn heard_finds()
    ensures { HeardFinds }
{}

/// A reader that hears a note whose maker had seen the name of an id's way, and a put of its rows, as one
/// that goes with the acknowledgement of a fill, finds the id by the rows of that put or of a later one,
/// unless the way was evicted or lost its name since. It may make other calls between.
pub fn finds_what_it_heard<R: RowRoom>()
    ensures { FindsIdHeard R.shows }
{
    nr_ids::laws::finds_what_it_heard();
    nr_map::laws::finds_what_it_heard();
}

/// Where that put left the way the id's rows, and no entry of the find's history evicted the way since, the
/// find was answered with rows, unless the way lost its name. So says the writer's history, once the writer
/// has heard of the find.
pub fn finds_its_rows<R: RowRoom>()
    ensures { FindsItsRows R.shows }
{
    finds_what_it_heard::<R>();
}

/// A hand that had seen a way's name, and that the way had the id's rows, is answered with rows, unless
/// the way was evicted or lost its name since.
pub fn pins_its_rows()
    ensures { PinsItsRows }
{
    nr_ids::laws::finds_what_it_heard();
}

/// An open upquery is for the id that is its way's name.
pub fn owed_is_named()
    ensures { OwedIsNamed }
{}

/// An id has one open upquery at most.
pub fn one_upquery()
    ensures { OneUpquery }
{}

/// An id that has a way has an open upquery or rows, and never both.
pub fn named_is_owed_or_resident()
    ensures { NamedIsOwedOrResident }
{}

/// An id that has no way has neither.
pub fn unnamed_is_absent()
    ensures { UnnamedIsAbsent }
{}
