//! Laws over the definitions alone. Nothing runs here: each function's contract is the law.
ghost use Rattle.nr_idserve.specs.IdApplied.{GetsIdWhatWasApplied};
ghost use Rattle.nr_idserve.specs.IdClaims.{EachClaimIsPosted};
ghost use Rattle.nr_idserve.specs.IdLedger.{EachUpqueryEndsOnce};

use crate::applied::IdMeasure;
use nr_model::RowRoom;

/// No claim is lost: those that a client was granted in a get, after the one that it kept, are what it
/// posted, in their order, and the one that it keeps then.
pub fn each_claim_is_posted<R: RowRoom>()
    ensures { EachClaimIsPosted R.shows }
{}

/// From the opening of a dataflow on, the claims that it took of the queue were answered in their order,
/// each once, but for the one that it keeps: each by an upquery, or as one that needs none. Each upquery so
/// opened was filled or withdrawn, or it is kept or under way; those are just the open ones, each is there
/// once, and no id has two. The fills that the writer has done are those of upqueries, one each, with the
/// rows that were given for it.
pub fn each_upquery_ends_once()
    ensures { EachUpqueryEndsOnce }
{
    nr_idmap::laws::one_upquery();
}

/// A client that waited until so much was applied, by when an id's way had its name and had been put, and
/// then gets the id, finds in the way the rows of that put or of a later one, or a hole where the way was
/// evicted since, in each of the get's finds, unless the way lost the name since. It may make other calls
/// between.
pub fn gets_what_was_applied<M: IdMeasure, R: RowRoom>()
    ensures { GetsIdWhatWasApplied M.reached R.shows }
{
    nr_idmap::laws::finds_what_it_heard::<R>();
}
