//! Laws over the definitions alone. Nothing runs here: each function's contract is the law.
ghost use Rattle.nr_serve.specs.Applied.{GetsWhatWasApplied};
ghost use Rattle.nr_serve.specs.Heard.{GetsWhatItHeard};
ghost use Rattle.nr_serve.specs.Ledger.{EachTriggerEndsOnce};
ghost use Rattle.nr_serve.specs.Requests.{CancelledIsStale, OneAtATime};

use crate::applied::Measure;
use crate::source::FallibleSource;

/// A client that hears a note whose maker had seen a put of a key, and then gets the key, finds the
/// rows of that put or of a later one in each of the get's finds, or a hole where the key was evicted
/// since. It may make other calls between.
pub fn gets_what_it_heard()
    ensures { GetsWhatItHeard }
{
    nr_map::laws::finds_written();
}

/// A client that waited until so much was applied, and then gets a key that had been put by then, finds
/// the rows of that put or of a later one in each of the get's finds, or a hole where the key was evicted
/// since.
pub fn gets_what_was_applied<M: Measure>()
    ensures { GetsWhatWasApplied M.reached }
{
    gets_what_it_heard();
}

/// From the opening of a dataflow on, each trigger that was taken was filled, passed or failed, or it is
/// kept, or is under way, as often as it was taken; and the fills that its writer has done are those
/// of the triggers that were filled, one each, with the rows that were given for them.
pub fn each_trigger_ends_once<S: FallibleSource>()
    ensures { EachTriggerEndsOnce S.gives S.fails }
{}

/// A key has one request under way at most: between two that are sent the first is filled or cancelled.
pub fn one_request_at_a_time()
    ensures { OneAtATime }
{
    nr_model::laws::sends_are_answered();
    nr_model::laws::legal_begins();
}

/// Once a request was cancelled, rows that come for it, or for an earlier one, never fill its key.
pub fn cancelled_is_stale()
    ensures { CancelledIsStale }
{
    nr_model::laws::numbers_count_cancels();
    nr_model::laws::answers_fit_their_requests();
    nr_model::laws::legal_begins();
}
