//! What a step of the writer comes to, in few bytes.
ghost use Rattle.std.specs.Prelude.{◌≡◌};
ghost use Rattle.nr_core.specs.Outcomes.{step_of};

use crate::calls::{NoSlot, Step, WReply};
use nr_model::{Reply, RowSet};

/// The call goes on, or ends with that reply or with no slot. A `Step` has room for a whole set, so
/// that it is made once, as the answer that callers get; the set that a find found stands beside
/// this.
#[derive(Clone, Copy, Debug)]
pub enum Outcome {
    Going,
    NoSlot(NoSlot),
    Rows,
    Hole,
    Done,
    NotAsked,
    Stale,
    Already,
    Dropped,
    NoRow,
    TooMany,
    Evicted,
    Nothing,
    Cancelled,
    Worn,
}

impl Outcome {
    /// The answer, where the set that a find found is that one.
    #[inline(always)]
    pub fn step(self, found: &RowSet) -> Step
        ensures { result ≡ step_of found.now self }
    {
        let reply = match self {
            Outcome::Going => return Step::Going,
            Outcome::NoSlot(counts) => return Step::Ended(WReply::NoSlot(counts)),
            Outcome::Rows => Reply::Rows(*found),
            Outcome::Hole => Reply::Hole,
            Outcome::Done => Reply::Done,
            Outcome::NotAsked => Reply::NotAsked,
            Outcome::Stale => Reply::Stale,
            Outcome::Already => Reply::Already,
            Outcome::Dropped => Reply::Dropped,
            Outcome::NoRow => Reply::NoRow,
            Outcome::TooMany => Reply::TooMany,
            Outcome::Evicted => Reply::Evicted,
            Outcome::Nothing => Reply::Nothing,
            Outcome::Cancelled => Reply::Cancelled,
            Outcome::Worn => Reply::Worn,
        };
        Step::Ended(WReply::Reply(reply))
    }
}
