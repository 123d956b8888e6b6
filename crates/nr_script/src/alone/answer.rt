//! What a call is answered.
use nr_model::RowSet;
use std::marker::Model;

/// What an answer says. A set isn't in it: it lies where the call wrote it.
#[derive(Drop)]
pub enum Said<'a> {
    /// The pin stands, or has ended.
    Ok,
    /// The map's reply is those rows.
    Rows(&'a RowSet),
    /// From here on the map's reply of the same name.
    Hole,
    Send(u64),
    Waiting,
    Filled,
    Done,
    NotAsked,
    Stale,
    Already,
    Dropped,
    NoRow,
    TooMany,
    Evicted,
    Nothing,
    Cancelled,
    Worn,
    /// The key doesn't have the set that the reader has pinned.
    Other,
    /// A set would be put, and each slot has the set of a key or one that is still pinned.
    NoSlot,
}

/// The answer to a call that isn't refused.
#[derive(Drop)]
pub struct Answer<'a> {
    pub(crate) said: Said<'a>,
}

impl<'a> Model for Answer<'a> {
    ghost use Rattle.nr_script.specs.Answers.{Answer};

    ghost Value = { Answer };

    ghost use Rattle.nr_script.specs.Said.{answer_said};

    ghost view = { λ answer. answer_said answer.said };
}

impl<'a> Answer<'a> {
    ghost use Rattle.std.specs.Prelude.{◌≡◌};
    ghost use Rattle.nr_script.specs.Answers as answers;
    ghost use Rattle.nr_script.specs.Said.{answer_said};

    /// The answer to a call of which nothing more is to be said.
    pub fn ok() -> Answer<'a>
        ensures { result ≡ answers.Ok }
    {
        Answer { said: Said::Ok }
    }

    /// What the answer says.
    pub fn said(&self) -> &Said<'a>
        ensures { answer_said result.now ≡ self.now }
    {
        &self.said
    }
}

/// Why a reader's call is refused.
#[derive(Clone, Copy, Debug, PartialEq, Eq)]
pub enum PinRefusal {
    /// The reader has a pin.
    Holding,
    /// The reader has none.
    NotHolding,
}
