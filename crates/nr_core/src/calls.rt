//! What callers ask of the machine, and what it answers.
ghost use Rattle.std.specs.Prelude.{ℕ, ◌≡◌};
ghost use Rattle.nr_model.specs.Maps.{SetFits};
ghost use Rattle.nr_core.specs.States.{key_of};
ghost use Rattle.nr_core.specs.Story.{call_of};
ghost use Rattle.nr_core.specs.Given.{IsGivenCall};

use nr_model::{Batch, Reply, RowSet};

/// A call of the writer.
#[derive(Clone, Copy, Debug)]
pub enum WriterCall {
    Find(u32),
    /// The number is that of the request which the rows answer.
    Fill(u32, u64, RowSet),
    Update(u32, Batch),
    /// The set is put whole in place of the key's rows.
    Replace(u32, RowSet),
    Evict(u32),
    /// The key's request is taken back.
    Cancel(u32),
}

/// Why a step is refused. A refused step changes nothing.
#[derive(Clone, Copy, Debug, PartialEq, Eq)]
pub enum Refusal {
    /// An arrive or a request of a reader that holds a slot.
    Holding,
    /// A read or a departure of a reader that holds none.
    NotHolding,
    /// A start while the writer is in a call.
    Busy,
    /// A step of the writer's call while it is in none.
    NotBusy,
    /// No such reader or key, or no word of the set at that index.
    OutOfRange,
}

/// What an arrive found at its key.
#[derive(Clone, Copy, Debug, PartialEq, Eq)]
pub enum Arrived {
    Held,
    Hole,
}

/// The answer to a request. One that is to be sent has the key's ticket number, by which it is filled.
#[derive(Clone, Copy, Debug, PartialEq, Eq)]
pub enum AskReply {
    Send(u64),
    Waiting,
    Filled,
}

/// There was no slot: this many keys are filled, and this many slots are retired.
#[derive(Clone, Copy, Debug, PartialEq, Eq)]
pub struct NoSlot {
    pub live: u32,
    pub held: u32,
}

/// How a call of the writer ends.
#[derive(Clone, Copy, Debug)]
pub enum WReply {
    Reply(Reply),
    NoSlot(NoSlot),
}

/// The writer's call goes on, or has ended.
#[derive(Clone, Copy, Debug)]
pub enum Step {
    Going,
    Ended(WReply),
}

impl WriterCall {
    /// The key that the call is about.
    pub fn key(&self) -> u32
        ensures { result ≡ key_of self.now }
    {
        match self {
            WriterCall::Find(key) => *key,
            WriterCall::Fill(key, _, _) => *key,
            WriterCall::Update(key, _) => *key,
            WriterCall::Replace(key, _) => *key,
            WriterCall::Evict(key) => *key,
            WriterCall::Cancel(key) => *key,
        }
    }

    /// Tells a proof that the set which a call brings is a row set, as its type says of it, within
    /// any bound that it fits. Nothing else comes of the call.
    pub(crate) fn given(&self)
        ensures { (bound : ℕ) → SetFits bound (call_of self.now) → IsGivenCall bound self.now }
    {
        if let WriterCall::Fill(_, _, rows) | WriterCall::Replace(_, rows) = self {
            rows.len();
        }
    }
}
