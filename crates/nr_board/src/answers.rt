//! What the calls of a map answer, but a request.
ghost use Rattle.std.specs.Prelude.{◌≡◌};
ghost use Rattle.nr_board.specs.Kinds.{kind_shown};

use nr_core::NoSlot;
use nr_words::parts;
use thiserror::Error;

/// The answer to a find.
#[derive(Clone, Copy, Debug, PartialEq, Eq)]
pub enum Found {
    /// The key is filled, and the caller's set has its rows.
    Rows,
    /// The key is not filled.
    Hole,
}

/// Why a fill is refused.
#[derive(Clone, Copy, Debug, PartialEq, Eq, Error)]
pub enum FillFault {
    #[error("nobody asked for the key")]
    NotAsked,
    #[error("the key is filled")]
    Already,
    #[error("the request that it answers was taken back")]
    Stale,
    #[error("there is no slot")]
    NoSlot(NoSlot),
}

/// Why an update is refused.
#[derive(Clone, Copy, Debug, PartialEq, Eq, Error)]
pub enum UpdateFault {
    #[error("the key is not filled")]
    Dropped,
    #[error("a row to be taken away is not there")]
    NoRow,
    #[error("more rows would be left than a key may have")]
    TooMany,
    #[error("there is no slot")]
    NoSlot(NoSlot),
}

/// Why a replacement is refused.
#[derive(Clone, Copy, Debug, PartialEq, Eq, Error)]
pub enum ReplaceFault {
    #[error("the key is not filled")]
    Dropped,
    #[error("there is no slot")]
    NoSlot(NoSlot),
}

/// What a call gives out of the slot that it took.
#[derive(Clone, Copy, Debug, PartialEq, Eq)]
pub enum Reclaimed {
    /// The set that the slot had before, which nobody holds; the caller's room has its rows.
    Set,
    /// The slot was never taken before, or its set was reaped.
    Nothing,
}

/// What a reap gives out.
#[derive(Clone, Copy, Debug, PartialEq, Eq)]
pub enum Reaped {
    /// The oldest set that waited and that nobody holds; the caller's room has its rows.
    Set,
    /// Sets wait, and at its poll each was held by a reader.
    Held,
    /// No set waits: no slot is retired but such as were reaped.
    Nothing,
}

/// The answer to an eviction.
#[derive(Clone, Copy, Debug, PartialEq, Eq)]
pub enum Evict {
    /// The key was filled and is a hole now.
    Evicted,
    /// The key was not filled.
    Nothing,
}

/// The answer to a cancel.
#[derive(Clone, Copy, Debug, PartialEq, Eq)]
pub enum Cancel {
    /// The key was asked and is a hole now, with the next number.
    Cancelled,
    /// The key was not asked.
    Nothing,
    /// The key is asked with the last number; its own fill alone ends that.
    Worn,
}

/// What a key is, without its rows.
#[derive(Clone, Copy, Debug, PartialEq, Eq)]
pub enum KeyKind {
    /// The key is not filled, and no request of it is under way.
    Hole,
    /// An upquery is under way.
    Asked,
    /// The key is filled.
    Rows,
}

impl KeyKind {
    /// What a key's word shows.
    pub fn of_word(word: u64) -> KeyKind
        ensures { result ≡ kind_shown word }
    {
        let found = parts(word);
        if found.filled {
            KeyKind::Rows
        } else if found.ask {
            KeyKind::Asked
        } else {
            KeyKind::Hole
        }
    }
}
