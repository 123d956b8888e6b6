//! The calls of a partial map, and their replies.
ghost use Rattle.std.specs.Prelude.{◌≡◌};
ghost use Rattle.nr_model.specs.Maps.{call_key};

use crate::batches::Batch;
use crate::rows::RowSet;

/// One call, with the number of its key.
#[derive(Clone, Copy, Debug)]
pub enum Call {
    /// Looks the key up.
    Find(u32),
    /// Requests the rows of a key that is missing.
    Ask(u32),
    /// Answers the request of that ticket number with the key's rows.
    Fill(u32, u64, RowSet),
    /// Applies a batch to the key's rows.
    Update(u32, Batch),
    /// Puts a set whole in place of the key's rows.
    Replace(u32, RowSet),
    /// Makes the key missing again.
    Evict(u32),
    /// Takes the request of the key back.
    Cancel(u32),
}

impl Call {
    /// The key of the call.
    pub fn key(&self) -> u32
        ensures { result ≡ call_key self.now }
    {
        match self {
            Call::Find(key) | Call::Ask(key) | Call::Evict(key) | Call::Cancel(key) => *key,
            Call::Fill(key, _, _) => *key,
            Call::Update(key, _) => *key,
            Call::Replace(key, _) => *key,
        }
    }
}

/// The answer to a call.
#[derive(Clone, Copy, Debug)]
pub enum Reply {
    /// To a find: the rows of a filled key.
    Rows(RowSet),
    /// To a find: the key is not filled.
    Hole,
    /// To a request: nobody asked before, so the caller sends the upquery, with that ticket number.
    Send(u64),
    /// To a request: an upquery is under way.
    Waiting,
    /// To a request: the key is filled.
    Filled,
    /// To a fill, an update or a replacement: the rows stand.
    Done,
    /// To a fill: nobody asked for the key.
    NotAsked,
    /// To a fill: it answers a request of another ticket number, which was cancelled.
    Stale,
    /// To a fill: the key is filled.
    Already,
    /// To an update or a replacement: the key is not filled, so the rows are dropped.
    Dropped,
    /// To an update: the batch takes away a row that is not there.
    NoRow,
    /// To an update: too many rows would be left.
    TooMany,
    /// To an eviction: the key was filled and is a hole now.
    Evicted,
    /// To an eviction: the key was not filled. To a cancel: the key was not asked for.
    Nothing,
    /// To a cancel: the request is taken back, and the key's next one gets the next ticket number.
    Cancelled,
    /// To a cancel: the request has the last ticket number, so it stays until its own fill.
    Worn,
}
