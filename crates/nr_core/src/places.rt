//! Where the callers are between their steps.
use crate::calls::WriterCall;
use nr_model::RowSet;
use std::collections::LinkedList;

/// A reader holds nothing, or a slot, and knows the number of its rows once it has read it.
#[derive(Clone, Copy, Debug)]
pub enum Hold {
    Nothing,
    On(u32, Option<u64>),
}

/// A slot that no key names any more, and its arrivals.
#[derive(Clone, Copy, Debug)]
pub struct Retired {
    pub slot: u32,
    pub arrivals: u64,
}

/// Where the writer is in its call, as contracts see it. No value of it is made: the machine keeps
/// the numbers (`Stage`), and beside them the call and its set, which no step moves.
pub enum Place {
    Idle,
    /// The call reads the slot, and has read these words.
    Reading(WriterCall, u32, LinkedList<u64>),
    /// The key is evicted next.
    Leaving(u32),
    /// The key's request is cancelled next.
    Withdrawing(u32),
    /// The call looks for a slot for the set, and polls the retired slot at this place next.
    Searching(WriterCall, RowSet, u32),
    /// The call puts the set into the slot, whose departures are these, and puts this word next.
    Putting(WriterCall, RowSet, u32, u64, u32),
}

/// The same in numbers alone.
#[derive(Clone, Copy, Debug)]
pub enum Stage {
    Idle,
    /// The call reads the slot.
    Reading(u32),
    /// The key is evicted next.
    Leaving(u32),
    /// The key's request is cancelled next.
    Withdrawing(u32),
    /// The call polls the retired slot at this place next.
    Searching(u32),
    /// The call puts its set into the slot, whose departures are these, and puts this word next.
    Putting(u32, u64, u32),
}
