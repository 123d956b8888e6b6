//! What contracts see of the callers. No value of these types is made.
use crate::places::{Place, Retired};
use nr_model::RowSet;
use std::collections::LinkedList;

/// What a reader holds: a slot with the set that it found there, and whether it has read the
/// number of its rows.
pub enum Grip {
    Nothing,
    On(u32, RowSet, bool),
}

/// The writer's place in its call, how many slots were ever taken, the retired ones, oldest first,
/// and the number of each key. Slots are taken in their order, so the free ones are those from
/// `fresh` on.
pub struct Desk {
    pub place: Place,
    pub fresh: u32,
    pub retired: LinkedList<Retired>,
    pub numbers: LinkedList<u64>,
}

/// A caller. A note only looks on: it holds no slot.
pub enum Role {
    Writer(Desk),
    Reader(u32, Grip),
    Note,
}
