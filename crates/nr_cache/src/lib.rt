//! What a cache decides: which loads are under way, whether their values are held, and whose value goes
//! to make room. A store is for one thread at a time, as under its caller's lock, and readers find without
//! one.
//!
//! A value is a number, as the address of what it stands for, with a stamp, a number that comes back with
//! each find, as the time at which it expires. Both stand in one row of the map over ids, behind the id's
//! tag (`set_of`).
//!
//! A miss begins a flight: of each id one is under way at most (`Begins`). It takes no way of the map until
//! its value lands, so what is under way evicts nothing, and a load that fails leaves nothing behind. A
//! flight is outdated where its id is invalidated, put or changed meanwhile; then its value is its loader's
//! own (`HoldsFresh`). A landing makes room itself, by an eviction (`Lands`). Whose value goes a choice tells
//! (`Choice`), on which nothing rests but how often misses come. Where values have weights others go as long as the
//! newcomer is too heavy beside them (`LightensFor`), so never more is held than the bound (`IsLight`).
//!
//! What an id had comes out by a later call, once no reader holds it (`EachValueComesOutOnce`).
#![tactic(auto)]

mod choice;
mod clearing;
mod counts;
mod entrants;
mod evictions;
mod finds;
mod firsts;
mod flights;
mod given;
pub mod laws;
mod leavers;
mod limits;
mod looks;
mod mood;
mod shape;
mod stamps;
mod standing;
mod store;
mod swaps;
mod values;
mod weights;

pub use counts::Counts;
pub use finds::{FoundValue, find, hold};
pub use flights::{Fate, Flight};
pub use given::GivenValue;
pub use shape::{MAX_STORE_GROUPS, MAX_STORE_READERS, StoreShape};
pub use store::{Begun, Landed, Store};
pub use swaps::Swapped;
