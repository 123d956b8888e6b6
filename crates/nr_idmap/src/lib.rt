//! The map over ids: ids of 64 bits in place of key numbers, of which as many can be resident as the map
//! has slots for. A directory says which key of the map, its way, an id has for now; a tag in front of
//! each set says whose rows they are, and decides.
//!
//! An id that has no way is claimed by one reader. The dataflow's thread admits it: the id gets a way,
//! which is asked for, and one upquery is open until it fills the way or is withdrawn. So a way without
//! a name isn't filled, one with a name is asked for or has that id's rows, and an upquery's late answer
//! never fills another absence.
#![tactic(auto)]

mod choices;
mod counts;
mod evictions;
mod finds;
mod hands;
mod id_map;
mod idle_hands;
pub mod laws;
mod looked_up;
mod looks;
mod notes;
mod openings;
mod reclaiming;
mod remains;
mod rows;
mod tokens;
mod upqueries;
mod walks;
mod wanted;
mod ways;
mod writes;

pub use finds::{FoundId, NamedWay};
pub use hands::IdHand;
pub use id_map::{IdMap, IdShape};
pub use looks::Looked;
pub use notes::IdNote;
pub use nr_ids::{Claim, Refused, Requested};
pub use nr_map::{
    Evict, NoSlot, ReadersOut, Reaped, Reclaimed, ReplaceFault, Rest, SlotCounts, UpdateFault,
};
pub use nr_model::OpenFault;
pub use rows::{are_id_deltas, are_id_rows};
pub use tokens::{IdReader, IdWriter};
pub use upqueries::{ClosedMap, Unfilled, Upquery, Withdrawn};
pub use wanted::{BATCH, WantedId};
pub use writes::IdFault;
