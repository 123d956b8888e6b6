//! The running map: readers look keys up without a lock, each in a thread of its own, while one
//! writer fills, updates and evicts them.
//!
//! A key has one word: whether it was asked for, whether it is filled, and then which slot has its
//! set. The writer never changes a set in place. It puts the next one into a slot that nobody holds,
//! and names that slot by one swap of the key's word (`Publishes`); the slot that the word named
//! before is retired. So a reader must hold the slot that it reads, in one of two ways (`HeldAs`).
//!
//! A reader of a large map (`open_large`) announces the slot. It has a word of its own, a hazard
//! pointer: it loads the key's word, writes the slot that this names into its own word, and loads the
//! key's word again. If that names the slot still, the reader holds it until its own word says
//! something else (`HoldsSaid`); if not, it tries once more, and then is counted (`HoldsAfter`).
//! Before the writer takes a retired slot again it loads the readers' words, and takes none that one
//! of them says (`WordsTell`).
//!
//! In the maps of `open` and `open_with` a reader is counted. The key's word also has the number of
//! arrivals, and each slot a word with the number of departures. A reader arrives by an addition to
//! the key's word, which tells it the slot, and departs by an addition to the slot's departures. What
//! the swap took out of the key's word says how many ever arrived at the retired slot, and the writer
//! takes it again once as many have departed (`TookBySearch`). Where each retired slot is kept back
//! by a reader, a write has no slot (`HasNoSlot`).
//!
//! A request can be taken back, so that it may be sent anew. Each key has a number, which a cancel
//! raises; a ticket has the number that its key had, and a fill names it, so that a late answer to
//! an old request is refused. The word of a key that is not filled has the number in the place of
//! the slot, and the writer keeps a list of all numbers.
//!
//! Each step of a call is one operation on one word, and each call is one entry of one history that
//! all callers share, at the step that decides its answer (`Gains`). The definitions that are named
//! here are nr_board's.
#![tactic(auto)]

mod ahead;
mod answers;
mod cancels;
mod first_rows;
mod hand;
mod kept;
mod kept_tagged;
mod large;
pub mod laws;
mod meetings;
mod notes;
mod pin;
mod reader;
mod reader_map;
mod readers_out;
mod reclaiming;
mod remains;
mod slot_counts;
mod tagged;
mod ticket;
mod token;
mod wanted;
mod writer;
mod writer_calls;

pub use answers::Asked;
pub use hand::Hand;
pub use notes::Note;
pub use nr_board::{
    Cancel, Evict, FillFault, Found, KeyKind, Reaped, Reclaimed, ReplaceFault, UpdateFault,
};
pub use nr_core::{MAX_LARGE_READERS, MAX_LARGE_SLOTS, MAX_READERS, MAX_SLOTS, NoSlot, Shape};
pub use pin::Pin;
pub use reader::Reader;
pub use reader_map::ReaderMap;
pub use readers_out::ReadersOut;
pub use remains::{Remains, Rest};
pub use slot_counts::SlotCounts;
pub use tagged::Tagged;
pub use ticket::Ticket;
pub use wanted::Wanted;
pub use writer::Writer;
