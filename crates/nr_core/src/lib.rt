//! The step machine of the reader map, without threads: what the running map does, one atomic
//! operation on one word a step.
//!
//! A key's word says whether the key is asked or filled, which slot it names, or which number its
//! request has, and how many readers have arrived (`nr_words`). A slot is a departure word and the
//! content words of one row set.
//!
//! A reader of a large map announces in a word of its own which slot it reads. It looks at its key
//! (`LooksUp`), writes the slot that the key's word names into its own word, and looks at the key
//! again: where it names that slot still, the reader holds it (`HoldsNamed`), until its own word says
//! something else (`Departs`). The writer loads all readers' words before it takes a retired slot
//! again. The words of readers are nr_board's: here such a hold is an arrival and a departure like
//! those that are counted, and the departures that stand here are less by the holds by words.
//!
//! Any other reader is counted. It arrives with one addition to its key's word. It finds the slot
//! that the word names and is counted there in the same operation (`arrive_hold`), so it holds the
//! slot: it reads the set word by word (`read_hold`) and departs with one addition to the slot's
//! departure word. `Core::open`'s machine, scripts and schedules have such readers alone. No reader
//! ever waits.
//!
//! The writer never changes a set in place. A call looks at its key (`looked`); where it needs a
//! slot it takes the next free one, or polls the retired ones, oldest first (`settled`, `polled`), or
//! in any order those that no reader's word says (`Tries`).
//! It puts the set's words into the slot that it took (`put_on`), and publishes with one swap of the
//! key's word (`swapped`). An eviction swaps in the word of a hole with the key's ticket number. The swap
//! gives back the old word, and with it the exact count of all that ever arrived at the slot that it
//! named (`unnamed`); no reader can arrive there any more, and the slot is retired with that count.
//!
//! A retired slot is taken again where its departures equal its arrivals modulo 2^40 (`polled`):
//! since a named or retired slot's arrivals are its departures and those that hold it (`Counts`), and
//! there are fewer than 2^40 readers, nobody holds it then. The new name begins with the slot's
//! departures as its arrivals (`naming`), so the count goes on, whatever it was, wrapped or not.
//! Where each retired slot is held at its poll, the call ends with no slot (`IsJustified`).
//!
//! A request is sent with its key's ticket number, and filled by that number alone (`fill_asked`). A cancel
//! takes it back: one swap puts the word of a hole with the next number there (`withdrawn`), so that
//! a late answer to the old request fills no newer one. A filled key's word has no room for the
//! number, so the writer lists the numbers of all keys (`AreNumbers`).
//!
//! `Core` (in specs/) says what stands between any two steps, `CanStep` that a caller can make a step
//! whatever the core state is. The laws (`laws`, and StepLaws in specs/) speak of all orders in which
//! the callers' steps can fall, and of what tokens learn of each other by them: contracts alone see
//! those marks. Each kind of step has one law of the form `CanStep`, on which the running map builds;
//! `EverySchedule` and `SlotBound` are the laws of lists of events. `proofs/Lib.antt` begins with the
//! lemma files that are meant for the crates above.
#![tactic(auto)]

mod calls;
pub mod laws;
mod machine;
mod operation;
mod outcome;
mod places;
mod reached;
mod roles;
mod shape;
mod slot_lists;
mod slot_notes;
mod words;
mod words_read;

pub use calls::{Arrived, AskReply, NoSlot, Refusal, Step, WReply, WriterCall};
pub use nr_model::OpenFault;
pub use operation::Operation;
pub use places::{Hold, Place, Retired};
pub use reached::Core;
pub use roles::{Desk, Grip, Role};
pub use shape::{MAX_LARGE_READERS, MAX_LARGE_SLOTS, MAX_READERS, MAX_SLOTS, Shape};
pub use slot_lists::SlotLists;
