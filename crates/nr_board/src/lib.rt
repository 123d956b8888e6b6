//! The table of words behind a map: each step that a token's seat makes on it, and each call of the
//! writer as its seat makes it, step by step. Who has no seat makes no step, and the rule of the
//! table says what each step keeps (`Kept`).
//!
//! Behind the keys' and the slots' words stand the readers' own, of those that have one. A reader
//! looks at a key (`LookedUp`), announces the slot that the key's word names by a swap of its own
//! word (`Said`), and looks again: where the key's word names that slot still, the reader holds it
//! (`Confirmed`, `HoldsSaid`). It lets go by the next announcement, or by a store of 0. What a word
//! says, its token says (`Announces`).
//!
//! The writer hears of a retired slot by loads of these words, one after another: it counts how many
//! readers, the first ones, don't say it (`heard_now`), and none of these holds it by its word
//! (`Hears`). A key names the slot no more, so none of them can come to hold it. A slot of which all
//! were heard has no flag (`Flagged`); the writer polls such slots alone (`PollsHeard`).
//!
//! A reader that has no word, or failed twice to confirm, arrives at the key and departs from the
//! slot (`Arrived`, `Departed`). A poll loads a retired slot's departures: where they are its
//! arrivals, nobody holds it. For nr_core a hold by a word is an arrival as well: it sees each slot's
//! departures less by the holds by words (`Counted`).
#![tactic(auto)]

mod answers;
mod begins;
mod board;
mod hearing;
mod held_rows;
mod holds;
mod named_rows;
mod only_proved;
mod publish;
mod read_through;
mod reaping;
mod recalls;
mod reclaiming;
mod rule;
mod scans;
mod search_passes;
mod two_seats;
mod view;
mod writer_calls;

pub use answers::{
    Cancel, Evict, FillFault, Found, KeyKind, Reaped, Reclaimed, ReplaceFault, UpdateFault,
};
pub use board::{Board, Note, Own, Plan, Seat};
pub use holds::Held;
pub use rule::BegunCall;
pub use scans::ScanFlags;
