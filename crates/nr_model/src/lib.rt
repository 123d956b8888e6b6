//! The reader map as a sequential model: rows, row sets, signed batches, and the partial map that
//! one caller uses. Every other crate says what it does by the definitions that stand here.
#![tactic(auto)]

mod batches;
mod calls;
mod cells;
mod heads;
pub mod laws;
mod ordered;
mod rows;
mod seq_map;
mod sizes;
mod sorted_rows;
mod source;
mod states;

pub use batches::{ApplyFault, Batch, BatchFault, Delta, MAX_DELTAS};
pub use calls::{Call, Reply};
pub use rows::{DEFAULT_ROWS, MAX_ROWS, Row, RowSet, TooMany};
pub use seq_map::{MAX_KEYS, OpenFault, SeqMap};
pub use sizes::is_bad_size;
pub use sorted_rows::SortedRows;
pub use source::{RowRoom, RowSource, put_over};
pub use states::{KeyState, LAST_NUMBER};
