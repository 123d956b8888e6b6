//! Names and their numbers: a name that is interned gets the next number, from 0, and keeps it.
#![tactic(auto)]

mod below;
mod faults;
mod keys;
mod lent;
mod opening;
mod shared;
mod table;

pub use below::NamesBelow;
pub use faults::NameFault;
pub use keys::Keys;
pub use shared::Names;
pub use table::NameTable;
