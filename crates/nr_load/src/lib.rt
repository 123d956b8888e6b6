//! A load on a running map: one thread for each reader, which gets keys that it draws, one for the
//! dataflow, which fills, changes and evicts them, and an account at the end.
#![tactic(auto)]

mod base;
mod draws;
mod fault;
mod flow;
mod gets;
mod load;
mod shared;
mod tally;
mod threads;
mod under_way;
mod workers;

pub use draws::Draws;
pub use fault::LoadFault;
pub use gets::{Worked, load_gets};
pub use load::{LoadReport, Plan, WindowedPlan, run_load, run_windowed_load};
