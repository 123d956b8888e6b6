//! Schedules: lines that open the step machine and take one step each, answered one by one.
mod answer;
mod command;
pub mod laws;
mod machine;
mod opened;
mod runs;

pub use runs::{run_steps, run_steps_within};
