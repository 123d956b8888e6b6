//! The program: what its arguments ask for, and what it tells of a fault. Scripts are nr_script's and
//! schedules stand here; both are served by nr_text. A load is nr_load's.
#![tactic(auto)]

mod arguments;
mod output;
mod program;
mod report;
mod schedule;
mod task;

pub use nr_load::{Draws, LoadFault, LoadReport, Plan, Worked, load_gets, run_load};
pub use nr_script::{replies, run};
pub use nr_text::RunFault;
pub use output::Output;
pub use program::{main_of, main_with};
pub use schedule::{laws, run_steps, run_steps_within};
