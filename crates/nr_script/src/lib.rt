//! Scripts: lines that open a map and call it, answered one by one over a running map that is alone
//! with the script (`Alone`), as the sequential map answers them.
#![tactic(auto)]

mod alone;
mod answer;
mod command;
mod keys;
mod machine;
mod opened;
mod runs;

pub use alone::{Alone, Answer, PinRefusal, Said, WriterCall};
pub use runs::{replies, run, run_within};
