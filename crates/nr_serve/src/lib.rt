//! The two sides of a server over the running map: the dataflow, which fills the keys that were
//! asked for, and clients, which ask for a key and sleep until it is filled.
#![tactic(auto)]

mod answers;
mod applied;
mod client;
mod counts;
mod dataflow;
mod gate;
mod guestless;
mod hands;
pub mod laws;
mod lobby;
mod raiser;
mod service;
mod shared;
mod sleepers;
mod source;
mod tries;
mod try_turns;
mod turns;
mod watched;

pub use answers::Got;
pub use applied::{Applied, Measure};
pub use client::Client;
pub use counts::Guest;
pub use dataflow::Dataflow;
pub use gate::{Gate, OpenGate};
pub use lobby::Lobby;
pub use raiser::{Raiser, Rung};
pub use service::Service;
pub use sleepers::{Limit, NoLimit, TooLate};
pub use source::{FallibleSource, Source, SourceFault};
pub use try_turns::TryTurn;
pub use turns::{Spent, Turn};
pub use watched::Watched;
