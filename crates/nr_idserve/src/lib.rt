//! The two sides of a server over the map over ids: clients, which claim ids that are absent and sleep
//! until they are filled, and the dataflow, which admits and fills them.
#![tactic(auto)]

mod answers;
mod applied;
mod client;
mod ends;
mod flow;
mod hands;
pub mod laws;
mod service;
mod source;
mod taking;
mod tries;
mod turns;
mod victims;
mod watched;

pub use answers::GotId;
pub use applied::{IdApplied, IdMeasure};
pub use client::IdClient;
pub use flow::IdDataflow;
pub use service::IdService;
pub use source::IdSource;
pub use taking::Taken;
pub use turns::IdTurn;
pub use victims::{AnyVictim, NoVictims, Victims};
