//! Of the directory of ids and of the map over ids.
mod admitting;
mod calls;
mod directory_threads;
mod groups;
mod hands;
mod office;
mod reclaiming;
mod refusals;
mod threads;
pub mod view;
