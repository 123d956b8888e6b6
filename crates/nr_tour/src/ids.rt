//! The directory of ids, the map over ids, and its clients and dataflow.

mod admitting;
mod answering;
mod directory;
mod marks;
mod notes;
mod resident;
mod serving;
mod wanting;

use crate::ids::directory::show_directory;
use crate::ids::resident::show_ids;
use crate::ids::serving::show_client;
use std::io::Print;
use std::sync::Wait;

/// Prints each chapter.
pub fn show<R: AllocGlobal + Wait + Print>(rt: &R) -> anyhow::Result<()> {
    show_directory(rt)?;
    show_ids(rt)?;
    show_client(rt)
}
