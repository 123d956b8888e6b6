//! The map alone. Each chapter opens a map of its own, makes its calls, and writes a page of what they answered.

mod calls;
mod cancels;
mod hands;
mod lookups;
mod many;
mod meetings;
mod opening;
mod page;
mod pins;
mod reclaiming;
mod rooms;
mod sizes;
mod slots;
mod texts;
mod threads;
mod upkeep;

pub use crate::map::calls::{ROWS, ask_and_fill, set_of};
pub use crate::map::opening::opened;
pub use crate::map::page::{Page, print};
use crate::map::sizes::MORE;
use crate::map::upkeep::CHANGE;
use nr_model::Batch;
use std::io::Print;
use std::thread::Threads;

/// Prints each chapter.
pub fn show_map<R: AllocGlobal + Print + Threads + Sync>(rt: &R) -> anyhow::Result<()> {
    let change = Batch::of(&CHANGE)?;
    show_reads(rt)?;
    show_changes(rt, &change)?;
    show_places(rt, &change)?;
    show_meetings(rt)
}

// Finds and requests.
fn show_reads<R: AllocGlobal + Print + Threads + Sync>(rt: &R) -> anyhow::Result<()> {
    let alloc = rt.alloc();
    print(rt, lookups::chapter(alloc))?;
    print(rt, many::chapter(alloc))?;
    print(rt, threads::chapter(rt, alloc))
}

// What the writer changes, and what readers keep meanwhile.
fn show_changes<R: AllocGlobal + Print>(rt: &R, change: &Batch) -> anyhow::Result<()> {
    let alloc = rt.alloc();
    print(rt, upkeep::chapter(alloc, change))?;
    print(rt, pins::chapter(alloc, change))?;
    print(rt, hands::chapter(alloc, change))
}

// Rooms, slots and sizes.
fn show_places<R: AllocGlobal + Print>(rt: &R, change: &Batch) -> anyhow::Result<()> {
    let alloc = rt.alloc();
    print(rt, rooms::chapter(alloc))?;
    print(rt, reclaiming::chapter(alloc))?;
    print(rt, slots::chapter(alloc, change))?;
    let more = Batch::of(&MORE)?;
    print(rt, sizes::chapter(alloc, change, &more))
}

// What is taken back, and what one token tells another.
fn show_meetings<R: AllocGlobal + Print>(rt: &R) -> anyhow::Result<()> {
    let alloc = rt.alloc();
    print(rt, cancels::chapter(alloc))?;
    print(rt, meetings::chapter(alloc))
}
