//! A cache's store, which threads share under a lock.

mod deeds;
mod desk;
mod sharing;

use crate::map::print;
use std::io::Print;
use std::sync::Wait;
use std::thread::Threads;

/// Prints the chapter.
pub fn show<R: AllocGlobal + Print + Threads + Wait + Sync>(rt: &R) -> anyhow::Result<()> {
    print(rt, sharing::chapter(rt, rt.alloc()))
}
