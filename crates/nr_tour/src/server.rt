//! The queue and the server, over maps of their own.

mod applied;
mod attempts;
mod clients;
mod deadlines;
mod flow;
mod gates;
mod large;
mod lobbies;
mod notes;
mod queue;
mod services;
mod source;
mod upqueries;

use crate::map::print;
use crate::server::flow::RISE;
use nr_model::Batch;
use std::io::Print;
use std::sync::Wait;
use std::thread::Threads;
use std::time::{Clock, Instant};

// The queue, and what goes with a ticket.
fn show_queue<R: AllocGlobal + Print + Threads + Wait + Sync>(rt: &R) -> anyhow::Result<()> {
    let alloc = rt.alloc();
    print(rt, large::opened_large(alloc))?;
    print(rt, notes::written_and_read(rt, alloc))?;
    print(rt, queue::passed_on(rt, alloc))?;
    print(rt, attempts::passed_on(alloc))
}

// Clients, the dataflow and their lobby.
fn show_server<R: AllocGlobal + Clock + Print + Threads + Wait + Sync>(
    rt: &R,
) -> anyhow::Result<()> {
    let alloc = rt.alloc();
    let rise = Batch::of(&RISE)?;
    print(rt, clients::waited_for(rt, alloc))?;
    print(rt, flow::in_one_hand(rt, alloc, &rise))?;
    print(rt, upqueries::under_way(rt, alloc, &rise))?;
    print(rt, deadlines::in_time(rt, alloc, Instant::now(rt)?))?;
    print(rt, applied::told_and_heard(rt, alloc))?;
    print(rt, gates::held_back(rt, alloc))?;
    print(rt, lobbies::raised_once(rt, alloc))?;
    print(rt, services::without_clients(rt, alloc))
}

/// Prints each chapter.
pub fn show<R: AllocGlobal + Clock + Print + Threads + Wait + Sync>(rt: &R) -> anyhow::Result<()> {
    show_queue(rt)?;
    show_server(rt)
}
