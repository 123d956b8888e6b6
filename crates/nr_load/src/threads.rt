//! All threads of a load: one for each reader and one for the dataflow.
ghost use Rattle.std.specs.Prelude.{◌≡◌, IfOk, replicate, vec_len};
ghost use Rattle.nr_load.specs.Ends.{Joins};
ghost use Rattle.nr_load.specs.Flowed.{Flows};
ghost use Rattle.nr_load.specs.Handed.{AreTokensOf, HasRoomFor, IsTakerOf};

use crate::base::Base;
use crate::fault::LoadFault;
use crate::flow::{Flowed, flow_on};
use crate::shared::Shared;
use crate::workers::{Outcome, Serving, join_all, start_workers};
use nr_map::{Reader, Writer};
use nr_serve::Gate;
use nr_trigger::{Poster, Taker};
use std::snapshot::Snapshot;
use std::sync::Wait;
use std::thread::{self, Promise, PromisedHandle, Scope, Threads};

/// The tokens of a map and of its queue, which the threads take.
#[derive(Drop)]
pub(crate) struct Tokens {
    pub(crate) writer: Writer,
    pub(crate) taker: Taker,
    pub(crate) readers: Vec<Reader>,
    /// One for each reader.
    pub(crate) posters: Vec<Poster>,
}

/// Room for the handle and the outcome of each worker.
#[derive(Drop)]
pub(crate) struct Lists {
    pub(crate) handles: Vec<PromisedHandle<Outcome, Serving>>,
    pub(crate) outcomes: Vec<Outcome>,
}

/// What all threads that were started gave back.
#[derive(Drop)]
pub(crate) struct Joined {
    pub(crate) outcomes: Vec<Outcome>,
    pub(crate) flowed: Flowed,
    /// Whether no thread was refused.
    pub(crate) is_whole: bool,
}

/// The promise of the dataflow's thread.
#[derive(Drop)]
pub(crate) struct Flowing {
    writer: Snapshot<Writer>,
    taker: Snapshot<Taker>,
}

impl Promise<Flowed> for Flowing {
    ghost use Rattle.nr_load.specs.Flowed.{Flows};

    ghost kept_by = { λ promise flowed. Flows promise.writer.value promise.taker.value flowed };
}

fn promise_to_flow(writer: &Writer, taker: &Taker) -> Flowing
    ensures { (result.writer.value ≡ writer.now) × (result.taker.value ≡ taker.now) }
{
    Flowing {
        writer: Snapshot::of(writer),
        taker: Snapshot::of(taker),
    }
}

/// Starts the dataflow's thread, or tells that it was refused.
fn start_flow<'s, E, R: Wait + Sync>(
    scope: &Scope<'s, E>,
    rt: &'s R,
    shared: &'s Shared,
    writer: Writer,
    taker: Taker,
    base: Base,
) -> Result<PromisedHandle<Flowed, Flowing>, LoadFault>
    requires own { writer.table ≡ shared.now.service.map }
    requires queue { IsTakerOf shared.now.service.map shared.now.service.queue taker }
    requires base { base ≡ replicate shared.now.service.map.shape.keys 0 }
    ensures { IfOk result (λ handle. (handle.promise.writer.value ≡ writer) × (handle.promise.taker.value ≡ taker)) }
{
    let promise = promise_to_flow(&writer, &taker);
    match scope.spawn_with(
        promise,
        move || -> Flowed
            requires own { writer.table ≡ shared.now.service.map }
            requires queue { IsTakerOf shared.now.service.map shared.now.service.queue taker }
            requires base { base ≡ replicate shared.now.service.map.shape.keys 0 }
            ensures { Flows writer taker result }
        { flow_on(rt, shared, writer, taker, base) },
    ) {
        Ok(flow) => Ok(flow),
        Err(_) => Err(LoadFault::Thread),
    }
}

/// Starts a thread for the dataflow and one for each reader, and joins all that were started. Where
/// one is refused no more are started, and the load ends. `Thread` where the first is refused. The
/// lists have room for all.
fn serve_within<'s, E, R: Threads + Wait + Sync, G: Gate + Sync>(
    scope: &Scope<'s, E>,
    rt: &'s R,
    gate: &'s G,
    shared: &'s Shared,
    tokens: Tokens,
    base: Base,
    lists: Lists,
) -> Result<Joined, LoadFault>
    requires tokens { AreTokensOf shared.now.service.map shared.now.service.queue tokens }
    requires base { base ≡ replicate shared.now.service.map.shape.keys 0 }
    requires room { HasRoomFor (vec_len tokens.readers) lists }
    ensures { IfOk result (Joins shared.now.plan.seed shared.now.plan.gets tokens) }
{
    let flow = start_flow(scope, rt, shared, tokens.writer, tokens.taker, base)?;
    let started = start_workers(
        scope,
        rt,
        gate,
        shared,
        tokens.readers,
        tokens.posters,
        lists.handles,
    );
    let outcomes = join_all(rt, started.handles, lists.outcomes);
    shared.end();
    let flowed = flow.join(rt);
    Ok(Joined {
        outcomes,
        flowed,
        is_whole: started.refused.is_none(),
    })
}

/// Runs the threads of a load in a scope of their own (`serve_within`).
pub(crate) fn serve_all<R: Threads + Wait + Sync, G: Gate + Sync>(
    rt: &R,
    gate: &G,
    shared: &Shared,
    tokens: Tokens,
    base: Base,
    lists: Lists,
) -> Result<Joined, LoadFault>
    requires tokens { AreTokensOf shared.now.service.map shared.now.service.queue tokens }
    requires base { base ≡ replicate shared.now.service.map.shape.keys 0 }
    requires room { HasRoomFor (vec_len tokens.readers) lists }
    ensures { IfOk result (Joins shared.now.plan.seed shared.now.plan.gets tokens) }
{
    thread::scope(
        thread::scope_env(),
        rt,
        |scope| -> Result<Joined, LoadFault>
            requires tokens { AreTokensOf shared.now.service.map shared.now.service.queue tokens }
            requires base { base ≡ replicate shared.now.service.map.shape.keys 0 }
            requires room { HasRoomFor (vec_len tokens.readers) lists }
            ensures { IfOk result (Joins shared.entry.now.plan.seed shared.entry.now.plan.gets tokens) }
        { serve_within(scope, rt, gate, shared, tokens, base, lists) },
    )
}
