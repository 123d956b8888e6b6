//! One thread for each reader.
ghost use Rattle.std.specs.Prelude.{◌≡◌, ◌<◌, ◌≤◌, IfOk, IfSome, All, None, length, vec_len, vec_capacity};
ghost use Rattle.nr_load.specs.Closes.{TellsEnd};
ghost use Rattle.nr_load.specs.Outcomes.{Carries, CarriesFirst, KeptBy, Serves};
ghost use Rattle.nr_load.specs.Handed.{IsPosterOf};

use crate::draws::Draws;
use crate::fault::LoadFault;
use crate::gets::{Worked, make_gets};
use crate::shared::Shared;
use nr_map::Reader;
use nr_serve::{Client, Gate, Guest};
use nr_trigger::Poster;
use std::snapshot::Snapshot;
use std::sync::Wait;
use std::thread::{Promise, PromisedHandle, Scope, Threads};

/// What a worker's thread gives back.
#[derive(Drop)]
pub struct Outcome {
    pub reader: Reader,
    pub worked: Worked,
    /// How many of its requests were to be sent.
    pub sends: u64,
    /// That by which it closed the lobby after a fault, or else by which it looked whether it was.
    pub guest: Guest,
}

/// The promise of a worker's thread.
#[derive(Drop)]
pub(crate) struct Serving {
    reader: Snapshot<Reader>,
    seed: u64,
    gets: u32,
}

impl Promise<Outcome> for Serving {
    ghost use Rattle.nr_load.specs.Outcomes.{Serves};

    ghost kept_by = { λ promise outcome. Serves promise.seed promise.gets promise.reader.value outcome };
}

/// The threads that were started for the readers.
#[derive(Drop)]
pub(crate) struct Started {
    pub(crate) handles: Vec<PromisedHandle<Outcome, Serving>>,
    /// Where one was refused: the guest that closed the lobby then.
    pub(crate) refused: Option<Guest>,
}

fn promise_to_serve(reader: &Reader, seed: u64, gets: u32) -> Serving
    ensures { (result.seed ≡ seed) × (result.gets ≡ gets) × (result.reader.value ≡ reader.now) }
{
    Serving {
        reader: Snapshot::of(reader),
        seed,
        gets,
    }
}

/// What a worker's thread does: its gets, of the keys that it draws. A fault closes the lobby, so
/// that the others end too.
fn work<R: Wait, G: Gate>(
    rt: &R,
    gate: &G,
    shared: &Shared,
    reader: Reader,
    poster: Poster,
) -> Outcome
    requires own { reader.table ≡ shared.now.service.map }
    requires queue { IsPosterOf shared.now.service.map shared.now.service.queue poster }
    ensures serves { Serves shared.now.plan.seed shared.now.plan.gets reader result }
    ensures ends { TellsEnd shared.now.service.lobby result }
{
    let Shared {
        alloc,
        plan,
        service,
        upqueries: _,
    } = shared;
    let mut draws = Draws::open(plan.seed, reader.number(), service.map().keys());
    let mut client = Client::of_service(service, reader, poster, gate);
    let (worked, guest) = make_gets(
        rt,
        *alloc,
        &mut client,
        &mut draws,
        plan.gets,
        service.lobby(),
    );
    let guest = if worked.fault.is_some() {
        shared.end()
    } else {
        guest
    };
    let sends = client.sends();
    let (reader, _, kept) = client.end();
    if let Some(ticket) = kept {
        ticket.into_key();
    }
    Outcome {
        reader,
        worked,
        sends,
        guest,
    }
}

/// Starts the thread of one worker, or tells that it was refused.
fn start_worker<'s, E, R: Wait + Sync, G: Gate + Sync>(
    scope: &Scope<'s, E>,
    rt: &'s R,
    gate: &'s G,
    shared: &'s Shared,
    reader: Reader,
    poster: Poster,
) -> Result<PromisedHandle<Outcome, Serving>, LoadFault>
    requires own { reader.table ≡ shared.now.service.map }
    requires queue { IsPosterOf shared.now.service.map shared.now.service.queue poster }
    ensures { IfOk result (λ handle. Carries shared.now.plan.seed shared.now.plan.gets reader handle) }
{
    let promise = promise_to_serve(&reader, shared.plan.seed, shared.plan.gets);
    match scope.spawn_with(
        promise,
        move || -> Outcome
            requires own { reader.table ≡ shared.now.service.map }
            requires queue { IsPosterOf shared.now.service.map shared.now.service.queue poster }
            ensures { Serves shared.entry.now.plan.seed shared.entry.now.plan.gets reader result }
        { work(rt, gate, shared, reader, poster) },
    ) {
        Ok(handle) => Ok(handle),
        Err(_) => Err(LoadFault::Thread),
    }
}

/// Starts a thread for each reader, in order. Where one is refused no more are started, and the load
/// ends. The list has room for all.
pub(crate) fn start_workers<'s, E, R: Wait + Sync, G: Gate + Sync>(
    scope: &Scope<'s, E>,
    rt: &'s R,
    gate: &'s G,
    shared: &'s Shared,
    readers: Vec<Reader>,
    posters: Vec<Poster>,
    mut handles: Vec<PromisedHandle<Outcome, Serving>>,
) -> Started
    requires readers { All (λ reader. reader.table ≡ shared.now.service.map) readers.items }
    requires posters { All (λ poster. IsPosterOf shared.now.service.map shared.now.service.queue poster) posters.items }
    requires count { vec_len posters ≡ vec_len readers }
    requires room { (vec_len readers ≤ vec_capacity handles) × (vec_len handles ≡ 0) }
    ensures readers { CarriesFirst shared.now.plan.seed shared.now.plan.gets readers.items result.handles.items }
    ensures few { vec_len result.handles ≤ vec_len readers }
    ensures whole { result.refused ≡ None → length result.handles.items ≡ length readers.items }
    ensures ends { IfSome result.refused (λ guest. (guest.lobby ≡ shared.now.service.lobby) × (0 < guest.closes)) }
{
    let mut posters = posters.into_iter();
    let mut refused = None;
    for reader in readers {
        let Some(poster) = posters.next() else {
            unreachable!()
        };
        match start_worker(scope, rt, gate, shared, reader, poster) {
            Ok(handle) => handles.push_reserved(handle),
            Err(_) => {
                refused = Some(shared.end());
                break;
            }
        }
    }
    Started { handles, refused }
}

/// Joins each thread, and gives what they gave, in order. The room is there.
pub(crate) fn join_all<R: Threads>(
    rt: &R,
    handles: Vec<PromisedHandle<Outcome, Serving>>,
    mut outcomes: Vec<Outcome>,
) -> Vec<Outcome>
    requires room { vec_len handles ≤ vec_capacity outcomes }
    requires none { vec_len outcomes ≡ 0 }
    ensures { KeptBy handles.items result.items }
{
    for handle in handles {
        outcomes.push_reserved(handle.join(rt));
    }
    outcomes
}
