//! A run of load, and its report.
ghost use Rattle.std.specs.Prelude.{◌≡◌, ◌==◌, ◌<◌, ◌≤◌, ◌+◌, ◌*◌, ◌^◌, ◌↔◌, IfOk, IsTrue, MatchResult, All, None, Some, map as each_of, replicate, vec_len, vec_capacity};
ghost use Rattle.nr_map.specs.Rounds.{is_cancel, is_fill, is_sent};
ghost use Rattle.nr_serve.specs.Hands.{capped};
ghost use Rattle.nr_load.specs.Balance.{of_all};
ghost use Rattle.nr_load.specs.Ends.{Ended, first_of, fault_told};
ghost use Rattle.nr_load.specs.Gathers.{IsInOrder};
ghost use Rattle.nr_load.specs.Handed.{HasRoomFor};
ghost use Rattle.nr_load.specs.Outcomes.{answered_in, earliest, made_in, reader_of, sends_in};
ghost use Rattle.nr_load.specs.Reports.{ComesTo, IsAccount, shape_of_plan};

use crate::base::Base;
use crate::fault::{LoadFault, earlier};
use crate::flow::Flowed;
use crate::shared::Shared;
use crate::tally::tally;
use crate::threads::{Joined, Lists, Tokens, serve_all};
use crate::workers::Outcome;
use nr_map::{Reader, ReaderMap, Writer, laws};
use nr_serve::{Gate, Lobby, Service};
use nr_trigger::Triggers;
use std::alloc::{AllocError, Global};
use std::sync::Wait;
use std::thread::Threads;

/// What a run of load is to do.
#[derive(Clone, Copy, Debug, PartialEq, Eq)]
pub struct Plan {
    /// The state of each worker's generator; its stream is the worker's number.
    pub seed: u64,
    /// 1 to 1,024 readers, each in a thread of its own.
    pub readers: u32,
    /// 1 to 65,536 keys.
    pub keys: u32,
    /// The gets of each reader.
    pub gets: u32,
}

/// A run of load with several upqueries under way.
#[derive(Clone, Copy, Debug, PartialEq, Eq)]
pub struct WindowedPlan {
    pub plan: Plan,
    /// The window, how many upqueries may be under way at once: at least one always may.
    pub upqueries: u32,
}

/// What a run of load did.
#[derive(Clone, Copy, Debug, PartialEq, Eq)]
pub struct LoadReport {
    /// The gets of all readers.
    pub gets: u64,
    /// Those that were answered with rows.
    pub answered: u64,
    /// The requests that were to be sent.
    pub sends: u64,
    /// The fills that were done.
    pub fills: u64,
    /// The keys that are asked at the end.
    pub asked: u64,
}

impl LoadReport {
    /// Whether each request that was sent was filled or is still pending.
    pub fn balance(&self) -> bool
        ensures { IsTrue result ↔ (self.now.sends ≡ self.now.fills + self.now.asked) }
    {
        let LoadReport {
            gets: _,
            answered: _,
            sends,
            fills,
            asked,
        } = *self;
        match fills.checked_add(asked) {
            Some(sum) => sum == sends,
            None => false,
        }
    }
}

/// What the workers did, added up.
#[derive(Drop)]
struct Sums {
    made: u64,
    sends: u64,
    answered: u64,
    fault: Option<LoadFault>,
}

// What a load needs room for before its first thread starts.
#[derive(Drop)]
struct Room {
    base: Base,
    lists: Lists,
    readers: Vec<Reader>,
}

impl Room {
    fn open(alloc: Global, keys: u32, readers: u32) -> Result<Room, AllocError>
        ensures base { IfOk result (λ room. room.base ≡ replicate keys 0) }
        ensures lists { IfOk result (λ room. HasRoomFor readers room.lists) }
        ensures readers { IfOk result (λ room. (readers ≤ vec_capacity room.readers) × (vec_len room.readers ≡ 0)) }
    {
        Ok(Room {
            base: Base::open(alloc, keys)?,
            lists: Lists {
                handles: Vec::with_capacity(alloc, readers as usize)?,
                outcomes: Vec::with_capacity(alloc, readers as usize)?,
            },
            readers: Vec::with_capacity(alloc, readers as usize)?,
        })
    }
}

// Adds up what the workers did, and gives their readers back, in order. The room is there.
fn collect(outcomes: Vec<Outcome>, mut readers: Vec<Reader>) -> (Sums, Vec<Reader>)
    requires room { (vec_len outcomes ≤ vec_capacity readers) × (vec_len readers ≡ 0) }
    requires made { made_in outcomes.items < 2 ^ 64 }
    requires sends { sends_in outcomes.items < 2 ^ 64 }
    requires answered { answered_in outcomes.items < 2 ^ 64 }
    ensures made { let (sums, _) = result in sums.made ≡ made_in outcomes.items }
    ensures sends { let (sums, _) = result in sums.sends ≡ sends_in outcomes.items }
    ensures answered { let (sums, _) = result in sums.answered ≡ answered_in outcomes.items }
    ensures fault { let (sums, _) = result in sums.fault ≡ earliest None outcomes.items }
    ensures readers { let (_, all) = result in all.items ≡ each_of reader_of outcomes.items }
{
    let mut made: u64 = 0;
    let mut sends: u64 = 0;
    let mut answered: u64 = 0;
    let mut fault = None;
    for outcome in outcomes {
        let Outcome {
            reader,
            worked,
            sends: sent,
            guest: _,
        } = outcome;
        made += u64::from(worked.made);
        sends += sent;
        answered += u64::from(worked.answered);
        fault = earlier(fault, worked.fault);
        readers.push_reserved(reader);
    }
    (
        Sums {
            made,
            sends,
            answered,
            fault,
        },
        readers,
    )
}

// How many keys are asked, once all tokens are back; so the account balances.
fn account(map: &ReaderMap, writer: Writer, readers: Vec<Reader>, sends: u64, fills: u64) -> u64
    requires writer { (writer.table ≡ map.now) × (writer.number ≡ 0) }
    requires readers { All (λ reader. reader.table ≡ map.now) readers.items }
    requires order { IsInOrder map.now.shape.readers readers.items }
    requires some { 0 < map.now.shape.readers }
    requires sends { of_all is_sent writer readers.items ≡ sends }
    requires fills { fills ≡ capped (of_all is_fill writer readers.items) }
    requires cancels { of_all is_cancel writer readers.items ≡ 0 }
    ensures account { IsAccount map.now writer readers.items result }
    ensures fills { fills ≡ of_all is_fill writer readers.items }
    ensures balance { sends ≡ fills + result }
{
    let _ = (sends, fills);
    laws::entries_are_callers();
    let (mut writer, mut readers) = (writer, readers);
    tally(map, &mut writer, readers.as_mut_slice())
}

// The fault that is told of what the threads gave back, of several the first named. Gets that are
// missing without one are told as wrong rows: no contract says who closed the lobby.
fn first_fault(
    sums: &Sums,
    fault: Option<LoadFault>,
    is_whole: bool,
    gets: u64,
) -> Option<LoadFault>
    ensures { result ≡ first_of sums.now.fault fault is_whole (sums.now.made == gets) }
{
    let refused = if is_whole {
        None
    } else {
        Some(LoadFault::Thread)
    };
    let short = if sums.made == gets {
        None
    } else {
        Some(LoadFault::WrongRows)
    };
    earlier(earlier(earlier(sums.fault, fault), refused), short)
}

// The report of threads that are all joined, or of their faults the first named.
fn settle(
    map: &ReaderMap,
    plan: &Plan,
    joined: Joined,
    room: Vec<Reader>,
) -> Result<LoadReport, LoadFault>
    requires ended { Ended map.now plan.now.seed plan.now.gets joined }
    requires sizes { map.now.shape ≡ shape_of_plan plan.now }
    requires readers { (0 < plan.now.readers) × (plan.now.readers ≤ 1024) }
    requires room { (plan.now.readers ≤ vec_capacity room) × (vec_len room ≡ 0) }
    ensures fault { MatchResult result (λ _. fault_told (plan.now.readers * plan.now.gets) joined ≡ None) (λ fault. fault_told (plan.now.readers * plan.now.gets) joined ≡ Some fault) }
    ensures report { IfOk result (ComesTo plan.now) }
{
    let Joined {
        outcomes,
        flowed,
        is_whole,
    } = joined;
    let (sums, readers) = collect(outcomes, room);
    let Flowed {
        writer,
        taker: _,
        fills,
        fault,
        guest: _,
    } = flowed;
    let gets = u64::from(plan.readers) * u64::from(plan.gets);
    if let Some(fault) = first_fault(&sums, fault, is_whole, gets) {
        return Err(fault);
    }
    let asked = account(map, writer, readers, sums.sends, fills);
    Ok(LoadReport {
        gets,
        answered: sums.answered,
        sends: sums.sends,
        fills,
        asked,
    })
}

/// Runs a load: opens a map with a slot for each key, each reader and one more, a queue with room for
/// a ticket of each key, and starts a thread for each reader and one for the dataflow. Each reader
/// makes `gets` gets, of keys that it draws. The dataflow answers a trigger in each turn. All memory
/// but a thread's own is asked for before the first one starts. A fault of one ends all, and each
/// thread that was started is joined before the answer, of several faults the first named;
/// `WrongRows` also where gets are missing and nothing tells why. Then all readers are gathered; the
/// report is of one history that has all their calls, and in which each find found the row that the
/// base had then.
pub fn run_load<R: Threads + Wait + Sync, G: Gate + Sync>(
    rt: &R,
    alloc: Global,
    plan: &Plan,
    gate: &G,
) -> Result<LoadReport, LoadFault>
    requires readers { (0 < plan.now.readers) × (plan.now.readers ≤ 1024) }
    requires keys { (0 < plan.now.keys) × (plan.now.keys ≤ 65536) }
    ensures { IfOk result (ComesTo plan.now) }
{
    run_with_window(rt, alloc, plan, 1, gate)
}

/// As `run_load`, but the dataflow takes as many triggers as may be under way, and answers the oldest
/// in each turn.
pub fn run_windowed_load<R: Threads + Wait + Sync, G: Gate + Sync>(
    rt: &R,
    alloc: Global,
    windowed: &WindowedPlan,
    gate: &G,
) -> Result<LoadReport, LoadFault>
    requires readers { (0 < windowed.now.plan.readers) × (windowed.now.plan.readers ≤ 1024) }
    requires keys { (0 < windowed.now.plan.keys) × (windowed.now.plan.keys ≤ 65536) }
    ensures { IfOk result (ComesTo windowed.now.plan) }
{
    run_with_window(rt, alloc, &windowed.plan, windowed.upqueries, gate)
}

// Runs a load with that many upqueries under way at once, or one where that is none.
fn run_with_window<R: Threads + Wait + Sync, G: Gate + Sync>(
    rt: &R,
    alloc: Global,
    plan: &Plan,
    upqueries: u32,
    gate: &G,
) -> Result<LoadReport, LoadFault>
    requires readers { (0 < plan.now.readers) × (plan.now.readers ≤ 1024) }
    requires keys { (0 < plan.now.keys) × (plan.now.keys ≤ 65536) }
    ensures { IfOk result (ComesTo plan.now) }
{
    let Ok(room) = Room::open(alloc, plan.keys, plan.readers) else {
        return Err(LoadFault::Memory);
    };
    let slots = plan.keys + plan.readers + 1;
    let Ok((map, writer, readers)) = ReaderMap::open(alloc, plan.keys, slots, plan.readers, 0)
    else {
        return Err(LoadFault::Memory);
    };
    let Ok((triggers, posters, taker)) = Triggers::open(alloc, plan.keys, plan.readers) else {
        return Err(LoadFault::Memory);
    };
    let Ok(lobby) = Lobby::open(alloc) else {
        return Err(LoadFault::Memory);
    };
    let tokens = Tokens {
        writer,
        taker,
        readers,
        posters,
    };
    let shared = Shared {
        alloc,
        plan: *plan,
        upqueries,
        service: Service::of(map, triggers, lobby),
    };
    let joined = serve_all(rt, gate, &shared, tokens, room.base, room.lists)?;
    settle(shared.service.map(), plan, joined, room.readers)
}
