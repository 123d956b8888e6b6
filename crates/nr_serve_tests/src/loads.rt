//! Whole loads. What is asserted does not depend on how the threads' steps fall.
ghost use Rattle.std.specs.Prelude.{◌<◌, ◌≤◌};

use crate::same::is_same;
use nr_load::{Draws, LoadFault, LoadReport, Plan, WindowedPlan, run_load, run_windowed_load};
use nr_serve::{Gate, OpenGate};
use std::process::Abort;
use std::sync::Wait;
use std::sync::atomic::{AtomicBool, AtomicU64, Ordering};
use std::thread::{self, Threads};

const LOOKS: u32 = 1_000_000;

/// What a gate notes of one reader: the last get in which it came, and the last that was answered.
#[derive(Drop)]
struct Notes {
    came: AtomicU64,
    answered: AtomicU64,
}

impl Notes {
    fn new() -> Notes {
        Notes {
            came: AtomicU64::new(0),
            answered: AtomicU64::new(0),
        }
    }
}

/// Lets each of two readers pass once the other has come in the same get, for which it looks within
/// one call. After it once said no it lets nobody pass.
#[derive(Drop)]
pub(crate) struct Meeting {
    one: Notes,
    two: Notes,
    has_failed: AtomicBool,
}

impl Meeting {
    pub(crate) fn new() -> Meeting {
        Meeting {
            one: Notes::new(),
            two: Notes::new(),
            has_failed: AtomicBool::new(false),
        }
    }

    fn is_there(notes: &Notes, get: u64) -> bool {
        for _ in 0..LOOKS {
            if notes.came.load(Ordering::SeqCst) >= get {
                return true;
            }
            thread::yield_now();
        }
        false
    }

    /// Whether each get up to that was answered once, in order.
    pub(crate) fn are_answered(&self, gets: u64) -> bool {
        !self.has_failed.load(Ordering::SeqCst)
            && self.one.answered.load(Ordering::SeqCst) == gets
            && self.two.answered.load(Ordering::SeqCst) == gets
    }
}

impl Gate for Meeting {
    fn pass(&self, reader: u32, get: u64) -> bool {
        if self.has_failed.load(Ordering::SeqCst) {
            return false;
        }
        let (own, other) = if reader == 1 {
            (&self.one, &self.two)
        } else {
            (&self.two, &self.one)
        };
        own.came.store(get, Ordering::SeqCst);
        if Meeting::is_there(other, get) {
            return true;
        }
        self.has_failed.store(true, Ordering::SeqCst);
        false
    }

    fn answered(&self, reader: u32, get: u64) {
        let own = if reader == 1 { &self.one } else { &self.two };
        let before = own.answered.swap(get, Ordering::SeqCst);
        if before.checked_add(1) != Some(get) {
            self.has_failed.store(true, Ordering::SeqCst);
        }
    }
}

/// The report of a load that comes to its end.
fn reported<R: Threads + Wait + Sync + Abort + AllocGlobal, G: Gate + Sync>(
    rt: &R,
    plan: &Plan,
    gate: &G,
) -> LoadReport
    requires readers { (0 < plan.now.readers) × (plan.now.readers ≤ 1024) }
    requires keys { (0 < plan.now.keys) × (plan.now.keys ≤ 65536) }
{
    match run_load(rt, rt.alloc(), plan, gate) {
        Ok(report) => report,
        Err(fault) => panic!(rt; "the load ended: {fault}"),
    }
}

/// The report of a load that comes to its end, with that many upqueries under way.
fn windowed<R: Threads + Wait + Sync + Abort + AllocGlobal>(
    rt: &R,
    plan: Plan,
    upqueries: u32,
) -> LoadReport
    requires readers { (0 < plan.readers) × (plan.readers ≤ 1024) }
    requires keys { (0 < plan.keys) × (plan.keys ≤ 65536) }
{
    let windowed = WindowedPlan { plan, upqueries };
    match run_windowed_load(rt, rt.alloc(), &windowed, &OpenGate) {
        Ok(report) => report,
        Err(fault) => panic!(rt; "the load ended: {fault}"),
    }
}

/// How many gets were made and answered, and whether the report is in balance.
fn told(report: &LoadReport) -> (u64, u64, bool) {
    (report.gets, report.answered, report.balance())
}

#[test]
fn two_readers_meet_in_one_get(rt: HostRuntime) {
    let meeting = Meeting::new();
    let plan = Plan {
        seed: 1,
        readers: 2,
        keys: 1,
        gets: 1,
    };
    let report = reported(&rt, &plan, &meeting);
    let wanted = LoadReport {
        gets: 2,
        answered: 2,
        sends: 1,
        fills: 1,
        asked: 0,
    };
    is_same(&rt, &(report, meeting.are_answered(1)), &(wanted, true));
}

#[test]
fn two_readers_meet_in_each_of_fifty_gets(rt: HostRuntime) {
    let meeting = Meeting::new();
    let plan = Plan {
        seed: 3,
        readers: 2,
        keys: 8,
        gets: 50,
    };
    let report = reported(&rt, &plan, &meeting);
    is_same(
        &rt,
        &(told(&report), meeting.are_answered(50)),
        &((100, 100, true), true),
    );
}

/// Lets the dataflow run before each answer.
#[derive(Drop)]
struct Yielding;

impl Gate for Yielding {
    fn pass(&self, _reader: u32, _get: u64) -> bool {
        thread::yield_now();
        true
    }

    fn answered(&self, _reader: u32, _get: u64) {}
}

/// Of three keys, so few that none is evicted, each that a reader draws is filled once.
fn of_three_keys(seed: u64) -> LoadReport {
    let mut draws = Draws::open(seed, 1, 3);
    let mut drawn = [false; 3];
    for _ in 0..4 {
        if let Some(is_drawn) = drawn.get_mut(draws.next() as usize) {
            *is_drawn = true;
        }
    }
    let keys = drawn.iter().filter(|drawn| **drawn).count() as u64;
    LoadReport {
        gets: 4,
        answered: 4,
        sends: keys,
        fills: keys,
        asked: 0,
    }
}

#[test]
fn the_draws_are_the_same_however_many_upqueries_are_under_way(rt: HostRuntime) {
    for seed in 0..20 {
        let plan = Plan {
            seed,
            readers: 1,
            keys: 3,
            gets: 4,
        };
        let wanted = of_three_keys(seed);
        is_same(&rt, &reported(&rt, &plan, &OpenGate), &wanted);
        for upqueries in [0, 1, 8, 64, 65536] {
            is_same(&rt, &windowed(&rt, plan, upqueries), &wanted);
        }
    }
}

#[test]
fn many_upqueries_under_way_are_in_balance(rt: HostRuntime) {
    for upqueries in [2, 8, 64] {
        let plan = Plan {
            seed: 9,
            readers: 24,
            keys: 512,
            gets: 100,
        };
        let report = windowed(&rt, plan, upqueries);
        is_same(
            &rt,
            &(told(&report), report.asked),
            &((2400, 2400, true), 0),
        );
    }
}

/// Each fourth of the fills is evicted again, so there are at most ten of eight keys: two evictions
/// leave all eight filled. A load makes fewer where it ends before a key that was evicted is got once
/// more, which not all of them do.
#[test]
fn ten_fills_of_eight_keys_have_two_evictions(rt: HostRuntime) {
    for seed in 0..100 {
        if fills_of(&rt, seed) == 10 {
            return;
        }
    }
    panic!(rt; "no load has both evictions")
}

/// The fills of a load of eight keys, at most ten.
fn fills_of<R: Threads + Wait + Sync + Abort + AllocGlobal>(rt: &R, seed: u64) -> u64 {
    let plan = Plan {
        seed,
        readers: 1,
        keys: 8,
        gets: 400,
    };
    let report = reported(rt, &plan, &Yielding);
    assert!(rt; report.fills <= 10 && report.asked == 0);
    report.fills
}

/// As many readers as there may be, on one key. The system may refuse so many threads.
#[test]
fn a_thousand_readers_on_one_key(rt: HostRuntime) {
    let plan = Plan {
        seed: 1,
        readers: 1024,
        keys: 1,
        gets: 2,
    };
    match run_load(&rt, rt.alloc(), &plan, &OpenGate) {
        Ok(report) => is_same(&rt, &told(&report), &(2048, 2048, true)),
        Err(fault) => is_same(&rt, &fault, &LoadFault::Thread),
    }
}

/// Lets nobody pass.
#[derive(Drop)]
struct ShutGate;

impl Gate for ShutGate {
    fn pass(&self, _reader: u32, _get: u64) -> bool {
        false
    }

    fn answered(&self, _reader: u32, _get: u64) {}
}

#[test]
fn a_gate_that_never_opens_ends_the_load(rt: HostRuntime) {
    let plan = Plan {
        seed: 1,
        readers: 2,
        keys: 1,
        gets: 1,
    };
    let ended = run_load(&rt, rt.alloc(), &plan, &ShutGate);
    is_same(&rt, &ended, &Err(LoadFault::Barred));
}

/// Whichever request for memory is refused, a load says so or is not hurt.
#[test]
fn refused_memory_ends_a_load(rt: HostRuntime) {
    let plan = Plan {
        seed: 5,
        readers: 2,
        keys: 2,
        gets: 3,
    };
    let windowed = WindowedPlan { plan, upqueries: 8 };
    match run_windowed_load(&rt, rt.alloc(), &windowed, &OpenGate) {
        Ok(report) => is_same(&rt, &told(&report), &(6, 6, true)),
        Err(fault) => assert!(rt; matches!(fault, LoadFault::Memory | LoadFault::Thread)),
    }
}

#[test]
fn a_report_that_is_off(rt: HostRuntime) {
    let report = LoadReport {
        gets: 2,
        answered: 2,
        sends: 3,
        fills: 2,
        asked: 1,
    };
    let more = LoadReport { fills: 3, ..report };
    let over = LoadReport {
        sends: 0,
        fills: u64::MAX,
        asked: 1,
        ..report
    };
    is_same(
        &rt,
        &(report.balance(), more.balance(), over.balance()),
        &(true, false, false),
    );
}
