//! Clients and dataflows that sleep, and what wakes them. No clause says that anybody is woken, so here one side gives the
//! other time to fall asleep, and notes whether it comes back before it is helped. On a slow machine the other may not sleep
//! yet, and what is asserted of that holds all the same.
ghost use Rattle.std.specs.Prelude.{◌≡◌};

use crate::opened::{Asking, Plain, Serving, comes, end_client, end_flow, opened};
use crate::same::is_same;
use nr_map::Cancel;
use nr_model::RowSet;
use nr_serve::{Dataflow, Got, Lobby, OpenGate, Turn};
use std::process::Abort;
use std::sync::Wait;
use std::sync::atomic::{AtomicBool, Ordering};
use std::thread::{self, Threads};
use std::time::{Clock, CpuClock, Duration};

const LOOKS: u32 = 10_000;

// For a time in which the other thread goes to sleep.
fn pause<R: Clock>(rt: &R) {
    thread::sleep(rt, Duration::from_millis(50));
}

/// What is to wake a thread that sleeps: what it sleeps for, or the end.
#[derive(Clone, Copy)]
enum Cause {
    Work,
    Close,
    /// The end, after a second in which a thread that doesn't sleep is busy.
    LateClose,
}

// How long this thread has had a processor.
pub(crate) fn busy<R: CpuClock>(rt: &R) -> Duration {
    rt.thread_cpu_time().unwrap_or(Duration::ZERO)
}

// Whether this thread had a processor for less than a tenth of a second since.
fn was_idle<R: CpuClock>(rt: &R, since: Duration) -> bool {
    busy(rt).saturating_sub(since) < Duration::from_millis(100)
}

/// What a client tells that slept: how its get ended, how many requests were sent, and whether it was idle meanwhile.
#[derive(Clone, Copy)]
struct Slept {
    got: Got,
    sends: u64,
    is_idle: bool,
}

// Gets key 0 in that many tries, and tells that it came back.
fn gets<R: Wait + CpuClock>(rt: &R, asking: Asking<'_>, tries: u32, came: &AtomicBool) -> Slept {
    let gate = OpenGate;
    let mut client = asking.opens(&gate);
    let mut rows = RowSet::new();
    let since = busy(rt);
    let got = client.get(rt, 0, tries, &mut rows);
    let is_idle = was_idle(rt, since);
    let sends = client.sends();
    end_client(client);
    came.store(true, Ordering::SeqCst);
    Slept {
        got,
        sends,
        is_idle,
    }
}

// One turn, which sleeps where nothing is posted; and tells that it came back, and whether it was idle.
fn turns<R: Wait + CpuClock>(rt: &R, serving: Serving<'_>, came: &AtomicBool) -> bool {
    let mut flow = serving.opens(Plain { bound: 0 });
    let since = busy(rt);
    flow.turn_or_sleep(rt);
    let is_idle = was_idle(rt, since);
    end_flow(flow);
    came.store(true, Ordering::SeqCst);
    is_idle
}

// Takes the request of key 0 back, once there is one.
fn cancels<R: Wait + Clock>(rt: &R, flow: &mut Dataflow<'_, Plain>)
    requires { flow.old.map.shape.keys ≡ 2 }
{
    for _ in 0..LOOKS {
        if flow.cancel(rt, 0) == Cancel::Cancelled {
            return;
        }
        pause(rt);
    }
}

// Takes back the request of a client, which is to ask for key 0 once more, and fills the key then.
fn cancels_and_fills<R: Wait + Clock>(rt: &R, serving: Serving<'_>) {
    let mut flow = serving.opens(Plain { bound: 0 });
    cancels(rt, &mut flow);
    for _ in 0..LOOKS {
        pause(rt);
        if flow.turn(rt) == Turn::Filled(0) {
            break;
        }
    }
    end_flow(flow);
}

// Closes the lobby, after a second if it is late.
fn closes<R: Wait + Clock>(rt: &R, lobby: &Lobby, is_late: bool) {
    if is_late {
        thread::sleep(rt, Duration::from_secs(1));
    }
    lobby.close(rt);
}

// Lets a client sleep, wakes it, and tells whether it came back before it was helped.
fn wakes_client<R: Wait + Clock>(
    rt: &R,
    serving: Serving<'_>,
    cause: Cause,
    came: &AtomicBool,
) -> bool {
    pause(rt);
    let lobby = serving.service.lobby();
    match cause {
        Cause::Work => cancels_and_fills(rt, serving),
        Cause::Close => closes(rt, lobby, false),
        Cause::LateClose => closes(rt, lobby, true),
    }
    let is_awake = comes(rt, came);
    lobby.close(rt);
    lobby.raise_for(rt, &mut lobby.guest(), 0);
    is_awake
}

// Gives a dataflow work.
fn asks<R: Wait + CpuClock>(rt: &R, asking: Asking<'_>) {
    gets(rt, asking, 1, &AtomicBool::new(false));
}

// Lets a dataflow sleep, wakes it, and tells whether it came back before it was helped.
fn wakes_flow<R: Wait + Clock + CpuClock>(
    rt: &R,
    asking: Asking<'_>,
    cause: Cause,
    came: &AtomicBool,
) -> bool {
    pause(rt);
    let lobby = asking.service.lobby();
    match cause {
        Cause::Work => asks(rt, asking),
        Cause::Close => closes(rt, lobby, false),
        Cause::LateClose => closes(rt, lobby, true),
    }
    let is_awake = comes(rt, came);
    lobby.close(rt);
    lobby.ring(rt, &mut lobby.guest());
    is_awake
}

// What a client tells that slept, and whether it was woken. The other side has a thread of its own.
fn client_sleeps<R: Threads + Wait + Clock + CpuClock + Sync>(
    rt: &R,
    asking: Asking<'_>,
    serving: Serving<'_>,
    cause: Cause,
) -> Option<(Slept, bool)> {
    let came = AtomicBool::new(false);
    let came = &came;
    thread::scope(thread::scope_env(), rt, |scope| -> Option<(Slept, bool)> {
        let Ok(other) = scope.spawn(move || wakes_client(rt, serving, cause, came)) else {
            return None;
        };
        let slept = gets(rt, asking, 10, came);
        Some((slept, other.join(rt)))
    })
}

// Whether a dataflow that slept was idle, and was woken. The other side has a thread of its own.
fn flow_sleeps<R: Threads + Wait + Clock + CpuClock + Sync>(
    rt: &R,
    asking: Asking<'_>,
    serving: Serving<'_>,
    cause: Cause,
) -> Option<(bool, bool)> {
    let came = AtomicBool::new(false);
    let came = &came;
    thread::scope(thread::scope_env(), rt, |scope| -> Option<(bool, bool)> {
        let Ok(other) = scope.spawn(move || wakes_flow(rt, asking, cause, came)) else {
            return None;
        };
        let is_idle = turns(rt, serving, came);
        Some((is_idle, other.join(rt)))
    })
}

// A client comes back by that cause, idle until then, and its get ends so.
fn client_is_woken<R: Threads + Wait + Clock + CpuClock + Sync + AllocGlobal + Abort>(
    rt: &R,
    cause: Cause,
    got: Got,
    sends: u64,
) {
    let (service, tokens) = opened(rt, 4);
    let (asking, serving) = tokens.sides(&service);
    let Some((slept, is_awake)) = client_sleeps(rt, asking, serving, cause) else {
        panic!(rt; "a thread was refused");
    };
    is_same(rt, &(slept.got, slept.sends), &(got, sends));
    is_same(rt, &(slept.is_idle, is_awake), &(true, true));
}

// A dataflow comes back by that cause, idle until then.
fn flow_is_woken<R: Threads + Wait + Clock + CpuClock + Sync + AllocGlobal + Abort>(
    rt: &R,
    cause: Cause,
) {
    let (service, tokens) = opened(rt, 4);
    let (asking, serving) = tokens.sides(&service);
    let woken = flow_sleeps(rt, asking, serving, cause);
    is_same(rt, &woken, &Some((true, true)));
}

// The client requests the key twice, since the first request was taken back.
#[test]
fn a_cancel_and_a_fill_wake_a_client(rt: HostRuntime) {
    client_is_woken(&rt, Cause::Work, Got::Rows, 2);
}

#[test]
fn a_close_wakes_a_client(rt: HostRuntime) {
    client_is_woken(&rt, Cause::Close, Got::GaveUp, 1);
}

// A client that waits for a second has a processor for next to none of it.
#[test]
fn a_client_that_waits_is_idle(rt: HostRuntime) {
    client_is_woken(&rt, Cause::LateClose, Got::GaveUp, 1);
}

#[test]
fn a_post_wakes_a_dataflow(rt: HostRuntime) {
    flow_is_woken(&rt, Cause::Work);
}

#[test]
fn a_close_wakes_a_dataflow(rt: HostRuntime) {
    flow_is_woken(&rt, Cause::Close);
}

#[test]
fn a_dataflow_that_waits_is_idle(rt: HostRuntime) {
    flow_is_woken(&rt, Cause::LateClose);
}
