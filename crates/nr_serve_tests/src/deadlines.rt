//! Gets with a limit of time: those that are too late, and those that end before, with rows or without.
ghost use Rattle.std.specs.Prelude.{◌≡◌, ◌<◌};

use crate::opened::{Asking, Plain, Serving, end_both, end_client, end_flow, one_row, opened};
use crate::same::is_same;
use nr_model::Row;
use nr_serve::{Client, Dataflow, Got, OpenGate, Turn};
use std::process::Abort;
use std::sync::Wait;
use std::thread::{self, Threads};
use std::time::{Clock, Duration, Instant};

/// How a get ended, or None where it was too late.
type Ended = Option<Got>;

// A time so many milliseconds from now.
fn in_millis<R: Clock>(rt: &R, millis: u64) -> Option<Instant> {
    Instant::now(rt)
        .ok()?
        .checked_add(Duration::from_millis(millis))
}

// Gets key 0 until that many milliseconds from now, with the row `9:9` in its set before: how it ended, and the first row
// of its set then.
fn gets_in<R: Wait + Clock>(
    rt: &R,
    client: &mut Client<'_, OpenGate>,
    millis: u64,
    tries: u32,
) -> (Ended, Option<Row>)
    requires { 0 < client.old.map.shape.keys }
    ensures { client.new.map ≡ client.old.map }
{
    let mut rows = one_row(9, 9);
    let Some(until) = in_millis(rt, millis) else {
        return (Some(Got::Barred), None);
    };
    match client.get_until(rt, 0, tries, &mut rows, until) {
        Ok(got) => (Some(got), rows.get(0)),
        Err(_late) => (None, rows.get(0)),
    }
}

// A get is too late, also where the time is past before; one that doesn't sleep never is. Its ticket is filled later.
fn is_late_and_filled<R: Abort + Wait + Clock>(
    rt: &R,
    client: &mut Client<'_, OpenGate>,
    flow: &mut Dataflow<'_, Plain>,
)
    requires client { client.old.map.shape.keys ≡ 2 }
    requires flow { flow.old.map ≡ client.old.map }
{
    let unchanged = Some(Row { a: 9, b: 9 });
    is_same(rt, &gets_in(rt, client, 20, 10), &(None, unchanged));
    is_same(rt, &gets_in(rt, client, 0, 10), &(None, unchanged));
    is_same(
        rt,
        &gets_in(rt, client, 0, 1),
        &(Some(Got::GaveUp), unchanged),
    );
    is_same(rt, &(client.sends(), flow.turn(rt)), &(1, Turn::Filled(0)));
    let filled = Some(Row { a: 0, b: 5 });
    is_same(rt, &gets_in(rt, client, 0, 10), &(Some(Got::Rows), filled));
}

#[test]
fn a_get_that_sleeps_too_long_is_too_late(rt: HostRuntime) {
    let (service, tokens) = opened(&rt, 4);
    let (mut client, mut flow) = tokens.opens(&service, &OpenGate, Plain { bound: 0 });
    is_late_and_filled(&rt, &mut client, &mut flow);
    end_both(&rt, client, flow);
}

// Gets key 0 within a minute.
fn gets_soon<R: Wait + Clock>(rt: &R, asking: Asking<'_>) -> (Ended, Option<Row>) {
    let gate = OpenGate;
    let mut client = asking.opens(&gate);
    let ended = gets_in(rt, &mut client, 60_000, 10);
    end_client(client);
    ended
}

// Fills key 0 once it is asked for, and a client that waits for it sleeps.
fn fills_later<R: Wait + Clock>(rt: &R, serving: Serving<'_>) {
    let mut flow = serving.opens(Plain { bound: 0 });
    for _ in 0..1_000 {
        thread::sleep(rt, Duration::from_millis(50));
        if flow.turn(rt) == Turn::Filled(0) {
            break;
        }
    }
    end_flow(flow);
}

fn is_woken<R: Threads + Wait + Clock + Sync>(
    rt: &R,
    asking: Asking<'_>,
    serving: Serving<'_>,
) -> (Ended, Option<Row>) {
    let (ended, ()) = thread::join(
        rt,
        move || gets_soon(rt, asking),
        move || fills_later(rt, serving),
    );
    ended
}

// It would sleep for a minute otherwise, as long as a test may take.
#[test]
fn a_fill_ends_a_sleep_before_its_time(rt: HostRuntime) {
    let (service, tokens) = opened(&rt, 4);
    let (asking, serving) = tokens.sides(&service);
    let ended = is_woken(&rt, asking, serving);
    is_same(&rt, &ended, &(Some(Got::Rows), Some(Row { a: 0, b: 5 })));
}
