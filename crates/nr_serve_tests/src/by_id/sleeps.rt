//! Clients that sleep: until a time, and until an id of their group is evicted; and a dataflow that sleeps.
ghost use Rattle.std.specs.Prelude.{◌≡◌, ◌<◌, None};
ghost use Rattle.nr_idmap.specs.Keepers.{id_rows};

use crate::by_id::opened::{
    Asking, Serving, Without, end_client, end_flow, fills, misses, opened, take_by, takes,
};
use crate::by_id::scenes::{Scene, plays};
use crate::same::is_same;
use nr_idmap::Evict;
use nr_idserve::{GotId, IdClient, IdDataflow, NoVictims, Taken};
use nr_model::RowSet;
use std::process::Abort;
use std::sync::Wait;
use std::thread::{Threads, join};
use std::time::{Clock, Instant};

// A get until now: how it ended, or None where a sleep timed out.
fn gets_now<R: Abort + Wait + Clock>(
    rt: &R,
    client: &mut IdClient<'_>,
    id: u64,
    tries: u32,
) -> Option<GotId>
    requires { 0 < id }
{
    let until = Instant::now(rt).expect(rt, "a clock");
    let mut rows = RowSet::new();
    client.get_until(rt, id, tries, &mut rows, until).ok()
}

// A get that sleeps is too late, one that needn't isn't. The claim stays, and is answered later.
pub(crate) fn is_late<R: Abort + Wait + Clock>(
    rt: &R,
    client: &mut IdClient<'_>,
    flow: &mut IdDataflow<'_>,
)
    requires { 0 < id_rows flow.old.map }
{
    is_same(rt, &gets_now(rt, client, 1, 2), &None);
    is_same(rt, &gets_now(rt, client, 1, 1), &Some(GotId::GaveUp));
    let upquery = takes(rt, flow);
    fills(rt, flow, upquery, 5);
    is_same(rt, &gets_now(rt, client, 1, 2), &Some(GotId::Rows));
}

#[test]
fn a_get_is_too_late(rt: HostRuntime) {
    plays(&rt, Scene::IsLate, 1, 4, None);
}

// Wants id 9, which nobody brings, by two tries. It sleeps between them.
fn waits<R: Abort + Wait>(rt: &R, asking: Asking<'_>) {
    let mut client = asking.opens();
    let mut rows = RowSet::new();
    is_same(rt, &client.get(rt, 9, 2, &mut rows), &GotId::GaveUp);
    is_same(rt, &end_client(client), &false);
}

// Takes until the claim of id 9 has come, for which its group has no way.
fn is_full<R: Abort + Wait>(rt: &R, flow: &mut IdDataflow<'_>) {
    for _ in rt.forever() {
        match take_by(rt, flow, &mut NoVictims) {
            Ok(_upquery) => panic!(rt; "no upquery"),
            Err(Without::Full(_)) => return,
            Err(Without::Idle) => std::thread::yield_now(),
            Err(Without::Passed(_)) => panic!(rt; "the claim is open"),
        }
    }
}

// Evicts an id of that group then.
fn evicts<R: Abort + Wait>(rt: &R, serving: Serving<'_>) {
    let mut flow = serving.opens();
    is_full(rt, &mut flow);
    is_same(rt, &flow.evict(rt, 4), &Evict::Evicted);
    is_same(rt, &end_flow(rt, flow), &Some(9));
}

// Ids 1 to 8 are filled, and the tokens come back.
fn fills_group<'a, R: Abort + Wait>(
    rt: &R,
    asking: Asking<'_>,
    serving: Serving<'a>,
) -> Serving<'a> {
    let service = serving.service;
    let mut client = asking.opens();
    let mut flow = serving.opens();
    for id in 1..9 {
        misses(rt, &mut client, id);
        let upquery = takes(rt, &mut flow);
        fills(rt, &mut flow, upquery, 5);
    }
    is_same(rt, &end_client(client), &false);
    let (writer, taker, kept, _refused) = flow.end();
    match kept {
        None => Serving {
            service,
            writer,
            taker,
        },
        Some(_upquery) => panic!(rt; "an upquery is kept"),
    }
}

fn both<R: Threads + Abort + Wait + Sync>(rt: &R, asking: Asking<'_>, serving: Serving<'_>) {
    join(rt, move || waits(rt, asking), move || evicts(rt, serving));
}

// The get of id 9 would sleep for ever, were the lobby raised by admissions, fills and withdrawals alone.
#[test]
fn an_eviction_wakes_who_sleeps(rt: HostRuntime) {
    let (service, tokens) = opened(&rt, 1, 4);
    let (filling, asking, serving) = tokens.sides(&service);
    let serving = fills_group(&rt, filling, serving);
    both(&rt, asking, serving);
}

// Sleeps after an idle take. Nobody sleeps in a closed lobby.
fn sleeps_if_idle<R: Abort + Wait>(rt: &R, flow: &mut IdDataflow<'_>)
    requires { (flow.old.kept ≡ None) × (flow.old.refused ≡ None) }
{
    let rung = flow.rings();
    match flow.take(rt, &mut NoVictims) {
        Taken::Idle => flow.sleep(rt, &rung),
        Taken::Asked(_upquery) => panic!(rt; "no upquery"),
        Taken::Passed(_) | Taken::Full(_) => panic!(rt; "no claim"),
    }
}

#[test]
fn an_idle_dataflow_sleeps(rt: HostRuntime) {
    let (service, tokens) = opened(&rt, 1, 4);
    service.lobby().close(&rt);
    let (_one, _two, serving) = tokens.sides(&service);
    let mut flow = serving.opens();
    sleeps_if_idle(&rt, &mut flow);
    is_same(&rt, &end_flow(&rt, flow), &None);
}
