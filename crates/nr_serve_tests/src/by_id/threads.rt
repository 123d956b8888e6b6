//! Two clients, which want few ids, and a dataflow whose source is slow and fails at times, each in a
//! thread. What is asserted does not depend on how their steps fall.
ghost use Rattle.std.specs.Prelude.{◌≡◌, ◌<◌};
ghost use Rattle.nr_idmap.specs.Keepers.{id_rows};

use crate::by_id::opened::{
    Asking, Serving, Without, end_client, end_flow, fails, fills, opened, take_by,
};
use crate::same::is_same;
use nr_idmap::{Evict, Upquery};
use nr_idserve::{GotId, IdClient, IdDataflow, NoVictims};
use nr_model::{Row, RowSet};
use std::process::Abort;
use std::sync::Wait;
use std::sync::atomic::{AtomicU64, Ordering};
use std::thread::{self, Threads, join};

const IDS: u64 = 3;

/// How often a client wants an id.
const TURNS: u64 = 2_000;

// Gets the ids in turn, as one of so many clients that still want ids.
fn wants<R: Abort + Wait>(rt: &R, asking: Asking<'_>, left: &AtomicU64) {
    let mut client = asking.opens();
    let mut had: u64 = 0;
    for turn in 0..TURNS {
        if has_found(rt, &mut client, 1 + turn % IDS) {
            had = had.saturating_add(1);
        }
    }
    is_same(rt, &(had > 0), &true);
    end_client(client);
    left.fetch_sub(1, Ordering::SeqCst);
}

// Whether a get found the id's rows.
fn has_found<R: Abort + Wait>(rt: &R, client: &mut IdClient<'_>, id: u64) -> bool
    requires { 0 < id }
{
    let mut rows = RowSet::new();
    if client.get(rt, id, 1_000, &mut rows) != GotId::Rows {
        return false;
    }
    is_same(rt, &rows.get(0), &Some(Row { a: 1, b: id }));
    true
}

// Answers an upquery, or fails each fifth one: whether it was filled. Its id had none before.
fn answers<R: Abort + Wait>(
    rt: &R,
    flow: &mut IdDataflow<'_>,
    upquery: Upquery,
    asked: u64,
    resident: &mut [bool; 4],
)
    requires own { upquery.table ≡ flow.old.map }
    requires room { 0 < id_rows flow.old.map }
    ensures places { flow.new.map ≡ flow.old.map }
{
    let id = upquery.id();
    let at = (id % 4) as usize;
    assert!(rt; !resident[at]);
    thread::yield_now();
    if asked % 5 == 4 {
        fails(rt, flow, upquery);
    } else {
        fills(rt, flow, upquery, id);
        resident[at] = true;
    }
}

// Evicts one of the ids.
fn evicts<R: Wait>(rt: &R, flow: &mut IdDataflow<'_>, asked: u64, resident: &mut [bool; 4])
    ensures places { flow.new.map ≡ flow.old.map }
{
    let id = 1 + asked % IDS;
    if flow.evict(rt, id) == Evict::Evicted {
        resident[(id % 4) as usize] = false;
    }
}

// What it makes of the next claim, if there is one: whether there was.
fn serves_next<R: Abort + Wait>(
    rt: &R,
    flow: &mut IdDataflow<'_>,
    asked: u64,
    resident: &mut [bool; 4],
) -> bool
    requires { 0 < id_rows flow.old.map }
    ensures { flow.new.map ≡ flow.old.map }
{
    match take_by(rt, flow, &mut NoVictims) {
        Ok(upquery) => {
            answers(rt, flow, upquery, asked, resident);
            true
        }
        Err(Without::Idle) => false,
        Err(Without::Passed(_) | Without::Full(_)) => panic!(rt; "each claim is admitted"),
    }
}

// Answers claims until nobody wants ids.
fn serves<R: Abort + Wait>(rt: &R, serving: Serving<'_>, left: &AtomicU64) {
    let mut flow = serving.opens();
    let mut resident = [false; 4];
    let mut asked: u64 = 0;
    for _ in rt.forever() {
        if serves_next(rt, &mut flow, asked, &mut resident) {
            asked = asked.saturating_add(1);
        } else if left.load(Ordering::SeqCst) == 0 {
            break;
        } else {
            thread::yield_now();
        }
        evicts(rt, &mut flow, asked, &mut resident);
    }
    is_same(rt, &(asked > 0, end_flow(rt, flow)), &(true, None));
}

fn both_want<R: Threads + Abort + Wait + Sync>(
    rt: &R,
    one: Asking<'_>,
    two: Asking<'_>,
    left: &AtomicU64,
) {
    join(
        rt,
        move || wants(rt, one, left),
        move || wants(rt, two, left),
    );
}

fn all_at_once<R: Threads + Abort + Wait + Sync>(
    rt: &R,
    (one, two, serving): (Asking<'_>, Asking<'_>, Serving<'_>),
    left: &AtomicU64,
) {
    join(
        rt,
        move || serves(rt, serving, left),
        move || both_want(rt, one, two, left),
    );
}

#[test]
fn each_absence_is_asked_once(rt: HostRuntime) {
    let (service, tokens) = opened(&rt, 1, 1);
    all_at_once(&rt, tokens.sides(&service), &AtomicU64::new(2));
}
