//! Each absence is asked once, whatever became of the upquery before.
ghost use Rattle.std.specs.Prelude.{◌≡◌, ◌<◌};
ghost use Rattle.nr_idmap.specs.Keepers.{id_rows};

use crate::by_id::opened::{asks, brings, fails, is_idle, misses, takes};
use crate::by_id::scenes::{Scene, plays};
use crate::same::is_same;
use nr_idmap::Evict;
use nr_idserve::{IdClient, IdDataflow};
use nr_serve::Spent;
use std::process::Abort;
use std::sync::Wait;

fn evicts<R: Abort + Wait>(rt: &R, flow: &mut IdDataflow<'_>, id: u64, wanted: Evict)
    requires { 0 < id }
    ensures { flow.new.map ≡ flow.old.map }
{
    is_same(rt, &flow.evict(rt, id), &wanted);
}

// While an id's claim or upquery is open, it is claimed by no other get.
fn is_asked_once<R: Abort + Wait>(rt: &R, client: &mut IdClient<'_>, flow: &mut IdDataflow<'_>)
    requires { 0 < id_rows flow.old.map }
    ensures { flow.new.map ≡ flow.old.map }
{
    is_idle(rt, flow);
    misses(rt, client, 1);
    let upquery = asks(rt, client, flow, 1);
    misses(rt, client, 1);
    is_idle(rt, flow);
    brings(rt, client, flow, upquery, 1, 5);
}

// An upquery is kept, and ended then since a change has overtaken it.
fn is_invalidated<R: Abort + Wait>(rt: &R, flow: &mut IdDataflow<'_>)
    ensures { flow.new.map ≡ flow.old.map }
{
    let upquery = takes(rt, flow);
    match flow.keep(upquery) {
        None => {}
        Some(_before) => panic!(rt; "none was kept"),
    }
    let upquery = takes(rt, flow);
    match flow.invalidate(rt, upquery) {
        Ok(spent) => is_same(rt, &spent, &Spent::Failed),
        Err(_upquery) => panic!(rt; "it is withdrawn"),
    }
}

// An id is asked anew once its upquery ended without rows.
fn fails_and_is_asked_anew<R: Abort + Wait>(
    rt: &R,
    client: &mut IdClient<'_>,
    flow: &mut IdDataflow<'_>,
)
    ensures { flow.new.map ≡ flow.old.map }
{
    let failed = asks(rt, client, flow, 2);
    fails(rt, flow, failed);
    misses(rt, client, 2);
    is_invalidated(rt, flow);
    is_same(rt, &client.failures_for(2), &1);
}

// It is asked anew once its rows are evicted.
fn is_evicted_and_asked_anew<R: Abort + Wait>(
    rt: &R,
    client: &mut IdClient<'_>,
    flow: &mut IdDataflow<'_>,
)
    requires { 0 < id_rows flow.old.map }
{
    let upquery = asks(rt, client, flow, 2);
    evicts(rt, flow, 2, Evict::Nothing);
    brings(rt, client, flow, upquery, 2, 6);
    evicts(rt, flow, 2, Evict::Evicted);
    let again = asks(rt, client, flow, 2);
    brings(rt, client, flow, again, 2, 7);
}

pub(crate) fn asks_once<R: Abort + Wait>(
    rt: &R,
    client: &mut IdClient<'_>,
    flow: &mut IdDataflow<'_>,
)
    requires { 0 < id_rows flow.old.map }
{
    is_asked_once(rt, client, flow);
    fails_and_is_asked_anew(rt, client, flow);
    is_evicted_and_asked_anew(rt, client, flow);
}

#[test]
fn an_absence_is_asked_once(rt: HostRuntime) {
    plays(&rt, Scene::AsksOnce, 1, 4, None);
}
