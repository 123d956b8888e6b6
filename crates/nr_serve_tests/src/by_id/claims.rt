//! Several upqueries under way, and claims that the full queue refuses.
ghost use Rattle.std.specs.Prelude.{◌≡◌, ◌<◌};
ghost use Rattle.nr_idmap.specs.Keepers.{id_rows};

use crate::by_id::opened::{KEY, asks, brings, fails, fills, finds_one, is_idle, misses, takes};
use crate::by_id::scenes::{Scene, plays};
use nr_ids::Plan;
use nr_idserve::{IdClient, IdDataflow};
use std::process::Abort;
use std::sync::Wait;

// Three are under way, and end in another order than they were taken in.
pub(crate) fn end_in_any_order<R: Abort + Wait>(
    rt: &R,
    client: &mut IdClient<'_>,
    flow: &mut IdDataflow<'_>,
)
    requires { 0 < id_rows flow.old.map }
{
    let first = asks(rt, client, flow, 1);
    let second = asks(rt, client, flow, 2);
    let third = asks(rt, client, flow, 3);
    fills(rt, flow, third, 30);
    fails(rt, flow, first);
    fills(rt, flow, second, 20);
    finds_one(rt, client, 2, 20);
    finds_one(rt, client, 3, 30);
    let again = asks(rt, client, flow, 1);
    brings(rt, client, flow, again, 1, 10);
}

#[test]
fn upqueries_end_in_any_order(rt: HostRuntime) {
    plays(&rt, Scene::EndsInAnyOrder, 1, 4, None);
}

// The queue has a place for one claim. The second is kept, and posted by the next get.
pub(crate) fn keeps_and_posts<R: Abort + Wait>(
    rt: &R,
    client: &mut IdClient<'_>,
    flow: &mut IdDataflow<'_>,
)
    requires { 0 < id_rows flow.old.map }
{
    misses(rt, client, 7);
    misses(rt, client, 42);
    misses(rt, client, 42);
    let first = takes(rt, flow);
    is_idle(rt, flow);
    brings(rt, client, flow, first, 7, 7);
    let second = takes(rt, flow);
    brings(rt, client, flow, second, 42, 42);
}

// Ids 7 and 42 are in two groups, so both can be claimed at once.
#[test]
fn a_claim_that_the_queue_refuses_is_kept(rt: HostRuntime) {
    let plan = Plan {
        groups: 2,
        key: KEY,
    };
    assert!(&rt; plan.group_of(7) != plan.group_of(42));
    plays(&rt, Scene::KeepsClaim, 2, 1, None);
}
