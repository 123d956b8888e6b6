//! Groups whose ways all have names: an id of one waits until another is evicted.
ghost use Rattle.std.specs.Prelude.{◌≡◌, ◌<◌, All};
ghost use Rattle.nr_idmap.specs.Keepers.{id_rows};

use crate::by_id::opened::{asks, fills, finds_one, is_full, misses, take_by};
use crate::by_id::scenes::{Scene, plays};
use nr_idserve::{AnyVictim, IdClient, IdDataflow, NoVictims, Victims};
use std::process::Abort;
use std::sync::Wait;

/// That id may go.
#[derive(Drop)]
struct Only {
    id: u64,
}

impl Victims for Only {
    fn may_go(&mut self, id: u64) -> bool {
        id == self.id
    }
}

// The next take finds an upquery, for which these let an id go. It is filled with the row `1:9`.
fn fills_next<V: Victims, R: Abort + Wait>(rt: &R, flow: &mut IdDataflow<'_>, victims: &mut V)
    requires { 0 < id_rows flow.old.map }
    ensures { flow.new.map ≡ flow.old.map }
{
    match take_by(rt, flow, victims) {
        Ok(upquery) => fills(rt, flow, upquery, 9),
        Err(_) => panic!(rt; "an upquery"),
    }
}

// These ids are filled, each with the row `1:5`.
fn fills_all<R: Abort + Wait>(
    rt: &R,
    client: &mut IdClient<'_>,
    flow: &mut IdDataflow<'_>,
    ids: &[u64],
)
    requires room { 0 < id_rows flow.old.map }
    requires ids { All (λ id. 0 < id) ids.now }
    ensures { flow.new.map ≡ flow.old.map }
{
    for id in ids {
        let upquery = asks(rt, client, flow, *id);
        fills(rt, flow, upquery, 5);
    }
}

// The ways get their names from the last to the first, and are chosen from the first on.
pub(crate) fn makes_room<R: Abort + Wait>(
    rt: &R,
    client: &mut IdClient<'_>,
    flow: &mut IdDataflow<'_>,
)
    requires { 0 < id_rows flow.old.map }
{
    fills_all(rt, client, flow, &[1, 2, 3, 4, 5, 6, 7, 8]);
    misses(rt, client, 9);
    is_full(rt, flow, &mut NoVictims, 9);
    is_full(rt, flow, &mut Only { id: 8 }, 9);
    fills_next(rt, flow, &mut Only { id: 6 });
    finds_one(rt, client, 9, 9);
    misses(rt, client, 6);
    is_full(rt, flow, &mut NoVictims, 6);
}

// Ids 16 and 20 are of group 1, and have the first ways of group 0, which is that of the first six and of 14.
pub(crate) fn makes_room_of_a_second<R: Abort + Wait>(
    rt: &R,
    client: &mut IdClient<'_>,
    flow: &mut IdDataflow<'_>,
)
    requires { 0 < id_rows flow.old.map }
{
    fills_all(
        rt,
        client,
        flow,
        &[2, 3, 6, 7, 10, 11, 1, 4, 5, 8, 9, 12, 13, 16, 17, 20],
    );
    misses(rt, client, 14);
    fills_next(rt, flow, &mut AnyVictim);
    finds_one(rt, client, 14, 9);
    misses(rt, client, 20);
    is_full(rt, flow, &mut NoVictims, 20);
}

#[test]
fn a_full_group_makes_room(rt: HostRuntime) {
    plays(&rt, Scene::MakesRoom, 1, 4, Some(6));
}

#[test]
fn an_id_of_another_group_makes_room(rt: HostRuntime) {
    plays(&rt, Scene::MakesRoomOfSecond, 2, 4, Some(20));
}
