//! Scenes that a client and a dataflow by id play in one thread.
ghost use Rattle.std.specs.Prelude.{◌≡◌, ◌<◌};
ghost use Rattle.nr_idmap.specs.Keepers.{id_rows};

use crate::by_id::opened::{ends, opened};
use crate::by_id::{absences, changes, claims, rooms, sleeps, turns};
use nr_idserve::{IdClient, IdDataflow};
use nr_serve::Lobby;
use std::process::Abort;
use std::sync::Wait;
use std::time::Clock;

/// What they do, one call after another.
#[derive(Clone, Copy)]
pub(crate) enum Scene {
    AsksOnce,
    ChangesRows,
    EndsInAnyOrder,
    KeepsClaim,
    MakesRoom,
    MakesRoomOfSecond,
    AsksSource,
    IsLate,
}

impl Scene {
    fn play<R: Abort + Wait + Clock>(
        self,
        rt: &R,
        lobby: &Lobby,
        client: &mut IdClient<'_>,
        flow: &mut IdDataflow<'_>,
    )
        requires map { flow.old.map ≡ client.old.map }
        requires room { 0 < id_rows flow.old.map }
    {
        match self {
            Scene::AsksOnce => absences::asks_once(rt, client, flow),
            Scene::ChangesRows => changes::changes_and_tells(rt, client, flow),
            Scene::EndsInAnyOrder => claims::end_in_any_order(rt, client, flow),
            Scene::KeepsClaim => claims::keeps_and_posts(rt, client, flow),
            Scene::MakesRoom => rooms::makes_room(rt, client, flow),
            Scene::MakesRoomOfSecond => rooms::makes_room_of_a_second(rt, client, flow),
            Scene::AsksSource => turns::asks_its_source(rt, lobby, client, flow),
            Scene::IsLate => sleeps::is_late(rt, client, flow),
        }
    }
}

/// A scene in a service of so many groups, whose queue has that many places. At its end the client keeps no claim, and
/// the dataflow that one, if any.
pub(crate) fn plays<R: Abort + Wait + Clock + AllocGlobal>(
    rt: &R,
    scene: Scene,
    groups: u32,
    capacity: u32,
    kept: Option<u64>,
) {
    let (service, tokens) = opened(rt, groups, capacity);
    let (mut client, mut flow) = tokens.opens(&service);
    scene.play(rt, service.lobby(), &mut client, &mut flow);
    ends(rt, client, flow, kept);
    let (_map, _claims, _lobby) = service.into_parts();
}
