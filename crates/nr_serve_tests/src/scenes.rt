//! What a client and a dataflow do between them, one call after another.
ghost use Rattle.std.specs.Prelude.{◌≡◌};

use crate::gates::Noting;
use crate::opened::{Plain, end_client, end_flow, gets, misses, opened, turns};
use crate::same::is_same;
use nr_map::{Evict, NoSlot};
use nr_model::{Delta, Row, RowSet};
use nr_serve::{Client, Dataflow, Got, Lobby, Turn};
use std::process::Abort;
use std::sync::Wait;

/// What is added to the row `0:5`, with which key 0 is filled.
const ADDED: Row = Row { a: 1, b: 7 };

// A get that would sleep, if the lobby were open.
fn gives_up<R: Abort + Wait>(rt: &R, lobby: &Lobby, client: &mut Client<'_, Noting>)
    requires { client.old.map.shape.keys ≡ 2 }
{
    lobby.close(rt);
    is_same(rt, &client.get(rt, 0, 3, &mut RowSet::new()), &Got::GaveUp);
}

// The gate lets nobody pass, and then everybody.
fn is_barred_and_passes<R: Abort + Wait>(
    rt: &R,
    gate: &Noting,
    client: &mut Client<'_, Noting>,
    flow: &mut Dataflow<'_, Plain>,
)
    requires { client.old.map.shape.keys ≡ 2 }
{
    misses(rt, client, 0);
    turns(rt, flow, Turn::Filled(0));
    gets(rt, client, 0, &mut RowSet::new(), Got::Barred);
    is_same(rt, &gate.noted(), &(1_000_000, 0));
    gets(rt, client, 0, &mut RowSet::new(), Got::Rows);
    is_same(rt, &gate.noted(), &(1_000_001, 1));
}

// There is one slot, which key 0 has until it is evicted. The source was told the map's bound on rows.
fn keeps_its_trigger<R: Abort + Wait>(
    rt: &R,
    client: &mut Client<'_, Noting>,
    flow: &mut Dataflow<'_, Plain>,
)
    requires client { client.old.map.shape.keys ≡ 2 }
    requires flow { flow.old.map.shape.keys ≡ 2 }
{
    misses(rt, client, 0);
    misses(rt, client, 1);
    turns(rt, flow, Turn::Filled(0));
    turns(rt, flow, Turn::Kept(NoSlot { live: 1, held: 0 }));
    is_same(rt, &flow.evict(0), &Evict::Evicted);
    turns(rt, flow, Turn::Filled(1));
    let bound = flow.source().bound;
    is_same(rt, &bound, &15);
}

// The client is told of what the dataflow applied, and finds it.
fn hears_and_finds<R: Abort + Wait>(
    rt: &R,
    client: &mut Client<'_, Noting>,
    flow: &mut Dataflow<'_, Plain>,
)
    requires client { client.old.map.shape.keys ≡ 2 }
    requires flow { flow.old.map ≡ client.old.map }
{
    misses(rt, client, 0);
    turns(rt, flow, Turn::Filled(0));
    let more = Delta {
        plus: true,
        row: ADDED,
    };
    let applied = flow.apply_rows(0, &[more]);
    client.hear(flow.note());
    let mut rows = RowSet::new();
    gets(rt, client, 0, &mut rows, Got::Rows);
    is_same(rt, &(applied.is_ok(), rows.get(1)), &(true, Some(ADDED)));
}

#[derive(Clone, Copy)]
enum Scene {
    GivesUp,
    IsBarred,
    KeepsTrigger,
    HearsAndFinds,
}

impl Scene {
    fn play<R: Abort + Wait>(
        self,
        rt: &R,
        lobby: &Lobby,
        gate: &Noting,
        client: &mut Client<'_, Noting>,
        flow: &mut Dataflow<'_, Plain>,
    )
        requires client { client.old.map.shape.keys ≡ 2 }
        requires flow { flow.old.map ≡ client.old.map }
    {
        match self {
            Scene::GivesUp => gives_up(rt, lobby, client),
            Scene::IsBarred => is_barred_and_passes(rt, gate, client, flow),
            Scene::KeepsTrigger => keeps_its_trigger(rt, client, flow),
            Scene::HearsAndFinds => hears_and_finds(rt, client, flow),
        }
    }
}

// In a map of that many slots, with a gate that lets the client pass from its get of that number on.
fn plays<R: Abort + Wait + AllocGlobal>(rt: &R, scene: Scene, slots: u32, first: u64) {
    let (service, tokens) = opened(rt, slots);
    let gate = Noting::from(first);
    let (mut client, mut flow) = tokens.opens(&service, &gate, Plain { bound: 0 });
    scene.play(rt, service.lobby(), &gate, &mut client, &mut flow);
    end_client(client);
    end_flow(flow);
}

#[test]
fn nobody_sleeps_in_a_closed_lobby(rt: HostRuntime) {
    plays(&rt, Scene::GivesUp, 4, 1);
}

#[test]
fn a_gate_that_never_lets_pass_bars_a_get(rt: HostRuntime) {
    plays(&rt, Scene::IsBarred, 4, 3);
}

#[test]
fn a_turn_without_a_slot_keeps_its_trigger(rt: HostRuntime) {
    plays(&rt, Scene::KeepsTrigger, 1, 1);
}

#[test]
fn a_client_that_is_told_finds_what_was_applied(rt: HostRuntime) {
    plays(&rt, Scene::HearsAndFinds, 4, 1);
}
