//! The lobby, the dataflow and its clients.
ghost use Rattle.std.specs.Prelude.{◌≡◌};

use crate::opened::one_row;
use crate::parts::Parts;
use crate::same::is_same;
use nr_map::{Evict, Reader, Ticket, UpdateFault, Writer};
use nr_model::{Batch, Delta, Row, RowSet};
use nr_serve::{Client, Dataflow, Gate, Got, Lobby, OpenGate, Source, Turn};
use nr_trigger::{Poster, Taker, Trigger};
use std::process::Abort;
use std::sync::Wait;

/// Key `k` has the one row `k:5`. Counts how often it was asked.
#[derive(Drop)]
struct Base {
    asked: u64,
}

impl Source for Base {
    fn rows(&mut self, key: u32, _bound: u32) -> RowSet {
        self.asked = self.asked.saturating_add(1);
        one_row(u64::from(key), 5)
    }
}

/// Lets the first reader pass.
struct First;

impl Gate for First {
    fn pass(&self, reader: u32, _get: u64) -> bool {
        reader == 1
    }

    fn answered(&self, _reader: u32, _get: u64) {}
}

fn passes<G: Gate>(gate: &G, reader: u32) -> bool {
    let passes: bool = gate.pass(reader, 1);
    gate.answered(reader, 1);
    passes
}

#[test]
fn a_gate_is_asked_and_told(rt: HostRuntime) {
    let told = [passes(&First, 1), passes(&First, 2), passes(&OpenGate, 2)];
    is_same(&rt, &told, &[true, false, true]);
}

#[test]
fn a_lobby_counts_until_it_is_closed(rt: HostRuntime) {
    let lobby: Lobby = Lobby::open(rt.alloc()).expect(&rt, "a lobby");
    let before: u64 = lobby.count(&rt);
    lobby.raise(&rt);
    let raised: u64 = lobby.wait_past(&rt, before);
    let was_closed: bool = lobby.is_closed(&rt);
    lobby.close(&rt);
    let told = (before, raised, was_closed, lobby.is_closed(&rt));
    is_same(&rt, &told, &(0, 1, false, true));
}

// What gets come to before and after a turn, and what that turn and the next do.
fn served<R: Wait>(
    rt: &R,
    client: &mut Client<'_, First>,
    flow: &mut Dataflow<'_, Base>,
) -> ([Got; 2], [Turn; 2])
    requires { client.old.map.shape.keys ≡ 2 }
    ensures { flow.new.map ≡ flow.old.map }
{
    let mut rows = RowSet::new();
    let before: Got = client.get(rt, 0, 1, &mut rows);
    let turn: Turn = flow.turn(rt);
    let next: Turn = flow.turn(rt);
    let after: Got = client.get(rt, 0, 1, &mut rows);
    ([before, after], [turn, next])
}

// What an update and an eviction come to, and how often the source was asked.
fn changed(flow: &mut Dataflow<'_, Base>, batch: &Batch) -> (Result<(), UpdateFault>, Evict, u64)
    requires { flow.old.map.shape.keys ≡ 2 }
{
    let applied: Result<(), UpdateFault> = flow.apply(0, batch);
    let evicted: Evict = flow.evict(0);
    let source: &mut Base = flow.source();
    (applied, evicted, source.asked)
}

// The key of a ticket that a client kept, and of a trigger that a dataflow kept.
fn ticket_left(client: Client<'_, First>) -> Option<u32> {
    let ended: (Reader, Poster, Option<Ticket>) = client.end();
    let (_reader, _poster, ticket) = ended;
    Some(ticket?.into_key())
}

fn trigger_left(flow: Dataflow<'_, Base>) -> Option<u32> {
    let ended: (Writer, Taker, Option<Trigger>, Base) = flow.end();
    let (_writer, _taker, trigger, _source) = ended;
    Some(trigger?.into_key())
}

// A client and a dataflow from their openings to their ends.
fn answers<R: Abort + Wait>(rt: &R, parts: Parts) {
    let Parts {
        map,
        triggers,
        lobby,
        writer,
        taker,
        one,
        two: _,
    } = parts;
    let (reader, poster) = one;
    let mut client: Client<'_, First> = Client::open(
        &map, reader, &triggers, poster, &lobby, &First,
    );
    let base = Base { asked: 0 };
    let mut flow: Dataflow<'_, Base> = Dataflow::open(&map, writer, &triggers, taker, base, &lobby);
    let wanted = ([Got::GaveUp, Got::Rows], [Turn::Filled(0), Turn::Idle]);
    is_same(rt, &served(rt, &mut client, &mut flow), &wanted);
    let plus = Delta {
        plus: true,
        row: Row { a: 9, b: 9 },
    };
    let batch = Batch::of(&[plus]).expect(rt, "a batch");
    is_same(
        rt,
        &changed(&mut flow, &batch),
        &(Ok(()), Evict::Evicted, 1),
    );
    let sends: u64 = client.sends();
    let left = (sends, ticket_left(client), trigger_left(flow));
    is_same(rt, &left, &(1, None, None));
}

#[test]
fn a_dataflow_answers_a_client(rt: HostRuntime) {
    answers(&rt, Parts::open(&rt, 5));
}
