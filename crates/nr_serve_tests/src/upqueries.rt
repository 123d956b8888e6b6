//! Triggers that are taken at once and spent later, in any order, and a source that fails.
ghost use Rattle.std.specs.Prelude.{◌≡◌, ◌<◌, IfSome, None};

use crate::gates::Noting;
use crate::opened::{Tokens, end_both, gets, misses, one_row, opened, opened_from};
use crate::same::{are_same, is_same};
use nr_map::{Cancel, Evict};
use nr_model::{Row, RowSet};
use nr_serve::{
    Client, Dataflow, FallibleSource, Got, Lobby, Service, SourceFault, Spent, TryTurn,
};
use nr_trigger::Trigger;
use std::process::Abort;
use std::sync::Wait;

/// Fails that often, and then has the row `k:5` of key `k`.
#[derive(Drop)]
struct Faulty {
    faults: u32,
}

impl FallibleSource for Faulty {
    fn try_rows(&mut self, key: u32, _bound: u32, room: &mut RowSet) -> Result<(), SourceFault> {
        if self.faults > 0 {
            self.faults -= 1;
            return Err(SourceFault);
        }
        *room = one_row(u64::from(key), 5);
        Ok(())
    }
}

type Flow<'a> = Dataflow<'a, Faulty>;

/// What becomes of a trigger.
#[derive(Clone, Copy)]
enum Act {
    Fill,
    Fail,
}

// What came of a trigger that was given the row `k:7` of its key, or failed. None where it came back, and is kept.
fn ends<R: Wait>(rt: &R, flow: &mut Flow<'_>, trigger: Option<Trigger>, act: Act) -> Option<Spent>
    requires key { IfSome trigger (λ trigger. trigger.upquery.key < 2) }
    requires sizes { (flow.old.map.shape.keys ≡ 2) × (flow.old.map.shape.rows ≡ 15) }
    ensures { flow.new.map ≡ flow.old.map }
{
    let trigger = trigger?;
    let back = match act {
        Act::Fill => {
            let rows = one_row(u64::from(trigger.key()), 7);
            match flow.fill(rt, trigger, &rows) {
                Ok(spent) => return Some(spent),
                Err((trigger, _)) => trigger,
            }
        }
        Act::Fail => match flow.fail(rt, trigger) {
            Ok(spent) => return Some(spent),
            Err(trigger) => trigger,
        },
    };
    if let Some(before) = flow.keep(back) {
        before.into_key();
    }
    None
}

// What comes of a trigger so.
fn comes_to<R: Abort + Wait>(
    rt: &R,
    flow: &mut Flow<'_>,
    trigger: Option<Trigger>,
    act: Act,
    wanted: Option<Spent>,
)
    requires key { IfSome trigger (λ trigger. trigger.upquery.key < 2) }
    requires sizes { (flow.old.map.shape.keys ≡ 2) × (flow.old.map.shape.rows ≡ 15) }
    ensures { flow.new.map ≡ flow.old.map }
{
    is_same(rt, &ends(rt, flow, trigger, act), &wanted);
}

// A trigger is filled so.
fn is_filled<R: Abort + Wait>(rt: &R, flow: &mut Flow<'_>, trigger: Option<Trigger>)
    requires key { IfSome trigger (λ trigger. trigger.upquery.key < 2) }
    requires sizes { (flow.old.map.shape.keys ≡ 2) × (flow.old.map.shape.rows ≡ 15) }
    ensures { flow.new.map ≡ flow.old.map }
{
    comes_to(rt, flow, trigger, Act::Fill, Some(Spent::Filled));
}

// The next turn.
fn turns<R: Abort + Wait>(rt: &R, flow: &mut Flow<'_>, wanted: TryTurn)
    ensures { flow.new.map ≡ flow.old.map }
{
    is_same(rt, &flow.try_turn(rt), &wanted);
}

// How often the client was told that the source failed for key 0.
fn failures<R: Abort>(rt: &R, client: &mut Client<'_, Noting>, wanted: u64)
    ensures { client.new.map ≡ client.old.map }
{
    is_same(rt, &client.failures_for(0), &wanted);
}

// The next trigger.
fn takes<R: Wait>(rt: &R, flow: &mut Flow<'_>) -> Option<Trigger>
    requires { flow.old.map.shape.keys ≡ 2 }
    ensures key { IfSome result (λ trigger. trigger.upquery.key < 2) }
    ensures map { flow.new.map ≡ flow.old.map }
{
    flow.take(rt)
}

// A get finds the one row `k:b`.
fn finds<R: Abort + Wait>(rt: &R, client: &mut Client<'_, Noting>, key: u32, b: u64)
    requires { key < client.old.map.shape.keys }
    ensures { client.new.map ≡ client.old.map }
{
    let mut rows = RowSet::new();
    gets(rt, client, key, &mut rows, Got::Rows);
    let row = Row {
        a: u64::from(key),
        b,
    };
    are_same(rt, rows.as_slice(), [row].as_slice());
}

// The triggers of keys 0 and 1, both under way.
fn takes_both<R: Abort + Wait>(
    rt: &R,
    client: &mut Client<'_, Noting>,
    flow: &mut Flow<'_>,
) -> (Option<Trigger>, Option<Trigger>)
    requires client { client.old.map.shape.keys ≡ 2 }
    requires flow { flow.old.map.shape.keys ≡ 2 }
    ensures one { let (one, _) = result in IfSome one (λ trigger. trigger.upquery.key < 2) }
    ensures two { let (_, two) = result in IfSome two (λ trigger. trigger.upquery.key < 2) }
    ensures client { client.new.map ≡ client.old.map }
    ensures flow { flow.new.map ≡ flow.old.map }
{
    misses(rt, client, 0);
    misses(rt, client, 1);
    let one = takes(rt, flow);
    (one, takes(rt, flow))
}

// Two triggers are under way, and the second is filled first.
fn out_of_order<R: Abort + Wait>(rt: &R, client: &mut Client<'_, Noting>, flow: &mut Flow<'_>)
    requires client { client.old.map.shape.keys ≡ 2 }
    requires sizes { (flow.old.map.shape.keys ≡ 2) × (flow.old.map.shape.rows ≡ 15) }
{
    let (one, two) = takes_both(rt, client, flow);
    is_filled(rt, flow, two);
    finds(rt, client, 1, 7);
    misses(rt, client, 0);
    is_filled(rt, flow, one);
    finds(rt, client, 0, 7);
}

// The source fails once. The client is told, and its next get requests the key anew.
fn source_fails<R: Abort + Wait>(rt: &R, client: &mut Client<'_, Noting>, flow: &mut Flow<'_>)
    requires client { client.old.map.shape.keys ≡ 2 }
{
    flow.source().faults = 1;
    misses(rt, client, 0);
    failures(rt, client, 0);
    turns(rt, flow, TryTurn::Failed(0));
    failures(rt, client, 1);
    misses(rt, client, 0);
    is_same(rt, &flow.try_turn_or_sleep(rt), &TryTurn::Filled(0));
    is_same(rt, &client.sends(), &2);
    finds(rt, client, 0, 5);
}

// The next turn fills key 0. The client is told of no failure, and finds it.
fn is_filled_at_last<R: Abort + Wait>(rt: &R, client: &mut Client<'_, Noting>, flow: &mut Flow<'_>)
    requires { client.old.map.shape.keys ≡ 2 }
{
    turns(rt, flow, TryTurn::Filled(0));
    failures(rt, client, 0);
    finds(rt, client, 0, 5);
}

// The request is cancelled while its rows are under way, and made anew: what comes late of the first changes nothing.
fn comes_late<R: Abort + Wait>(
    rt: &R,
    client: &mut Client<'_, Noting>,
    flow: &mut Flow<'_>,
    act: Act,
)
    requires client { client.old.map.shape.keys ≡ 2 }
    requires sizes { (flow.old.map.shape.keys ≡ 2) × (flow.old.map.shape.rows ≡ 15) }
{
    misses(rt, client, 0);
    let late = takes(rt, flow);
    is_same(rt, &flow.cancel(rt, 0), &Cancel::Cancelled);
    misses(rt, client, 0);
    comes_to(rt, flow, late, act, Some(Spent::Passed));
    misses(rt, client, 0);
    is_filled_at_last(rt, client, flow);
}

// There is one slot. The trigger that found none is kept, and comes out first.
fn finds_no_slot<R: Abort + Wait>(rt: &R, client: &mut Client<'_, Noting>, flow: &mut Flow<'_>)
    requires client { client.old.map.shape.keys ≡ 2 }
    requires sizes { (flow.old.map.shape.keys ≡ 2) × (flow.old.map.shape.rows ≡ 15) }
{
    let (one, two) = takes_both(rt, client, flow);
    is_filled(rt, flow, one);
    comes_to(rt, flow, two, Act::Fill, None);
    is_same(rt, &flow.evict(0), &Evict::Evicted);
    let two = takes(rt, flow);
    is_filled(rt, flow, two);
    finds(rt, client, 1, 7);
}

// The key's ticket number is the last one, so its request can't be taken back, and its trigger is kept until it fills.
fn wears<R: Abort + Wait>(rt: &R, client: &mut Client<'_, Noting>, flow: &mut Flow<'_>)
    requires client { client.old.map.shape.keys ≡ 2 }
    requires sizes { (flow.old.map.shape.keys ≡ 2) × (flow.old.map.shape.rows ≡ 15) }
{
    flow.source().faults = 1;
    misses(rt, client, 0);
    let trigger = takes(rt, flow);
    comes_to(rt, flow, trigger, Act::Fail, None);
    turns(rt, flow, TryTurn::Worn(0));
    is_filled_at_last(rt, client, flow);
}

// A look that finds nothing, and a sleep that a ring ends which came since the bell was read.
fn sleeps_once<R: Abort + Wait>(rt: &R, lobby: &Lobby, flow: &mut Flow<'_>)
    requires none { flow.old.kept ≡ None }
    requires sizes { flow.old.map.shape.keys ≡ 2 }
{
    let rung = flow.rings();
    lobby.ring(rt, &mut lobby.guest());
    match flow.take(rt) {
        Some(trigger) => {
            trigger.into_key();
        }
        None => flow.sleep(rt, &rung),
    }
}

#[derive(Clone, Copy)]
enum Scene {
    OutOfOrder,
    SourceFails,
    ComesLate(Act),
    NoSlot,
    Wears,
    SleepsOnce,
}

impl Scene {
    fn play<R: Abort + Wait>(
        self,
        rt: &R,
        lobby: &Lobby,
        client: &mut Client<'_, Noting>,
        flow: &mut Flow<'_>,
    )
        requires client { client.old.map.shape.keys ≡ 2 }
        requires none { flow.old.kept ≡ None }
        requires sizes { (flow.old.map.shape.keys ≡ 2) × (flow.old.map.shape.rows ≡ 15) }
    {
        match self {
            Scene::OutOfOrder => out_of_order(rt, client, flow),
            Scene::SourceFails => source_fails(rt, client, flow),
            Scene::ComesLate(act) => comes_late(rt, client, flow, act),
            Scene::NoSlot => finds_no_slot(rt, client, flow),
            Scene::Wears => wears(rt, client, flow),
            Scene::SleepsOnce => sleeps_once(rt, lobby, flow),
        }
    }
}

fn play_in<R: Abort + Wait>(rt: &R, scene: Scene, service: &Service, tokens: Tokens)
    requires { let (table, taker) = tokens in (table ≡ service.now.map) × (taker.queue ≡ service.now.queue.id) }
{
    let gate = Noting::from(1);
    let (mut client, mut flow) = tokens.opens(service, &gate, Faulty { faults: 0 });
    scene.play(rt, service.lobby(), &mut client, &mut flow);
    end_both(rt, client, flow);
}

// In a map of that many slots.
fn play<R: Abort + Wait + AllocGlobal>(rt: &R, scene: Scene, slots: u32) {
    let (service, tokens) = opened(rt, slots);
    play_in(rt, scene, &service, tokens);
}

#[test]
fn triggers_are_filled_in_any_order(rt: HostRuntime) {
    play(&rt, Scene::OutOfOrder, 4);
}

#[test]
fn a_source_that_fails_is_told_and_asked_anew(rt: HostRuntime) {
    play(&rt, Scene::SourceFails, 4);
}

#[test]
fn rows_that_come_after_a_cancel_fill_nothing(rt: HostRuntime) {
    play(&rt, Scene::ComesLate(Act::Fill), 4);
}

#[test]
fn a_failure_after_a_cancel_takes_nothing_back(rt: HostRuntime) {
    play(&rt, Scene::ComesLate(Act::Fail), 4);
}

#[test]
fn a_trigger_without_a_slot_is_kept_and_taken_first(rt: HostRuntime) {
    play(&rt, Scene::NoSlot, 1);
}

#[test]
fn a_worn_request_is_kept_until_it_is_filled(rt: HostRuntime) {
    let (service, tokens) = opened_from(&rt, 4, 2, 4_194_303);
    play_in(&rt, Scene::Wears, &service, tokens);
}

#[test]
fn a_ring_since_the_bell_was_read_ends_a_sleep(rt: HostRuntime) {
    play(&rt, Scene::SleepsOnce, 4);
}
