//! How much was applied: who waits for so much hears of it, and finds what was applied.
ghost use Rattle.std.specs.Prelude.{◌≡◌};
ghost use Rattle.nr_idmap.specs.IdNotes.{note_table_of};

use crate::by_id::opened::{Asking, Serving, Tokens, end_client, end_flow, opened};
use crate::by_id::turns::Numbers;
use crate::same::is_same;
use nr_idserve::{IdApplied, IdDataflow, IdMeasure, IdService, IdTurn, NoVictims};
use nr_model::{Row, RowSet};
use std::marker::Brand;
use std::process::Abort;
use std::sync::Wait;
use std::thread::{self, Threads};

/// The amount that a client heard of, and the row that its get found then.
type Heard = (Option<u64>, Option<Row>);

// Claims id 3, waits until 3 was applied, or the lobby is closed, and gets the id.
fn hears<M: IdMeasure, R: Abort + Wait>(
    rt: &R,
    applied: &IdApplied<'_, M>,
    asking: Asking<'_>,
) -> Heard
    requires lobby { applied.now ≡ asking.service.now.lobby }
    requires notes { (amount : _) (note : _) → M.reached amount note → note_table_of note ≡ asking.service.now.map }
{
    let mut client = asking.opens();
    let mut rows = RowSet::new();
    client.get(rt, 3, 1, &mut rows);
    let amount = client.wait_applied(rt, applied, 3);
    client.get(rt, 3, 1, &mut rows);
    end_client(client);
    (amount, rows.get(0))
}

// Sleeps until an id was claimed, and fills it.
fn answers<R: Abort + Wait>(rt: &R, flow: &mut IdDataflow<'_>)
    ensures map { flow.new.map ≡ flow.old.map }
    ensures lobby { flow.new.lobby ≡ flow.old.lobby }
{
    let mut source = Numbers {
        has_rows: true,
        asked: 0,
    };
    for _ in rt.forever() {
        match flow.turn_or_sleep(rt, &mut NoVictims, &mut source) {
            IdTurn::Idle => {}
            turned => {
                is_same(rt, &turned, &IdTurn::Filled(3));
                return;
            }
        }
    }
}

// Tells that 4 was applied, once id 3 is filled.
fn tells<M: IdMeasure, R: Abort + Wait>(rt: &R, applied: &IdApplied<'_, M>, serving: Serving<'_>)
    requires lobby { applied.now ≡ serving.service.now.lobby }
    requires reached { (amount : _) (note : _) → note_table_of note ≡ serving.service.now.map → M.reached amount note }
{
    let mut flow = serving.opens();
    answers(rt, &mut flow);
    flow.tell_applied(rt, applied, 4);
    end_flow(rt, flow);
}

fn both<M: IdMeasure + Send + Sync, R: Threads + Abort + Wait + Sync>(
    rt: &R,
    service: &IdService,
    tokens: Tokens,
) -> Heard
    requires own { let (table, taker) = tokens in (table ≡ service.now.map) × (taker.queue ≡ service.now.queue.id) }
    requires notes { (amount : _) (note : _) → M.reached amount note → note_table_of note ≡ service.now.map }
    requires reached { (amount : _) (note : _) → note_table_of note ≡ service.now.map → M.reached amount note }
{
    let applied: IdApplied<'_, M> = IdApplied::open(service);
    let applied = &applied;
    let (asking, _other, serving) = tokens.sides(service);
    let (heard, ()) = thread::join(
        rt,
        move || -> Heard
            requires lobby { applied.now ≡ asking.service.now.lobby }
            requires notes { (amount : _) (note : _) → M.reached amount note → note_table_of note ≡ asking.service.now.map }
        { hears(rt, applied, asking) },
        move || -> ()
            requires lobby { applied.now ≡ serving.service.now.lobby }
            requires reached { (amount : _) (note : _) → note_table_of note ≡ serving.service.now.map → M.reached amount note }
        { tells(rt, applied, serving) },
    );
    heard
}

fn waits<R: Threads + Abort + Wait + Sync>(rt: &R, service: &IdService, tokens: Tokens) -> Heard
    requires { let (table, taker) = tokens in (table ≡ service.now.map) × (taker.queue ≡ service.now.queue.id) }
{
    both::<Brand, R>(rt, service, tokens)
}

#[test]
fn who_waits_until_so_much_was_applied_finds_it(rt: HostRuntime) {
    let (service, tokens) = opened(&rt, 1, 4);
    let heard = waits(&rt, &service, tokens);
    is_same(&rt, &heard, &(Some(4), Some(Row { a: 1, b: 3 })));
}
