//! How much was applied: who waits for so much hears of it, and finds what was applied.
ghost use Rattle.std.specs.Prelude.{◌≡◌};

use crate::opened::{Asking, Plain, Serving, Tokens, end_client, end_flow, opened};
use crate::same::is_same;
use nr_model::{Delta, Row, RowSet};
use nr_serve::{Applied, Got, Measure, OpenGate, Service};
use std::marker::Brand;
use std::sync::Wait;
use std::thread::{self, Threads};
use std::time::{Clock, Duration};

/// What is added to the row `0:5`, with which key 0 is filled.
const ADDED: Row = Row { a: 1, b: 7 };

/// The amount that a client heard of, and what its get found then, with the second row.
type Heard = (Option<u64>, Got, Option<Row>);

// Waits until 3 was applied, or the lobby is closed, and gets key 0.
fn hears<M: Measure, R: Wait>(rt: &R, applied: &Applied<'_, M>, asking: Asking<'_>) -> Heard
    requires lobby { applied.now ≡ asking.service.now.lobby }
    requires notes { (amount : _) (note : _) → M.reached amount note → note.table ≡ asking.service.now.map }
{
    let gate = OpenGate;
    let mut client = asking.opens(&gate);
    let amount = client.wait_applied(rt, applied, 3);
    let mut rows = RowSet::new();
    let got = client.get(rt, 0, 1, &mut rows);
    end_client(client);
    (amount, got, rows.get(1))
}

// Adds a row to key 0, and tells that 4 was applied, once a client that waits for it sleeps.
fn tells<M: Measure, R: Wait + Clock>(rt: &R, applied: &Applied<'_, M>, serving: Serving<'_>)
    requires lobby { applied.now ≡ serving.service.now.lobby }
    requires reached { (amount : _) (note : _) → note.table ≡ serving.service.now.map → M.reached amount note }
{
    let mut flow = serving.opens(Plain { bound: 0 });
    thread::sleep(rt, Duration::from_millis(50));
    let more = Delta {
        plus: true,
        row: ADDED,
    };
    let _ = flow.apply_rows(0, &[more]);
    flow.tell_applied(rt, applied, 4);
    end_flow(flow);
}

fn both<M: Measure + Send + Sync, R: Threads + Wait + Clock + Sync>(
    rt: &R,
    service: &Service,
    tokens: Tokens,
) -> Heard
    requires own { let (table, taker) = tokens in (table ≡ service.now.map) × (taker.queue ≡ service.now.queue.id) }
    requires notes { (amount : _) (note : _) → M.reached amount note → note.table ≡ service.now.map }
    requires reached { (amount : _) (note : _) → note.table ≡ service.now.map → M.reached amount note }
{
    let applied: Applied<'_, M> = Applied::open(service);
    let applied = &applied;
    let (asking, serving) = tokens.sides(service);
    let (heard, ()) = thread::join(
        rt,
        move || -> Heard
            requires lobby { applied.now ≡ asking.service.now.lobby }
            requires notes { (amount : _) (note : _) → M.reached amount note → note.table ≡ asking.service.now.map }
        { hears(rt, applied, asking) },
        move || -> ()
            requires lobby { applied.now ≡ serving.service.now.lobby }
            requires reached { (amount : _) (note : _) → note.table ≡ serving.service.now.map → M.reached amount note }
        { tells(rt, applied, serving) },
    );
    heard
}

// A client waits for the change of key 0.
fn waits<R: Threads + Wait + Clock + Sync>(rt: &R, service: &Service, tokens: Tokens) -> Heard
    requires { let (table, taker) = tokens in (table ≡ service.now.map) × (taker.queue ≡ service.now.queue.id) }
{
    both::<Brand, R>(rt, service, tokens)
}

#[test]
fn who_waits_until_so_much_was_applied_finds_it(rt: HostRuntime) {
    let (service, mut tokens) = opened(&rt, 4);
    is_same(&rt, &tokens.fills(&service), &true);
    let heard = waits(&rt, &service, tokens);
    is_same(&rt, &heard, &(Some(4), Got::Rows, Some(ADDED)));
}
