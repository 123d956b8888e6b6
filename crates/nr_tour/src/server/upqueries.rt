//! Upqueries under way: the dataflow takes triggers, and spends them once their rows are there, in any
//! order. Here the rows are there at once; in a server other threads bring them, and ring the bell.
ghost use Rattle.std.specs.Prelude.{◌≡◌, ◌<◌, ◌≤◌, IfSome, None, length};

use crate::map::{Page, set_of};
use crate::server::flow::end;
use crate::server::queue::{Server, opened_with_lobby};
use crate::server::source::Shelf;
use nr_map::ReaderMap;
use nr_model::{Batch, OpenFault, Row, RowSet};
use nr_serve::{Client, Dataflow, Lobby, OpenGate, Service, Spent};
use nr_trigger::Trigger;
use std::alloc::Global;
use std::sync::Wait;

/// The row of key 1 before it changes.
const BEFORE: [Row; 1] = [Row { a: 1, b: 100 }];

// The next take gives this trigger out. One at most is kept.
fn keep(flow: &mut Dataflow<'_, Shelf>, trigger: Trigger)
    requires { trigger.upquery.key < flow.old.map.shape.keys }
    ensures { flow.new.map ≡ flow.old.map }
{
    if let Some(before) = flow.keep(trigger) {
        before.into_key();
    }
}

// Fills a trigger's key. Where there is no slot, the trigger is kept.
fn fill<R: Wait>(
    rt: &R,
    flow: &mut Dataflow<'_, Shelf>,
    trigger: Option<Trigger>,
    rows: &RowSet,
) -> Option<Spent>
    requires key { IfSome trigger (λ trigger. trigger.upquery.key < flow.old.map.shape.keys) }
    requires few { length rows.now ≤ flow.old.map.shape.rows }
    ensures { flow.new.map ≡ flow.old.map }
{
    match flow.fill(rt, trigger?, rows) {
        Ok(spent) => Some(spent),
        Err((trigger, _counts)) => {
            keep(flow, trigger);
            None
        }
    }
}

// Ends a trigger whose rows can't be had. Where its request can't be taken back, it is kept.
fn fail<R: Wait>(rt: &R, flow: &mut Dataflow<'_, Shelf>, trigger: Option<Trigger>) -> Option<Spent>
    requires { IfSome trigger (λ trigger. trigger.upquery.key < flow.old.map.shape.keys) }
    ensures { flow.new.map ≡ flow.old.map }
{
    match flow.fail(rt, trigger?) {
        Ok(spent) => Some(spent),
        Err(trigger) => {
            keep(flow, trigger);
            None
        }
    }
}

// The next trigger.
fn take<R: Wait>(rt: &R, flow: &mut Dataflow<'_, Shelf>) -> Option<Trigger>
    ensures map { flow.new.map ≡ flow.old.map }
    ensures key { IfSome result (λ trigger. trigger.upquery.key < flow.old.map.shape.keys) }
{
    flow.take(rt)
}

// Fills key 1 with rows that were read before it changes. The map drops the change of a key that is
// asked for, so the caller keeps it, and makes it after the fill.
fn fill_late<R: Wait>(
    rt: &R,
    map: &ReaderMap,
    flow: &mut Dataflow<'_, Shelf>,
    trigger: Option<Trigger>,
    change: &Batch,
    page: &mut Page,
)
    requires flow { (flow.old.map ≡ map.now) × (map.now.shape.keys ≡ 2) }
    requires key { IfSome trigger (λ trigger. trigger.upquery.key < flow.old.map.shape.keys) }
    ensures { flow.new.map ≡ flow.old.map }
{
    let dropped = flow.apply(1, change);
    let filled = fill(rt, flow, trigger, &set_of(map, &BEFORE));
    let applied = flow.apply(1, change);
    page.line("key 1: ", &filled);
    page.line("its change, before and after: ", &(dropped, applied));
}

fn show_rows<R: Wait>(rt: &R, client: &mut Client<'_, OpenGate>, page: &mut Page)
    requires { client.old.map.shape.keys ≡ 2 }
{
    let mut rows = RowSet::new();
    client.get(rt, 1, 1, &mut rows);
    page.more(", to ", &rows.as_slice());
}

fn miss_both<R: Wait>(rt: &R, client: &mut Client<'_, OpenGate>)
    requires { client.old.map.shape.keys ≡ 2 }
    ensures { client.new.map ≡ client.old.map }
{
    let mut rows = RowSet::new();
    client.get(rt, 0, 1, &mut rows);
    client.get(rt, 1, 1, &mut rows);
}

// The client misses both keys. The rows of key 1 come late, and those of key 0 can't be had.
fn serve<R: Wait>(
    rt: &R,
    map: &ReaderMap,
    client: &mut Client<'_, OpenGate>,
    flow: &mut Dataflow<'_, Shelf>,
    change: &Batch,
    page: &mut Page,
)
    requires client { client.old.map.shape.keys ≡ 2 }
    requires flow { (flow.old.map ≡ map.now) × (map.now.shape.keys ≡ 2) }
{
    miss_both(rt, client);
    let first = take(rt, flow);
    let second = take(rt, flow);
    fill_late(rt, map, flow, second, change, page);
    show_rows(rt, client, page);
    page.line("key 0: ", &fail(rt, flow, first));
    page.line("failures, told to the client: ", &client.failures_for(0));
}

// The next trigger. Where there is none the thread sleeps until the bell is rung. A thread that looks for
// rows and changes too, which others send it, does so between the first call and the last.
fn look_or_sleep<R: Wait>(rt: &R, flow: &mut Dataflow<'_, Shelf>) -> Option<Trigger>
    requires { flow.old.kept ≡ None }
    ensures { flow.new.map ≡ flow.old.map }
{
    let rung = flow.rings();
    match flow.take(rt) {
        Some(trigger) => Some(trigger),
        None => {
            flow.sleep(rt, &rung);
            None
        }
    }
}

// Nobody sleeps in a closed lobby.
fn look_once<R: Wait>(rt: &R, service: &Service, flow: &mut Dataflow<'_, Shelf>) -> bool
    requires { flow.old.kept ≡ None }
    ensures { flow.new.map ≡ flow.old.map }
{
    let lobby = service.lobby();
    lobby.close(rt);
    match look_or_sleep(rt, flow) {
        Some(trigger) => {
            trigger.into_key();
            true
        }
        None => false,
    }
}

// From here on there is no way out by a `?`.
fn work<R: Wait>(rt: &R, server: Server, lobby: Lobby, change: &Batch, page: &mut Page)
    requires map { (server.writer.table ≡ server.map) × (server.reader.table ≡ server.map) × (server.map.shape.keys ≡ 2) }
    requires poster { (server.poster.queue ≡ server.triggers.id) × (server.poster.keys ≡ 2) }
    requires taker { (server.taker.queue ≡ server.triggers.id) × (server.taker.keys ≡ 2) }
{
    let Server {
        map,
        writer,
        reader,
        triggers,
        poster,
        taker,
    } = server;
    let service = Service::of(map, triggers, lobby);
    let mut client = Client::of_service(&service, reader, poster, &OpenGate);
    let mut flow = Dataflow::of_service(&service, writer, taker, Shelf { b: 100 });
    page.line("a look before all: ", &look_once(rt, &service, &mut flow));
    serve(rt, service.map(), &mut client, &mut flow, change, page);
    end(client, flow);
}

/// A client and a dataflow in one hand, and two upqueries under way.
pub fn under_way<R: Wait>(rt: &R, alloc: Global, change: &Batch) -> Result<Page, OpenFault> {
    let (server, lobby) = opened_with_lobby(alloc, 4)?;
    let mut page = Page::titled(alloc, "Upqueries under way");
    work(rt, server, lobby, change, &mut page);
    Ok(page)
}
