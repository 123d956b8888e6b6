//! Clients that wait for their rows, and the dataflow that brings them.
ghost use Rattle.std.specs.Prelude.{◌≡◌};

use crate::map::Page;
use crate::server::queue::{Server, opened_with_lobby};
use crate::server::source::Shelf;
use nr_map::{Reader, Writer};
use nr_model::{OpenFault, RowSet};
use nr_serve::{Client, Dataflow, Got, Lobby, OpenGate, Service, Turn};
use nr_trigger::{Poster, Taker};
use std::alloc::Global;
use std::sync::Wait;
use std::thread::{self, Threads};

#[derive(Drop)]
struct Served {
    got: Got,
    rows: RowSet,
    sends: u64,
}

// A client's thread: a reader and a poster in one hand. It asks where the key is missing, posts the
// ticket, and sleeps in the lobby until the dataflow has done something.
fn get_rows<R: Wait>(rt: &R, service: &Service, reader: Reader, poster: Poster) -> Served
    requires map { (reader.table ≡ service.now.map) × (service.now.map.shape.keys ≡ 2) }
    requires queue { (poster.queue ≡ service.now.queue.id) × (poster.keys ≡ 2) }
{
    let gate = OpenGate;
    let mut client = Client::of_service(service, reader, poster, &gate);
    let mut rows = RowSet::new();
    let got = client.get(rt, 1, 3, &mut rows);
    let sends = client.sends();
    // A client can't be dropped either, since it may keep a ticket that the full queue handed back.
    let (_reader, _poster, kept) = client.end();
    if let Some(ticket) = kept {
        ticket.into_key();
    }
    Served { got, rows, sends }
}

// The dataflow's thread: a turn takes a ticket, asks the source and fills, and one that finds nothing
// sleeps until a client posts. This one ends with the first key that it filled.
fn fill_one<R: Wait>(rt: &R, service: &Service, writer: Writer, taker: Taker)
    requires map { (writer.table ≡ service.now.map) × (service.now.map.shape.keys ≡ 2) }
    requires queue { (taker.queue ≡ service.now.queue.id) × (taker.keys ≡ 2) }
{
    let source = Shelf { b: 100 };
    let mut flow = Dataflow::of_service(service, writer, taker, source);
    for _ in rt.forever() {
        match flow.turn_or_sleep(rt) {
            Turn::Filled(_) => break,
            Turn::Idle | Turn::Passed(_) | Turn::Kept(_) => {}
        }
    }
    // Nobody fills a key from now on, so nobody may sleep for one.
    let lobby = service.lobby();
    lobby.close(rt);
    let (_writer, _taker, kept, _source) = flow.end();
    if let Some(trigger) = kept {
        trigger.into_key();
    }
}

// The dataflow has a thread of its own and the client this one. None where no thread can be started.
// `join` won't do here: without a second thread it runs one closure after the other, and a client
// whose dataflow comes later sleeps for ever.
fn serve_beside<R: Threads + Wait + Sync>(
    rt: &R,
    service: &Service,
    reader: Reader,
    poster: Poster,
    writer: Writer,
    taker: Taker,
) -> Option<Served>
    requires map { (reader.table ≡ service.now.map) × (writer.table ≡ service.now.map) × (service.now.map.shape.keys ≡ 2) }
    requires poster { (poster.queue ≡ service.now.queue.id) × (poster.keys ≡ 2) }
    requires taker { (taker.queue ≡ service.now.queue.id) × (taker.keys ≡ 2) }
{
    thread::scope(
        thread::scope_env(),
        rt,
        |scope| -> Option<Served>
            requires map { (reader.table ≡ service.now.map) × (writer.table ≡ service.now.map) × (service.now.map.shape.keys ≡ 2) }
            requires poster { (poster.queue ≡ service.now.queue.id) × (poster.keys ≡ 2) }
            requires taker { (taker.queue ≡ service.now.queue.id) × (taker.keys ≡ 2) }
        {
            let flow = scope.spawn(
                move ||
                    requires { (writer.table ≡ service.now.map) × (service.now.map.shape.keys ≡ 2) × (taker.queue ≡ service.now.queue.id) × (taker.keys ≡ 2) }
                { fill_one(rt, service, writer, taker) },
            );
            if flow.is_err() {
                return None;
            }
            Some(get_rows(rt, service, reader, poster))
        },
    )
}

fn serve<R: Threads + Wait + Sync>(rt: &R, server: Server, lobby: Lobby) -> Option<Served>
    requires map { (server.writer.table ≡ server.map) × (server.reader.table ≡ server.map) × (server.map.shape.keys ≡ 2) }
    requires poster { (server.poster.queue ≡ server.triggers.id) × (server.poster.keys ≡ 2) }
    requires taker { (server.taker.queue ≡ server.triggers.id) × (server.taker.keys ≡ 2) }
{
    let Server {
        map,
        writer,
        reader,
        triggers,
        poster,
        taker,
    } = server;
    let service = Service::of(map, triggers, lobby);
    serve_beside(rt, &service, reader, poster, writer, taker)
}

fn show_served(served: &Served, page: &mut Page) {
    page.line("it got ", &served.got);
    page.more(": ", &served.rows.as_slice());
    page.line("requests to be sent: ", &served.sends);
}

/// A client gets key 1 while the dataflow takes turns.
pub fn waited_for<R: Threads + Wait + Sync>(rt: &R, alloc: Global) -> Result<Page, OpenFault> {
    let (server, lobby) = opened_with_lobby(alloc, 4)?;
    let mut page = Page::titled(alloc, "A client");
    if let Some(served) = serve(rt, server, lobby) {
        show_served(&served, &mut page);
    }
    Ok(page)
}
