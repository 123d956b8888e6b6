//! A get with a limit of time.
ghost use Rattle.std.specs.Prelude.{◌≡◌};

use crate::map::Page;
use crate::server::flow::{end, take_turn};
use crate::server::queue::{Server, opened_with_lobby};
use crate::server::source::Shelf;
use nr_model::{OpenFault, RowSet};
use nr_serve::{Client, Dataflow, Got, Lobby, OpenGate, Service};
use std::alloc::Global;
use std::sync::Wait;
use std::time::{Clock, Instant};

// Gets key 0. None where a sleep timed out; the ticket is under way then.
fn get_until<R: Wait + Clock>(
    rt: &R,
    client: &mut Client<'_, OpenGate>,
    rows: &mut RowSet,
    until: Instant,
) -> Option<Got>
    requires { client.old.map.shape.keys ≡ 2 }
    ensures { client.new.map ≡ client.old.map }
{
    match client.get_until(rt, 0, 3, rows, until) {
        Ok(got) => Some(got),
        Err(_late) => None,
    }
}

fn get_twice<R: Wait + Clock>(
    rt: &R,
    client: &mut Client<'_, OpenGate>,
    flow: &mut Dataflow<'_, Shelf>,
    until: Instant,
    page: &mut Page,
)
    requires { client.old.map.shape.keys ≡ 2 }
{
    let mut rows = RowSet::new();
    page.line("too late: ", &get_until(rt, client, &mut rows, until));
    page.line("a turn: ", &take_turn(rt, flow));
    page.line("in time: ", &get_until(rt, client, &mut rows, until));
    page.more(": ", &rows.as_slice());
}

// From here on there is no way out by a `?`.
fn work<R: Wait + Clock>(rt: &R, server: Server, lobby: Lobby, until: Instant, page: &mut Page)
    requires map { (server.writer.table ≡ server.map) × (server.reader.table ≡ server.map) × (server.map.shape.keys ≡ 2) }
    requires poster { (server.poster.queue ≡ server.triggers.id) × (server.poster.keys ≡ 2) }
    requires taker { (server.taker.queue ≡ server.triggers.id) × (server.taker.keys ≡ 2) }
{
    let Server {
        map,
        writer,
        reader,
        triggers,
        poster,
        taker,
    } = server;
    let service = Service::of(map, triggers, lobby);
    let mut client = Client::of_service(&service, reader, poster, &OpenGate);
    let mut flow = Dataflow::of_service(&service, writer, taker, Shelf { b: 100 });
    get_twice(rt, &mut client, &mut flow, until, page);
    end(client, flow);
}

/// Two gets of a key that is filled between them, each until that time, which is past.
pub fn in_time<R: Wait + Clock>(rt: &R, alloc: Global, until: Instant) -> Result<Page, OpenFault> {
    let (server, lobby) = opened_with_lobby(alloc, 4)?;
    let mut page = Page::titled(alloc, "A limit of time");
    work(rt, server, lobby, until, &mut page);
    Ok(page)
}
