//! What a dataflow does besides its turns. The client's gets make one try each: such a get never
//! sleeps, so that one thread can make the calls of both.
ghost use Rattle.std.specs.Prelude.{◌≡◌};

use crate::map::Page;
use crate::server::queue::{Server, opened_with_lobby};
use crate::server::source::Shelf;
use nr_map::UpdateFault;
use nr_model::{Batch, Delta, OpenFault, Row, RowSet};
use nr_serve::{Client, Dataflow, Got, Lobby, OpenGate, Service, Turn};
use std::alloc::Global;
use std::sync::Wait;

/// The change of key 1 where its row is `1:100` and will be `1:200`.
pub const RISE: [Delta; 2] = [
    Delta {
        plus: false,
        row: Row { a: 1, b: 100 },
    },
    Delta {
        plus: true,
        row: Row { a: 1, b: 200 },
    },
];

// One get of key 1.
fn get_once<R: Wait>(rt: &R, client: &mut Client<'_, OpenGate>, rows: &mut RowSet) -> Got
    requires { client.old.map.shape.keys ≡ 2 }
    ensures { client.new.map ≡ client.old.map }
{
    client.get(rt, 1, 1, rows)
}

/// One turn.
pub fn take_turn<R: Wait>(rt: &R, flow: &mut Dataflow<'_, Shelf>) -> Turn
    ensures { flow.new.map ≡ flow.old.map }
{
    flow.turn(rt)
}

// The rows change: the dataflow changes its source, from which later turns have them, and applies the
// same change to the filled key. The client hears the dataflow's note of that, so its next get comes
// after the change.
fn change_and_tell(
    client: &mut Client<'_, OpenGate>,
    flow: &mut Dataflow<'_, Shelf>,
    change: &Batch,
) -> Result<(), UpdateFault>
    requires flow { flow.old.map.shape.keys ≡ 2 }
    requires map { flow.old.map ≡ client.old.map }
    ensures client { client.new.map ≡ client.old.map }
    ensures flow { flow.new.map ≡ flow.old.map }
{
    flow.source().b = 200;
    let applied = flow.apply(1, change);
    client.hear(flow.note());
    applied
}

// The client misses key 1 and the dataflow fills it. Then its rows change.
fn change<R: Wait>(
    rt: &R,
    client: &mut Client<'_, OpenGate>,
    flow: &mut Dataflow<'_, Shelf>,
    change: &Batch,
    page: &mut Page,
)
    requires flow { flow.old.map.shape.keys ≡ 2 }
    requires map { flow.old.map ≡ client.old.map }
    ensures client { client.new.map ≡ client.old.map }
    ensures flow { flow.new.map ≡ flow.old.map }
{
    let mut rows = RowSet::new();
    get_once(rt, client, &mut rows);
    page.line("a turn: ", &take_turn(rt, flow));
    let applied = change_and_tell(client, flow, change);
    get_once(rt, client, &mut rows);
    page.line("a change: ", &applied);
    page.more(", to ", &rows.as_slice());
}

// The key loses its rows, and then its set.
fn evict(flow: &mut Dataflow<'_, Shelf>, page: &mut Page)
    requires { flow.old.map.shape.keys ≡ 2 }
    ensures { flow.new.map ≡ flow.old.map }
{
    let replaced = flow.replace(1, &RowSet::new());
    page.line("a replacement by no rows: ", &replaced);
    page.line("an eviction: ", &flow.evict(1));
    let dropped = flow.apply_rows(1, &RISE);
    page.line("a change of the hole: ", &dropped);
}

// The client misses the key again, and the dataflow takes the request back. So the client's next get
// sends a new one.
fn give_up<R: Wait>(
    rt: &R,
    client: &mut Client<'_, OpenGate>,
    flow: &mut Dataflow<'_, Shelf>,
    page: &mut Page,
)
    requires client { client.old.map.shape.keys ≡ 2 }
    requires flow { flow.old.map.shape.keys ≡ 2 }
    ensures client { client.new.map ≡ client.old.map }
    ensures flow { flow.new.map ≡ flow.old.map }
{
    let mut rows = RowSet::new();
    page.line("a get: ", &get_once(rt, client, &mut rows));
    page.line("its request is taken back: ", &flow.cancel(rt, 1));
    page.line("the next get: ", &get_once(rt, client, &mut rows));
}

// The trigger of the first request has nothing to fill.
fn fill_again<R: Wait>(
    rt: &R,
    client: &mut Client<'_, OpenGate>,
    flow: &mut Dataflow<'_, Shelf>,
    page: &mut Page,
)
    requires { client.old.map.shape.keys ≡ 2 }
{
    page.line("two turns: ", &take_turn(rt, flow));
    page.more(", ", &take_turn(rt, flow));
    let mut rows = RowSet::new();
    page.line("a get: ", &get_once(rt, client, &mut rows));
    page.more(": ", &rows.as_slice());
    page.line("requests to be sent: ", &client.sends());
}

/// Neither can be dropped. What a client or a dataflow keeps is spent, or posted and filled by others.
pub fn end(client: Client<'_, OpenGate>, flow: Dataflow<'_, Shelf>) {
    let (_reader, _poster, ticket) = client.end();
    if let Some(ticket) = ticket {
        ticket.into_key();
    }
    let (_writer, _taker, trigger, _source) = flow.end();
    if let Some(trigger) = trigger {
        trigger.into_key();
    }
}

/// A client and a dataflow in one hand.
pub fn in_one_hand<R: Wait>(rt: &R, alloc: Global, by: &Batch) -> Result<Page, OpenFault> {
    let (server, lobby) = opened_with_lobby(alloc, 4)?;
    let mut page = Page::titled(alloc, "A dataflow");
    work(rt, server, lobby, by, &mut page);
    Ok(page)
}

// From here on there is no way out by a `?`.
fn work<R: Wait>(rt: &R, server: Server, lobby: Lobby, by: &Batch, page: &mut Page)
    requires map { (server.writer.table ≡ server.map) × (server.reader.table ≡ server.map) × (server.map.shape.keys ≡ 2) }
    requires poster { (server.poster.queue ≡ server.triggers.id) × (server.poster.keys ≡ 2) }
    requires taker { (server.taker.queue ≡ server.triggers.id) × (server.taker.keys ≡ 2) }
{
    let Server {
        map,
        writer,
        reader,
        triggers,
        poster,
        taker,
    } = server;
    let service = Service::of(map, triggers, lobby);
    let mut client = Client::of_service(&service, reader, poster, &OpenGate);
    let mut flow = Dataflow::of_service(&service, writer, taker, Shelf { b: 100 });
    change(rt, &mut client, &mut flow, by, page);
    evict(&mut flow, page);
    give_up(rt, &mut client, &mut flow, page);
    fill_again(rt, &mut client, &mut flow, page);
    end(client, flow);
}
