//! How much was applied: the dataflow tells it once it is there, and a client waits for it.
ghost use Rattle.std.specs.Prelude.{◌≡◌, ◌<◌, ◌≤◌, length};
ghost use Rattle.nr_board.specs.Meetings.{Known};
ghost use Rattle.nr_serve.specs.Applied.{HasPut};

use crate::map::{Page, ask_and_fill, set_of};
use crate::server::flow::end;
use crate::server::queue::{Server, opened_with_lobby};
use crate::server::source::Shelf;
use nr_model::{OpenFault, Row, RowSet};
use nr_serve::{Applied, Client, Dataflow, Lobby, Measure, OpenGate, Service};
use std::alloc::Global;
use std::marker::Brand;
use std::sync::Wait;

/// What key 0 has after its change.
const AFTER: [Row; 1] = [Row { a: 3, b: 10 }];

// Puts rows in place of key 0's, and tells that 1 was applied. What that means is for the caller to pick: here,
// that a set of key 0 was put in the history that the note tells of. So it can't be told before it is there.
#[tactic(auto, using(crate::proofs::Told::replacement_is_put))]
fn apply_and_tell<M: Measure, R: Wait>(
    rt: &R,
    flow: &mut Dataflow<'_, Shelf>,
    applied: &Applied<'_, M>,
    rows: &RowSet,
) -> bool
    requires flow { (flow.old.writer.table ≡ flow.old.map) × (0 < flow.old.map.shape.keys) }
    requires few { length rows.now ≤ flow.old.map.shape.rows }
    requires lobby { applied.now ≡ flow.old.guest.lobby }
    requires reached { (note : Known) → note.table ≡ flow.old.map → HasPut 0 note → M.reached 1 note }
{
    match flow.replace(0, rows) {
        Ok(()) => {
            flow.tell_applied(rt, applied, 1);
            true
        }
        Err(_) => false,
    }
}

fn wait_and_get<M: Measure, R: Wait>(
    rt: &R,
    client: &mut Client<'_, OpenGate>,
    applied: &Applied<'_, M>,
    page: &mut Page,
)
    requires key { 0 < client.old.map.shape.keys }
    requires lobby { applied.now ≡ client.old.guest.lobby }
    requires notes { (amount : _) (note : _) → M.reached amount note → note.table ≡ client.old.map }
{
    let told = client.wait_applied(rt, applied, 1);
    page.line("a client that waits for 1 hears of ", &told);
    let mut rows = RowSet::new();
    client.get(rt, 0, 1, &mut rows);
    page.line("it finds ", &rows.as_slice());
}

fn tell_and_wait<M: Measure, R: Wait>(rt: &R, server: Server, lobby: Lobby, page: &mut Page)
    requires map { (server.writer.table ≡ server.map) × (server.reader.table ≡ server.map) × (server.map.shape.keys ≡ 2) }
    requires poster { (server.poster.queue ≡ server.triggers.id) × (server.poster.keys ≡ 2) }
    requires taker { (server.taker.queue ≡ server.triggers.id) × (server.taker.keys ≡ 2) }
    requires reached { (note : Known) → note.table ≡ server.map → HasPut 0 note → M.reached 1 note }
    requires notes { (amount : _) (note : _) → M.reached amount note → note.table ≡ server.map }
{
    let Server {
        map,
        mut writer,
        mut reader,
        triggers,
        poster,
        taker,
    } = server;
    ask_and_fill(&map, &mut reader, &mut writer);
    let service = Service::of(map, triggers, lobby);
    let applied: Applied<'_, M> = Applied::open(&service);
    let mut client = Client::of_service(&service, reader, poster, &OpenGate);
    let mut flow = Dataflow::of_service(&service, writer, taker, Shelf { b: 100 });
    let after = set_of(service.map(), &AFTER);
    if apply_and_tell(rt, &mut flow, &applied, &after) {
        wait_and_get(rt, &mut client, &applied, page);
    }
    end(client, flow);
}

fn work<R: Wait>(rt: &R, server: Server, lobby: Lobby, page: &mut Page)
    requires map { (server.writer.table ≡ server.map) × (server.reader.table ≡ server.map) × (server.map.shape.keys ≡ 2) }
    requires poster { (server.poster.queue ≡ server.triggers.id) × (server.poster.keys ≡ 2) }
    requires taker { (server.taker.queue ≡ server.triggers.id) × (server.taker.keys ≡ 2) }
{
    tell_and_wait::<Brand, R>(rt, server, lobby, page);
}

/// A client in whose get all is found that was told.
pub fn told_and_heard<R: Wait>(rt: &R, alloc: Global) -> Result<Page, OpenFault> {
    let (server, lobby) = opened_with_lobby(alloc, 4)?;
    let mut page = Page::titled(alloc, "How much was applied");
    work(rt, server, lobby, &mut page);
    Ok(page)
}
