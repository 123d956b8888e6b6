//! A gate of one's own, which holds clients back between their look-up and their rows.
ghost use Rattle.std.specs.Prelude.{◌≡◌};

use crate::map::{Page, ask_and_fill};
use crate::server::queue::{Server, opened_with_lobby};
use nr_map::Reader;
use nr_model::{OpenFault, RowSet};
use nr_serve::{Client, Gate, Got, Lobby, Service};
use nr_trigger::Poster;
use std::alloc::Global;
use std::sync::Wait;
use std::sync::atomic::{AtomicU64, Ordering};

/// Says no once, and then lets everybody pass. Clients in many threads ask it at once, so it counts
/// in atomics.
#[derive(Drop)]
struct Second {
    asked: AtomicU64,
    answered: AtomicU64,
}

impl Gate for Second {
    fn pass(&self, _reader: u32, _get: u64) -> bool {
        self.asked.fetch_add(1, Ordering::SeqCst) > 0
    }

    fn answered(&self, _reader: u32, _get: u64) {
        self.answered.fetch_add(1, Ordering::SeqCst);
    }
}

// What a client gets that the gate lets pass.
fn get_through<R: Wait>(
    rt: &R,
    service: &Service,
    gate: &Second,
    reader: Reader,
    poster: Poster,
) -> (Got, RowSet)
    requires map { (reader.table ≡ service.now.map) × (service.now.map.shape.keys ≡ 2) }
    requires queue { (poster.queue ≡ service.now.queue.id) × (poster.keys ≡ 2) }
{
    let mut client = Client::of_service(service, reader, poster, gate);
    let mut rows = RowSet::new();
    let got = client.get(rt, 0, 1, &mut rows);
    let (_reader, _poster, kept) = client.end();
    if let Some(ticket) = kept {
        ticket.into_key();
    }
    (got, rows)
}

fn get_filled<R: Wait>(rt: &R, server: Server, lobby: Lobby, page: &mut Page)
    requires map { (server.writer.table ≡ server.map) × (server.reader.table ≡ server.map) × (server.map.shape.keys ≡ 2) }
    requires queue { (server.poster.queue ≡ server.triggers.id) × (server.poster.keys ≡ 2) }
{
    let Server {
        map,
        mut writer,
        mut reader,
        triggers,
        poster,
        taker: _,
    } = server;
    ask_and_fill(&map, &mut reader, &mut writer);
    let gate = Second {
        asked: AtomicU64::new(0),
        answered: AtomicU64::new(0),
    };
    let service = Service::of(map, triggers, lobby);
    let (got, rows) = get_through(rt, &service, &gate, reader, poster);
    page.line("it was asked ", &gate.asked.load(Ordering::SeqCst));
    page.more(
        " times, and told of ",
        &gate.answered.load(Ordering::SeqCst),
    );
    page.more(" answer\n  the client got ", &got);
    page.more(": ", &rows.as_slice());
}

/// A client finds key 0 filled, and has its rows once the gate lets it pass.
pub fn held_back<R: Wait>(rt: &R, alloc: Global) -> Result<Page, OpenFault> {
    let (server, lobby) = opened_with_lobby(alloc, 1)?;
    let mut page = Page::titled(alloc, "A gate");
    get_filled(rt, server, lobby, &mut page);
    Ok(page)
}
