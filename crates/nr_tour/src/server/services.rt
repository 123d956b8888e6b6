//! A service without clients, for a thread that requests and posts in a way of its own.
ghost use Rattle.std.specs.Prelude.{◌≡◌};

use crate::map::Page;
use crate::server::queue::{Server, opened_with_lobby};
use nr_map::{Asked, Reader};
use nr_model::OpenFault;
use nr_serve::{Lobby, Service};
use nr_trigger::{Poster, Taker};
use std::alloc::Global;
use std::sync::Wait;

// Requests key 1 and posts its ticket, and rings the bell, so that a dataflow wakes that sleeps.
fn post_alone<R: Wait>(rt: &R, service: &Service, reader: &mut Reader, poster: &mut Poster)
    requires map { (reader.old.table ≡ service.now.map) × (service.now.map.shape.keys ≡ 2) }
    requires queue { (poster.old.queue ≡ service.now.queue.id) × (poster.old.keys ≡ 2) }
{
    let ticket = match service.map().ask(reader, 1) {
        Asked::Send(ticket) => ticket,
        Asked::Waiting | Asked::Filled => return,
    };
    if let Err(back) = service.triggers().post(rt, poster, ticket) {
        back.into_key();
        return;
    }
    let lobby = service.lobby();
    lobby.ring(rt, &mut lobby.guest());
}

// The ticket comes out of the service's queue.
fn take_alone<R: Wait>(rt: &R, service: &Service, taker: &mut Taker, page: &mut Page)
    requires { taker.old.queue ≡ service.now.queue.id }
{
    if let Some(trigger) = service.triggers().take(rt, taker) {
        page.line("requested: key ", &trigger.into_key());
    }
}

// The map is there once more at the end.
fn work<R: Wait>(rt: &R, server: Server, lobby: Lobby, page: &mut Page)
    requires map { (server.reader.table ≡ server.map) × (server.map.shape.keys ≡ 2) }
    requires poster { (server.poster.queue ≡ server.triggers.id) × (server.poster.keys ≡ 2) }
    requires taker { server.taker.queue ≡ server.triggers.id }
{
    let Server {
        map,
        writer: _,
        mut reader,
        triggers,
        mut poster,
        mut taker,
    } = server;
    let service = Service::of(map, triggers, lobby);
    post_alone(rt, &service, &mut reader, &mut poster);
    take_alone(rt, &service, &mut taker, page);
    let (map, _triggers, _lobby) = service.into_parts();
    page.line("keys of its map: ", &map.keys());
}

/// A request that no client makes goes through a service.
pub fn without_clients<R: Wait>(rt: &R, alloc: Global) -> Result<Page, OpenFault> {
    let (server, lobby) = opened_with_lobby(alloc, 4)?;
    let mut page = Page::titled(alloc, "A service");
    work(rt, server, lobby, &mut page);
    Ok(page)
}
