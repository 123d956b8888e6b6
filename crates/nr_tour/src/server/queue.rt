//! Tickets on their way from the readers to the dataflow.
ghost use Rattle.std.specs.Prelude.{◌≡◌, ◌<◌, ◌≤◌, IfOk, MatchOption};

use crate::map::{Page, ROWS, opened, set_of};
use nr_map::{Asked, FillFault, Reader, ReaderMap, Ticket, Writer};
use nr_model::OpenFault;
use nr_serve::Lobby;
use nr_trigger::{Poster, Taker, Triggers};
use std::alloc::Global;
use std::sync::Wait;

// A queue for that many tickets of keys below 2, with one poster and the taker. A poster and a taker
// are of this one queue. The number of keys is told to contracts alone, in this function's
// `Invariants.antt`: each posted key is below it, and so each key that is taken.
fn opened_queue(alloc: Global, capacity: u32) -> Result<(Triggers, Poster, Taker), OpenFault>
    ensures poster { IfOk result (λ (triggers, poster, _). (poster.queue ≡ triggers.id) × (poster.keys ≡ 2)) }
    ensures taker { IfOk result (λ (triggers, _, taker). (taker.queue ≡ triggers.id) × (taker.keys ≡ 2)) }
{
    let (triggers, mut posters, taker) = Triggers::open(alloc, capacity, 1)?;
    let Some(poster) = posters.pop() else {
        unreachable!()
    };
    Ok((triggers, poster, taker))
}

/// A map of 2 keys and a queue for them, with the tokens of both.
#[derive(Drop)]
pub struct Server {
    pub map: ReaderMap,
    pub writer: Writer,
    pub reader: Reader,
    pub triggers: Triggers,
    pub poster: Poster,
    pub taker: Taker,
}

pub fn opened_server(alloc: Global, capacity: u32) -> Result<Server, OpenFault>
    ensures map { IfOk result (λ server. (server.writer.table ≡ server.map) × (server.reader.table ≡ server.map) × (server.map.shape.keys ≡ 2)) }
    ensures poster { IfOk result (λ server. (server.poster.queue ≡ server.triggers.id) × (server.poster.keys ≡ 2)) }
    ensures taker { IfOk result (λ server. (server.taker.queue ≡ server.triggers.id) × (server.taker.keys ≡ 2)) }
{
    let (triggers, poster, taker) = opened_queue(alloc, capacity)?;
    let (map, writer, reader, _) = opened(alloc, 2, 5)?;
    Ok(Server {
        map,
        writer,
        reader,
        triggers,
        poster,
        taker,
    })
}

/// The same, with a lobby.
pub fn opened_with_lobby(alloc: Global, capacity: u32) -> Result<(Server, Lobby), OpenFault>
    ensures map { IfOk result (λ (server, _). (server.writer.table ≡ server.map) × (server.reader.table ≡ server.map) × (server.map.shape.keys ≡ 2)) }
    ensures poster { IfOk result (λ (server, _). (server.poster.queue ≡ server.triggers.id) × (server.poster.keys ≡ 2)) }
    ensures taker { IfOk result (λ (server, _). (server.taker.queue ≡ server.triggers.id) × (server.taker.keys ≡ 2)) }
{
    let lobby = Lobby::open(alloc)?;
    Ok((opened_server(alloc, capacity)?, lobby))
}

// Posts a ticket. Where the queue is full it comes back, and its owner still owes its upquery.
fn post<R: Wait>(
    rt: &R,
    triggers: &Triggers,
    poster: &mut Poster,
    ticket: Option<Ticket>,
) -> Option<Ticket>
    requires queue { poster.old.queue ≡ triggers.now.id }
    requires key { MatchOption ticket (Unit {0}) (λ ticket. ticket.key < poster.old.keys) }
    ensures queue { (poster.new.queue ≡ triggers.now.id) × (poster.new.keys ≡ poster.old.keys) }
    ensures key { MatchOption result (Unit {0}) (λ ticket. ticket.key < poster.new.keys) }
{
    triggers.post(rt, poster, ticket?).err()
}

// Requests a key, and posts the ticket of a request that is to be sent.
fn request<R: Wait>(
    rt: &R,
    map: &ReaderMap,
    triggers: &Triggers,
    reader: &mut Reader,
    poster: &mut Poster,
    key: u32,
) -> Option<Ticket>
    requires own { reader.old.table ≡ map.now }
    requires queue { poster.old.queue ≡ triggers.now.id }
    requires key { (key < map.now.shape.keys) × (key < poster.old.keys) }
    ensures own { reader.new.table ≡ map.now }
    ensures queue { (poster.new.queue ≡ triggers.now.id) × (poster.new.keys ≡ poster.old.keys) }
    ensures key { MatchOption result (Unit {0}) (λ ticket. ticket.key < poster.new.keys) }
{
    match map.ask(reader, key) {
        Asked::Send(ticket) => post(rt, triggers, poster, Some(ticket)),
        Asked::Waiting | Asked::Filled => None,
    }
}

// The dataflow's side: takes the next trigger, fills its key by its number, and spends it. This map
// always has a slot; on a smaller one a trigger whose fill found none is kept and tried again.
fn answer_next<R: Wait>(
    rt: &R,
    map: &ReaderMap,
    triggers: &Triggers,
    writer: &mut Writer,
    taker: &mut Taker,
) -> Option<(u32, Result<(), FillFault>)>
    requires own { writer.old.table ≡ map.now }
    requires queue { (taker.old.queue ≡ triggers.now.id) × (taker.old.keys ≤ map.now.shape.keys) }
    ensures own { writer.new.table ≡ map.now }
    ensures queue { (taker.new.queue ≡ triggers.now.id) × (taker.new.keys ≡ taker.old.keys) }
{
    let trigger = triggers.take(rt, taker)?;
    let filled = map.fill(writer, trigger.key(), trigger.number(), &set_of(map, &ROWS));
    Some((trigger.into_key(), filled))
}

// A ticket that nobody will post is spent all the same: it can't be dropped. Its key stays asked until
// the dataflow fills it or takes the request back.
fn spend(ticket: Option<Ticket>) -> bool {
    match ticket {
        Some(ticket) => {
            ticket.into_key();
            true
        }
        None => false,
    }
}

// The dataflow's part: a ticket that came back is posted once the first was taken.
fn answer_in_turn<R: Wait>(
    rt: &R,
    map: &ReaderMap,
    triggers: &Triggers,
    poster: &mut Poster,
    back: Option<Ticket>,
    writer: &mut Writer,
    taker: &mut Taker,
    page: &mut Page,
)
    requires own { writer.old.table ≡ map.now }
    requires poster { poster.old.queue ≡ triggers.now.id }
    requires key { MatchOption back (Unit {0}) (λ ticket. ticket.key < poster.old.keys) }
    requires taker { (taker.old.queue ≡ triggers.now.id) × (taker.old.keys ≤ map.now.shape.keys) }
{
    page.line(
        "an answer: ",
        &answer_next(rt, map, triggers, writer, taker),
    );
    page.line(
        "a ticket is left: ",
        &spend(post(rt, triggers, poster, back)),
    );
    page.line("another: ", &answer_next(rt, map, triggers, writer, taker));
    page.line("a third: ", &answer_next(rt, map, triggers, writer, taker));
}

// Two tickets and room for one.
fn post_in_turn<R: Wait>(
    rt: &R,
    map: &ReaderMap,
    triggers: &Triggers,
    reader: &mut Reader,
    poster: &mut Poster,
    page: &mut Page,
) -> Option<Ticket>
    requires own { (reader.old.table ≡ map.now) × (map.now.shape.keys ≡ 2) }
    requires queue { (poster.old.queue ≡ triggers.now.id) × (poster.old.keys ≡ 2) }
    ensures queue { poster.new.queue ≡ triggers.now.id }
    ensures key { MatchOption result (Unit {0}) (λ ticket. ticket.key < poster.new.keys) }
{
    let first = request(rt, map, triggers, reader, poster, 0);
    page.line("the first ticket comes back: ", &spend(first));
    let second = request(rt, map, triggers, reader, poster, 1);
    page.line("the second: ", &second.is_some());
    second
}

/// Reader 1 misses both keys, and the dataflow answers in the order of the tickets.
pub fn passed_on<R: Wait>(rt: &R, alloc: Global) -> Result<Page, OpenFault> {
    let Server {
        map,
        mut writer,
        mut reader,
        triggers,
        mut poster,
        mut taker,
    } = opened_server(alloc, 1)?;
    let mut page = Page::titled(alloc, "A queue of one");
    let back = post_in_turn(rt, &map, &triggers, &mut reader, &mut poster, &mut page);
    answer_in_turn(
        rt,
        &map,
        &triggers,
        &mut poster,
        back,
        &mut writer,
        &mut taker,
        &mut page,
    );
    Ok(page)
}
