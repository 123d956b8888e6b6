//! Services with their tokens, and calls of clients and dataflows whose answers are asserted.
ghost use Rattle.std.specs.Prelude.{◌≡◌, ◌<◌, ◌≤◌, All, None, length};

use crate::same::is_same;
use nr_map::{Asked, Reader, ReaderMap, Shape, Writer};
use nr_model::{Row, RowSet};
use nr_serve::{Client, Dataflow, FallibleSource, Gate, Got, Lobby, Service, Source, Turn};
use nr_trigger::{Poster, Taker, Triggers};
use std::marker::Model;
use std::process::Abort;
use std::sync::Wait;
use std::sync::atomic::{AtomicBool, Ordering};
use std::thread;
use std::time::{Clock, Duration};

/// Key `k` has the one row `k:5`. Notes the bound that it was told last.
#[derive(Drop)]
pub(crate) struct Plain {
    pub(crate) bound: u32,
}

impl Source for Plain {
    fn rows(&mut self, key: u32, bound: u32) -> RowSet {
        self.bound = bound;
        one_row(u64::from(key), 5)
    }
}

pub(crate) fn one_row(a: u64, b: u64) -> RowSet
    ensures { length result ≤ 1 }
{
    match RowSet::of(&[Row { a, b }]) {
        Ok(rows) => rows,
        Err(_) => RowSet::new(),
    }
}

// The last of a map's readers, which there is.
fn next<R: Abort>(rt: &R, map: &ReaderMap, readers: &mut Vec<Reader>) -> Reader
    requires { All (λ reader. reader.table ≡ map.now) readers.old.items }
    ensures next { result.table ≡ map.now }
    ensures others { All (λ reader. reader.table ≡ map.now) readers.new.items }
{
    readers.pop().expect(rt, "a reader")
}

/// A map of that many keys with its two readers.
pub(crate) fn two_readers<R: Abort + AllocGlobal>(
    rt: &R,
    keys: u32,
    slots: u32,
) -> (ReaderMap, Writer, Reader, Reader)
    ensures sizes { let (map, _, _, _) = result in (map.shape.keys ≡ keys) × (map.shape.rows ≡ 15) }
    ensures writer { let (map, writer, _, _) = result in writer.table ≡ map }
    ensures readers { let (map, _, one, two) = result in (one.table ≡ map) × (two.table ≡ map) }
{
    numbered_from(rt, keys, slots, 0)
}

// Whose ticket numbers begin at that one.
fn numbered_from<R: Abort + AllocGlobal>(
    rt: &R,
    keys: u32,
    slots: u32,
    first_number: u64,
) -> (ReaderMap, Writer, Reader, Reader)
    ensures sizes { let (map, _, _, _) = result in (map.shape.keys ≡ keys) × (map.shape.rows ≡ 15) }
    ensures writer { let (map, writer, _, _) = result in writer.table ≡ map }
    ensures readers { let (map, _, one, two) = result in (one.table ≡ map) × (two.table ≡ map) }
{
    let shape = Shape {
        keys,
        slots,
        readers: 2,
        first_count: 0,
        first_number,
        rows: 15,
    };
    let (map, writer, mut readers) = ReaderMap::open_with(rt.alloc(), &shape).expect(rt, "a map");
    let two = next(rt, &map, &mut readers);
    let one = next(rt, &map, &mut readers);
    (map, writer, one, two)
}

// A queue for tickets of keys below 2, with its one poster.
fn one_poster<R: Abort + AllocGlobal>(rt: &R, capacity: u32) -> (Triggers, Taker, Poster)
    ensures taker { let (queue, taker, _) = result in (taker.queue ≡ queue.id) × (taker.keys ≡ 2) }
    ensures poster { let (queue, _, poster) = result in (poster.queue ≡ queue.id) × (poster.keys ≡ 2) }
{
    let (triggers, mut posters, taker) = Triggers::open(rt.alloc(), capacity, 1).expect(
        rt, "a queue",
    );
    let poster = posters.pop().expect(rt, "a poster");
    (triggers, taker, poster)
}

/// The tokens of a service of two keys.
#[derive(Drop)]
pub(crate) struct Tokens {
    writer: Writer,
    taker: Taker,
    reader: Reader,
    poster: Poster,
}

impl Model for Tokens {
    ghost use Rattle.std.specs.Prelude.{◌≡◌};
    ghost use Rattle.nr_board.specs.Callers.{Table};
    ghost use Rattle.nr_trigger.specs.Tokens.{TakerSeen};

    ghost Value = { Table × TakerSeen };

    ghost view = { λ tokens. (tokens.writer.table, tokens.taker) };

    ghost invariant = { λ tokens. (tokens.writer.table.shape.keys ≡ 2) × (tokens.writer.table.shape.rows ≡ 15)
        × (tokens.reader.table ≡ tokens.writer.table) × (tokens.poster.queue ≡ tokens.taker.queue)
        × (tokens.taker.keys ≡ 2) × (tokens.poster.keys ≡ 2) };
}

/// What a client is opened with.
#[derive(Drop)]
pub(crate) struct Asking<'a> {
    pub(crate) service: &'a Service,
    reader: Reader,
    poster: Poster,
    ghost own: { (reader.table ≡ service.now.map) × (poster.queue ≡ service.now.queue.id) },
    ghost keys: { (service.now.map.shape.keys ≡ 2) × (poster.keys ≡ 2) },
}

impl<'a> Asking<'a> {
    pub(crate) fn opens<G: Gate>(self, gate: &'a G) -> Client<'a, G>
        ensures places { (result.map ≡ self.entry.service.now.map) × (result.guest.lobby ≡ self.entry.service.now.lobby) }
        ensures keys { result.map.shape.keys ≡ 2 }
    {
        let Asking {
            service,
            reader,
            poster,
        } = self;
        Client::of_service(service, reader, poster, gate)
    }
}

/// What a dataflow is opened with.
#[derive(Drop)]
pub(crate) struct Serving<'a> {
    pub(crate) service: &'a Service,
    writer: Writer,
    taker: Taker,
    ghost own: { (writer.table ≡ service.now.map) × (taker.queue ≡ service.now.queue.id) },
    ghost sizes: { (service.now.map.shape.keys ≡ 2) × (service.now.map.shape.rows ≡ 15) × (taker.keys ≡ 2) },
}

impl<'a> Serving<'a> {
    pub(crate) fn opens<S>(self, source: S) -> Dataflow<'a, S>
        ensures places { (result.map ≡ self.entry.service.now.map) × (result.guest.lobby ≡ self.entry.service.now.lobby) }
        ensures sizes { (result.map.shape.keys ≡ 2) × (result.map.shape.rows ≡ 15) }
        ensures none { result.kept ≡ None }
    {
        let Serving {
            service,
            writer,
            taker,
        } = self;
        Dataflow::of_service(service, writer, taker, source)
    }
}

impl Tokens {
    /// For threads of the client and of the dataflow.
    pub(crate) fn sides<'a>(self, service: &'a Service) -> (Asking<'a>, Serving<'a>)
        requires { let (table, taker) = self in (table ≡ service.now.map) × (taker.queue ≡ service.now.queue.id) }
        ensures { let (client, flow) = result in (client.service.now ≡ service.now) × (flow.service.now ≡ service.now) }
    {
        let Tokens {
            writer,
            taker,
            reader,
            poster,
        } = self;
        let client = Asking {
            service,
            reader,
            poster,
        };
        let flow = Serving {
            service,
            writer,
            taker,
        };
        (client, flow)
    }

    /// Asks for key 0 and fills it. Whether that was done.
    pub(crate) fn fills(&mut self, service: &Service) -> bool
        requires { let (table, taker) = self.old in (table ≡ service.now.map) × (taker.queue ≡ service.now.queue.id) }
        ensures { self.new ≡ self.old }
    {
        fills(service.map(), &mut self.reader, &mut self.writer)
    }

    pub(crate) fn into_taker(self) -> Taker
        ensures { let (_, taker) = self in result ≡ taker }
    {
        let Tokens {
            writer: _writer,
            taker,
            reader: _reader,
            poster: _poster,
        } = self;
        taker
    }

    /// The client and the dataflow.
    pub(crate) fn opens<'a, G: Gate, S>(
        self,
        service: &'a Service,
        gate: &'a G,
        source: S,
    ) -> (Client<'a, G>, Dataflow<'a, S>)
        requires { let (table, taker) = self in (table ≡ service.now.map) × (taker.queue ≡ service.now.queue.id) }
        ensures keys { let (client, flow) = result in (client.map.shape.keys ≡ 2) × (flow.map ≡ client.map) }
        ensures rows { let (_, flow) = result in flow.map.shape.rows ≡ 15 }
        ensures none { let (_, flow) = result in flow.kept ≡ None }
    {
        let (client, flow) = self.sides(service);
        (client.opens(gate), flow.opens(source))
    }
}

/// A service whose map has that many slots, with its tokens.
pub(crate) fn opened<R: Abort + AllocGlobal>(rt: &R, slots: u32) -> (Service, Tokens)
    ensures { let (service, tokens) = result in let (table, taker) = tokens in (table ≡ service.map) × (taker.queue ≡ service.queue.id) }
{
    opened_from(rt, slots, 2, 0)
}

/// Whose queue has that many places, and whose ticket numbers begin at that one.
pub(crate) fn opened_from<R: Abort + AllocGlobal>(
    rt: &R,
    slots: u32,
    capacity: u32,
    first_number: u64,
) -> (Service, Tokens)
    ensures { let (service, tokens) = result in let (table, taker) = tokens in (table ≡ service.map) × (taker.queue ≡ service.queue.id) }
{
    let (map, writer, reader, _two) = numbered_from(rt, 2, slots, first_number);
    let (triggers, taker, poster) = one_poster(rt, capacity);
    let lobby = Lobby::open(rt.alloc()).expect(rt, "a lobby");
    let tokens = Tokens {
        writer,
        taker,
        reader,
        poster,
    };
    (Service::of(map, triggers, lobby), tokens)
}

/// Whether another thread comes within ten seconds.
pub(crate) fn comes<R: Clock>(rt: &R, came: &AtomicBool) -> bool {
    for _ in 0..10_000 {
        if came.load(Ordering::SeqCst) {
            return true;
        }
        thread::sleep(rt, Duration::from_millis(1));
    }
    false
}

/// Asks for key 0 and fills it. Whether that was done.
pub(crate) fn fills(map: &ReaderMap, reader: &mut Reader, writer: &mut Writer) -> bool
    requires own { (reader.old.table ≡ map.now) × (writer.old.table ≡ map.now) }
    requires sizes { (map.now.shape.keys ≡ 2) × (map.now.shape.rows ≡ 15) }
    ensures { (reader.new.table ≡ map.now) × (writer.new.table ≡ map.now) }
{
    match map.ask(reader, 0) {
        Asked::Send(ticket) => {
            let number = ticket.number();
            map.fill(writer, ticket.into_key(), number, &one_row(0, 5))
                .is_ok()
        }
        Asked::Waiting | Asked::Filled => false,
    }
}

/// Ends a client: whether it kept a ticket, which is spent.
pub(crate) fn end_client<G: Gate>(client: Client<'_, G>) -> bool {
    let (_reader, _poster, kept) = client.end();
    match kept {
        Some(ticket) => {
            ticket.into_key();
            true
        }
        None => false,
    }
}

/// Ends a dataflow: the key of the trigger that it kept, which is spent.
pub(crate) fn end_flow<S: FallibleSource + Drop>(flow: Dataflow<'_, S>) -> Option<u32> {
    let (_writer, _taker, kept, _source) = flow.end();
    Some(kept?.into_key())
}

/// Ends a client and a dataflow, which keep nothing.
pub(crate) fn end_both<G: Gate, S: FallibleSource + Drop, R: Abort>(
    rt: &R,
    client: Client<'_, G>,
    flow: Dataflow<'_, S>,
) {
    is_same(rt, &(end_client(client), end_flow(flow)), &(false, None));
}

// A get of one try.
pub(crate) fn gets<G: Gate, R: Abort + Wait>(
    rt: &R,
    client: &mut Client<'_, G>,
    key: u32,
    rows: &mut RowSet,
    got: Got,
)
    requires { key < client.old.map.shape.keys }
    ensures { client.new.map ≡ client.old.map }
{
    is_same(rt, &client.get(rt, key, 1, rows), &got);
}

// A get of one try that finds a hole.
pub(crate) fn misses<G: Gate, R: Abort + Wait>(rt: &R, client: &mut Client<'_, G>, key: u32)
    requires { key < client.old.map.shape.keys }
    ensures { client.new.map ≡ client.old.map }
{
    gets(rt, client, key, &mut RowSet::new(), Got::GaveUp);
}

pub(crate) fn turns<R: Abort + Wait>(rt: &R, flow: &mut Dataflow<'_, Plain>, turn: Turn)
    ensures { flow.new.map ≡ flow.old.map }
{
    is_same(rt, &flow.turn(rt), &turn);
}
