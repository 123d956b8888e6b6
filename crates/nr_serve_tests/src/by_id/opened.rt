//! Services by id with their tokens, and calls of clients and dataflows whose answers are asserted.
ghost use Rattle.std.specs.Prelude.{◌≡◌, ◌<◌, All, IfOk, None};
ghost use Rattle.nr_idmap.specs.Keepers.{id_rows, id_table_of};

use crate::same::{are_same, is_same};
use nr_idmap::{IdMap, IdReader, IdShape, IdWriter, Upquery};
use nr_idserve::{GotId, IdClient, IdDataflow, IdService, NoVictims, Taken, Victims};
use nr_model::{Row, RowSet};
use nr_serve::{Lobby, Spent};
use nr_trigger::{Poster, Taker, Triggers};
use std::marker::Model;
use std::process::Abort;
use std::sync::Wait;

/// By which ids are spread over groups.
pub(crate) const KEY: u64 = 5;

/// The tokens of a service's dataflow, and of two clients.
#[derive(Drop)]
pub(crate) struct Tokens {
    writer: IdWriter,
    taker: Taker,
    one: (IdReader, Poster),
    two: (IdReader, Poster),
}

impl Model for Tokens {
    ghost use Rattle.std.specs.Prelude.{◌≡◌, ◌<◌};
    ghost use Rattle.nr_idmap.specs.Keepers.{IdTable, id_rows, id_table_of};
    ghost use Rattle.nr_trigger.specs.Tokens.{TakerSeen};

    ghost Value = { IdTable × TakerSeen };

    ghost view = { λ tokens. (tokens.writer.table, tokens.taker) };

    ghost invariant = { λ tokens. (0 < id_rows tokens.writer.table)
        × (let (reader, poster) = tokens.one in (id_table_of reader ≡ tokens.writer.table) × (poster.queue ≡ tokens.taker.queue) × (0 < poster.keys))
        × (let (reader, poster) = tokens.two in (id_table_of reader ≡ tokens.writer.table) × (poster.queue ≡ tokens.taker.queue) × (0 < poster.keys)) };
}

/// What a client is opened with.
#[derive(Drop)]
pub(crate) struct Asking<'a> {
    service: &'a IdService,
    reader: IdReader,
    poster: Poster,
    ghost own: { (id_table_of reader ≡ service.now.map) × (poster.queue ≡ service.now.queue.id) × (0 < poster.keys) },
}

impl<'a> Asking<'a> {
    pub(crate) fn opens(self) -> IdClient<'a>
        ensures { (result.map ≡ self.entry.service.now.map) × (result.guest.lobby ≡ self.entry.service.now.lobby) }
    {
        let Asking {
            service,
            reader,
            poster,
        } = self;
        IdClient::open(service, reader, poster)
    }
}

/// What a dataflow is opened with.
#[derive(Drop)]
pub(crate) struct Serving<'a> {
    pub(crate) service: &'a IdService,
    pub(crate) writer: IdWriter,
    pub(crate) taker: Taker,
    ghost own: { (writer.table ≡ service.now.map) × (taker.queue ≡ service.now.queue.id) × (0 < id_rows service.now.map) },
}

impl<'a> Serving<'a> {
    pub(crate) fn opens(self) -> IdDataflow<'a>
        ensures places { (result.map ≡ self.entry.service.now.map) × (result.queue ≡ self.entry.service.now.queue) × (result.lobby ≡ self.entry.service.now.lobby) }
        ensures room { 0 < id_rows result.map }
        ensures free { (result.kept ≡ None) × (result.refused ≡ None) }
    {
        let Serving {
            service,
            writer,
            taker,
        } = self;
        IdDataflow::open(service, writer, taker)
    }
}

impl Tokens {
    /// For threads of two clients and of the dataflow.
    pub(crate) fn sides<'a>(self, service: &'a IdService) -> (Asking<'a>, Asking<'a>, Serving<'a>)
        requires { let (table, taker) = self in (table ≡ service.now.map) × (taker.queue ≡ service.now.queue.id) }
        ensures { let (one, two, flow) = result in (one.service.now ≡ service.now) × (two.service.now ≡ service.now) × (flow.service.now ≡ service.now) }
    {
        let Tokens {
            writer,
            taker,
            one: (reader, poster),
            two: (other_reader, other_poster),
        } = self;
        let one = Asking {
            service,
            reader,
            poster,
        };
        let two = Asking {
            service,
            reader: other_reader,
            poster: other_poster,
        };
        let flow = Serving {
            service,
            writer,
            taker,
        };
        (one, two, flow)
    }

    /// The first client and the dataflow.
    pub(crate) fn opens<'a>(self, service: &'a IdService) -> (IdClient<'a>, IdDataflow<'a>)
        requires { let (table, taker) = self in (table ≡ service.now.map) × (taker.queue ≡ service.now.queue.id) }
        ensures { let (client, flow) = result in (flow.map ≡ client.map) × (0 < id_rows flow.map) }
    {
        let (one, _two, flow) = self.sides(service);
        (one.opens(), flow.opens())
    }
}

// The last of a map's readers, which there is.
fn next<R: Abort>(rt: &R, map: &IdMap, readers: &mut Vec<IdReader>) -> IdReader
    requires { All (λ reader. id_table_of reader ≡ map.now) readers.old.items }
    ensures next { id_table_of result ≡ map.now }
    ensures others { All (λ reader. id_table_of reader ≡ map.now) readers.new.items }
{
    readers.pop().expect(rt, "a reader")
}

// A map of that many groups with its two readers.
fn map_of<R: Abort + AllocGlobal>(rt: &R, groups: u32) -> (IdMap, IdWriter, IdReader, IdReader)
    ensures room { let (map, _, _, _) = result in 0 < id_rows map }
    ensures writer { let (map, writer, _, _) = result in writer.table ≡ map }
    ensures readers { let (map, _, one, two) = result in (id_table_of one ≡ map) × (id_table_of two ≡ map) }
{
    let shape = IdShape {
        groups,
        key: KEY,
        slots: 20,
        readers: 2,
        rows: 4,
        first_number: 0,
    };
    let (map, writer, mut readers) = IdMap::open(rt.alloc(), &shape).expect(rt, "a map");
    let two = next(rt, &map, &mut readers);
    let one = next(rt, &map, &mut readers);
    (map, writer, one, two)
}

// A queue of claims with its two posters.
fn queue<R: Abort + AllocGlobal>(rt: &R, capacity: u32) -> (Triggers, Taker, Poster, Poster)
    ensures taker { let (queue, taker, _, _) = result in taker.queue ≡ queue.id }
    ensures one { let (queue, _, one, _) = result in (one.queue ≡ queue.id) × (0 < one.keys) }
    ensures two { let (queue, _, _, two) = result in (two.queue ≡ queue.id) × (0 < two.keys) }
{
    let (claims, mut posters, taker) = Triggers::open(rt.alloc(), capacity, 2).expect(
        rt, "a queue",
    );
    let two = posters.pop().expect(rt, "a poster");
    let one = posters.pop().expect(rt, "a poster");
    (claims, taker, one, two)
}

/// A service of so many groups, whose queue has that many places, with its tokens.
pub(crate) fn opened<R: Abort + AllocGlobal>(
    rt: &R,
    groups: u32,
    capacity: u32,
) -> (IdService, Tokens)
    ensures { let (service, tokens) = result in let (table, taker) = tokens in (table ≡ service.map) × (taker.queue ≡ service.queue.id) }
{
    let (map, writer, one, two) = map_of(rt, groups);
    let (claims, taker, first, second) = queue(rt, capacity);
    let lobby = Lobby::open(rt.alloc()).expect(rt, "a lobby");
    let tokens = Tokens {
        writer,
        taker,
        one: (one, first),
        two: (two, second),
    };
    (IdService::of(map, claims, lobby), tokens)
}

/// A get of one try ends so.
pub(crate) fn gets<R: Abort + Wait>(rt: &R, client: &mut IdClient<'_>, id: u64, wanted: GotId)
    requires { 0 < id }
    ensures { client.new.map ≡ client.old.map }
{
    let mut rows = RowSet::new();
    is_same(rt, &client.get(rt, id, 1, &mut rows), &wanted);
}

/// A get of one try finds no rows.
pub(crate) fn misses<R: Abort + Wait>(rt: &R, client: &mut IdClient<'_>, id: u64)
    requires { 0 < id }
    ensures { client.new.map ≡ client.old.map }
{
    gets(rt, client, id, GotId::GaveUp);
}

/// A get of one try finds just these rows.
pub(crate) fn finds<R: Abort + Wait>(rt: &R, client: &mut IdClient<'_>, id: u64, wanted: &[Row])
    requires { 0 < id }
    ensures { client.new.map ≡ client.old.map }
{
    let mut rows = RowSet::new();
    is_same(rt, &client.get(rt, id, 1, &mut rows), &GotId::Rows);
    are_same(rt, rows.as_slice(), wanted);
}

/// A get of one try finds just the row `1:b`.
pub(crate) fn finds_one<R: Abort + Wait>(rt: &R, client: &mut IdClient<'_>, id: u64, b: u64)
    requires { 0 < id }
    ensures { client.new.map ≡ client.old.map }
{
    finds(rt, client, id, &[Row { a: 1, b }]);
}

/// A take that finds no upquery.
#[derive(Clone, Copy)]
pub(crate) enum Without {
    Passed(u64),
    Full(u64),
    Idle,
}

/// What a take finds: an upquery, or none.
pub(crate) fn take_by<V: Victims, R: Abort + Wait>(
    rt: &R,
    flow: &mut IdDataflow<'_>,
    victims: &mut V,
) -> Result<Upquery, Without>
    ensures own { IfOk result (λ upquery. upquery.table ≡ flow.old.map) }
    ensures places { flow.new.map ≡ flow.old.map }
    ensures queue { flow.new.queue ≡ flow.old.queue }
{
    match flow.take(rt, victims) {
        Taken::Asked(upquery) => Ok(upquery),
        Taken::Passed(id) => Err(Without::Passed(id)),
        Taken::Full(id) => Err(Without::Full(id)),
        Taken::Idle => Err(Without::Idle),
    }
}

/// The next take finds nothing.
pub(crate) fn is_idle<R: Abort + Wait>(rt: &R, flow: &mut IdDataflow<'_>)
    ensures { flow.new.map ≡ flow.old.map }
{
    match take_by(rt, flow, &mut NoVictims) {
        Err(Without::Idle) => {}
        Err(Without::Passed(_) | Without::Full(_)) => panic!(rt; "no claim"),
        Ok(_upquery) => panic!(rt; "no upquery"),
    }
}

/// The next take finds the claim of that id, whose group has no way.
pub(crate) fn is_full<V: Victims, R: Abort + Wait>(
    rt: &R,
    flow: &mut IdDataflow<'_>,
    victims: &mut V,
    id: u64,
)
    ensures { flow.new.map ≡ flow.old.map }
{
    match take_by(rt, flow, victims) {
        Err(Without::Full(full)) => is_same(rt, &full, &id),
        Err(Without::Passed(_) | Without::Idle) => panic!(rt; "the claim is open"),
        Ok(_upquery) => panic!(rt; "no upquery"),
    }
}

/// The upquery of the next take, which there is.
pub(crate) fn takes<R: Abort + Wait>(rt: &R, flow: &mut IdDataflow<'_>) -> Upquery
    ensures own { result.table ≡ flow.old.map }
    ensures places { flow.new.map ≡ flow.old.map }
    ensures queue { flow.new.queue ≡ flow.old.queue }
{
    match take_by(rt, flow, &mut NoVictims) {
        Ok(upquery) => upquery,
        Err(_) => panic!(rt; "an upquery"),
    }
}

/// The upquery of an id that a get misses.
pub(crate) fn asks<R: Abort + Wait>(
    rt: &R,
    client: &mut IdClient<'_>,
    flow: &mut IdDataflow<'_>,
    id: u64,
) -> Upquery
    requires { 0 < id }
    ensures own { result.table ≡ flow.old.map }
    ensures flow { flow.new.map ≡ flow.old.map }
    ensures client { client.new.map ≡ client.old.map }
{
    misses(rt, client, id);
    takes(rt, flow)
}

/// Fills an upquery with the row `1:b`.
pub(crate) fn fills<R: Abort + Wait>(rt: &R, flow: &mut IdDataflow<'_>, upquery: Upquery, b: u64)
    requires own { upquery.table ≡ flow.old.map }
    requires room { 0 < id_rows flow.old.map }
    ensures places { flow.new.map ≡ flow.old.map }
    ensures queue { flow.new.queue ≡ flow.old.queue }
{
    match flow.fill(rt, upquery, &[Row { a: 1, b }]) {
        Ok(spent) => is_same(rt, &spent, &Spent::Filled),
        Err((_upquery, _counts)) => panic!(rt; "a slot"),
    }
}

/// Fills the upquery of that id with the row `1:b`, which a get finds then.
pub(crate) fn brings<R: Abort + Wait>(
    rt: &R,
    client: &mut IdClient<'_>,
    flow: &mut IdDataflow<'_>,
    upquery: Upquery,
    id: u64,
    b: u64,
)
    requires own { upquery.table ≡ flow.old.map }
    requires room { 0 < id_rows flow.old.map }
    requires id { 0 < id }
    ensures flow { flow.new.map ≡ flow.old.map }
    ensures client { client.new.map ≡ client.old.map }
{
    fills(rt, flow, upquery, b);
    finds_one(rt, client, id, b);
}

/// Ends an upquery whose rows can't be had.
pub(crate) fn fails<R: Abort + Wait>(rt: &R, flow: &mut IdDataflow<'_>, upquery: Upquery)
    requires own { upquery.table ≡ flow.old.map }
    ensures places { flow.new.map ≡ flow.old.map }
{
    match flow.fail(rt, upquery) {
        Ok(spent) => is_same(rt, &spent, &Spent::Failed),
        Err(_upquery) => panic!(rt; "it is withdrawn"),
    }
}

/// Ends a client: whether it kept a claim.
pub(crate) fn end_client(client: IdClient<'_>) -> bool {
    let (_reader, _poster, kept) = client.end();
    match kept {
        Some(claim) => {
            claim.into_id();
            true
        }
        None => false,
    }
}

/// Ends a dataflow, which keeps no upquery: the id of the claim that it kept.
pub(crate) fn end_flow<R: Abort>(rt: &R, flow: IdDataflow<'_>) -> Option<u64> {
    let (_writer, _taker, kept, refused) = flow.end();
    match kept {
        None => refused,
        Some(_upquery) => panic!(rt; "an upquery is kept"),
    }
}

/// Ends both: the client kept no claim, and the dataflow that one, if any.
pub(crate) fn ends<R: Abort>(
    rt: &R,
    client: IdClient<'_>,
    flow: IdDataflow<'_>,
    refused: Option<u64>,
) {
    is_same(
        rt,
        &(end_client(client), end_flow(rt, flow)),
        &(false, refused),
    );
}
