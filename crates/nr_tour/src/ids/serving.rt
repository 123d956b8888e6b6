//! A client of a map over ids, and the dataflow that answers it. A get of one try never sleeps, so that one
//! thread can make the calls of both.
ghost use Rattle.std.specs.Prelude.{◌≡◌, ◌<◌, IfOk, IfSome};
ghost use Rattle.nr_idmap.specs.Keepers.{id_rows, id_table_of};

use crate::ids::resident::{end_upquery, opened_ids};
use nr_idmap::{Claim, IdMap, IdReader, IdWriter, Requested, Upquery};
use nr_idserve::{GotId, IdClient, IdDataflow, IdService, NoVictims, Taken};
use nr_model::{OpenFault, Row, RowSet};
use nr_serve::Lobby;
use nr_trigger::{Poster, Taker, Triggers};
use std::alloc::Global;
use std::io;
use std::io::Print;
use std::sync::Wait;

// A queue of two claims, with one poster and the taker. Contracts are told of its keys, of which a claim
// has the first, in this function's `Invariants.antt`.
fn opened_queue(alloc: Global) -> Result<(Triggers, Poster, Taker), OpenFault>
    ensures poster { IfOk result (λ (claims, poster, _). (poster.queue ≡ claims.id) × (0 < poster.keys)) }
    ensures taker { IfOk result (λ (claims, _, taker). taker.queue ≡ claims.id) }
{
    let (claims, mut posters, taker) = Triggers::open(alloc, 2, 1)?;
    let Some(poster) = posters.pop() else {
        unreachable!()
    };
    Ok((claims, poster, taker))
}

// A claim without a client: the id goes to the dataflow as the number of a request of key 0. Where the queue
// is full the claim is kept, and posted later.
fn claim_alone<R: Wait>(
    rt: &R,
    service: &IdService,
    reader: &mut IdReader,
    poster: &mut Poster,
    id: u64,
) -> Option<Claim>
    requires own { id_table_of reader.old ≡ service.now.map }
    requires queue { (poster.old.queue ≡ service.now.queue.id) × (0 < poster.old.keys) }
    requires id { 0 < id }
    ensures own { id_table_of reader.new ≡ service.now.map }
    ensures queue { (poster.new.queue ≡ service.now.queue.id) × (0 < poster.new.keys) }
{
    let claim = match service.map().request(reader, id) {
        Requested::Granted(claim) => claim,
        Requested::Named(_) | Requested::Busy | Requested::Outrun | Requested::Worn => return None,
    };
    let upquery = nr_trigger::Upquery {
        key: 0,
        number: claim.id(),
    };
    if service.claims().post_upquery(rt, poster, upquery).is_err() {
        return Some(claim);
    }
    claim.into_id();
    let lobby = service.lobby();
    lobby.ring(rt, &mut lobby.guest());
    None
}

// The next upquery is filled. Where there is no slot it is left.
fn answer_next<R: Wait>(rt: &R, flow: &mut IdDataflow<'_>) -> Option<Upquery>
    requires room { 0 < id_rows flow.old.map }
    ensures map { flow.new.map ≡ flow.old.map }
    ensures left { IfSome result (λ upquery. upquery.table ≡ flow.old.map) }
{
    match flow.take(rt, &mut NoVictims) {
        Taken::Asked(upquery) => match flow.fill(rt, upquery, &[Row { a: 1, b: 2 }]) {
            Ok(_) => None,
            Err((upquery, _counts)) => Some(upquery),
        },
        Taken::Passed(_) | Taken::Full(_) | Taken::Idle => None,
    }
}

fn end_claim(kept: Option<Claim>) {
    if let Some(claim) = kept {
        claim.into_id();
    }
}

// The client misses id 42, and finds it once the dataflow has filled it. What is left at the end: an
// upquery that isn't filled, and one that is kept. The queue has a claim then that nobody answers.
fn serve<R: Wait + Print>(
    rt: &R,
    service: &IdService,
    reader: IdReader,
    poster: Poster,
    writer: IdWriter,
    taker: Taker,
) -> (io::Result<()>, Option<Upquery>, Option<Upquery>)
    requires map { (id_table_of reader ≡ service.now.map) × (writer.table ≡ service.now.map) }
    requires queue { (poster.queue ≡ service.now.queue.id) × (0 < poster.keys) × (taker.queue ≡ service.now.queue.id) }
    requires room { 0 < id_rows service.now.map }
    ensures left { let (_, left, _) = result in IfSome left (λ upquery. upquery.table ≡ service.now.map) }
    ensures kept { let (_, _, kept) = result in IfSome kept (λ upquery. upquery.table ≡ service.now.map) }
{
    let mut client = IdClient::open(service, reader, poster);
    let mut flow = IdDataflow::open(service, writer, taker);
    let mut rows = RowSet::new();
    let missed = client.get(rt, 42, 1, &mut rows);
    let left = answer_next(rt, &mut flow);
    let found = client.get(rt, 42, 1, &mut rows);
    let told = tell(rt, missed, found, &rows);
    let (mut reader, mut poster, claim) = client.end();
    end_claim(claim);
    end_claim(claim_alone(rt, service, &mut reader, &mut poster, 7));
    let (_writer, _taker, kept, _refused) = flow.end();
    (told, left, kept)
}

fn tell<R: Print>(rt: &R, missed: GotId, found: GotId, rows: &RowSet) -> io::Result<()> {
    println!(rt;
        "a client of id 42: {missed:?}, then {found:?}: {:?}",
        rows.as_slice()
    )
}

/// A map over ids and a queue of its claims, with a token of each kind.
#[derive(Drop)]
struct IdServer {
    map: IdMap,
    writer: IdWriter,
    reader: IdReader,
    claims: Triggers,
    poster: Poster,
    taker: Taker,
}

fn opened_server(alloc: Global) -> Result<IdServer, OpenFault>
    ensures map { IfOk result (λ server. (server.writer.table ≡ server.map) × (id_table_of server.reader ≡ server.map) × (0 < id_rows server.map)) }
    ensures queue { IfOk result (λ server. (server.poster.queue ≡ server.claims.id) × (0 < server.poster.keys) × (server.taker.queue ≡ server.claims.id)) }
{
    let (claims, poster, taker) = opened_queue(alloc)?;
    let (map, writer, reader) = opened_ids(alloc)?;
    Ok(IdServer {
        map,
        writer,
        reader,
        claims,
        poster,
        taker,
    })
}

// An upquery can't be dropped, so from here on there is no way out by a `?`.
fn serve_and_close<R: Wait + Print>(rt: &R, server: IdServer, lobby: Lobby) -> io::Result<()>
    requires map { (server.writer.table ≡ server.map) × (id_table_of server.reader ≡ server.map) × (0 < id_rows server.map) }
    requires queue { (server.poster.queue ≡ server.claims.id) × (0 < server.poster.keys) × (server.taker.queue ≡ server.claims.id) }
{
    let IdServer {
        map,
        writer,
        reader,
        claims,
        poster,
        taker,
    } = server;
    let service = IdService::of(map, claims, lobby);
    let (told, left, kept) = serve(rt, &service, reader, poster, writer, taker);
    let (map, _claims, _lobby) = service.into_parts();
    let gone = map.close();
    end_upquery(left, &gone);
    end_upquery(kept, &gone);
    told
}

/// A map over ids for one client is opened, and ends.
pub fn show_client<R: AllocGlobal + Wait + Print>(rt: &R) -> anyhow::Result<()> {
    let lobby = Lobby::open(rt.alloc())?;
    serve_and_close(rt, opened_server(rt.alloc())?, lobby)?;
    Ok(())
}
