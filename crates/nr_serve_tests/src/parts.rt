//! A map, a queue and a lobby without a service, and what two clients and a dataflow do between them there.
ghost use Rattle.std.specs.Prelude.{◌≡◌, All};

use crate::opened::{Plain, end_client, end_flow, gets, misses, turns, two_readers};
use crate::same::{are_same, is_same};
use nr_map::{Evict, NoSlot, Reader, ReaderMap, Writer};
use nr_model::{Row, RowSet};
use nr_serve::{Client, Dataflow, Got, Lobby, OpenGate, Turn};
use nr_trigger::{Poster, Taker, Triggers};
use std::process::Abort;
use std::sync::Wait;

/// A map of two keys, a queue of their tickets and a lobby, with the tokens of two clients and of a dataflow.
#[derive(Drop)]
pub(crate) struct Parts {
    pub(crate) map: ReaderMap,
    pub(crate) triggers: Triggers,
    pub(crate) lobby: Lobby,
    pub(crate) writer: Writer,
    pub(crate) taker: Taker,
    pub(crate) one: (Reader, Poster),
    pub(crate) two: (Reader, Poster),
    ghost keys: { map.shape.keys ≡ 2 },
    ghost rows: { map.shape.rows ≡ 15 },
    ghost flow: { (writer.table ≡ map) × (taker.queue ≡ triggers.id) × (taker.keys ≡ 2) },
    ghost first: { (one.0.table ≡ map) × (one.1.queue ≡ triggers.id) × (one.1.keys ≡ 2) },
    ghost second: { (two.0.table ≡ map) × (two.1.queue ≡ triggers.id) × (two.1.keys ≡ 2) },
}

// The last of the posters of a map's queue, which there is.
fn next<R: Abort>(rt: &R, map: &ReaderMap, triggers: &Triggers, posters: &mut Vec<Poster>) -> Poster
    requires { All (λ poster. (poster.queue ≡ triggers.now.id) × (poster.keys ≡ map.now.shape.keys)) posters.old.items }
    ensures next { (result.queue ≡ triggers.now.id) × (result.keys ≡ map.now.shape.keys) }
    ensures others { All (λ poster. (poster.queue ≡ triggers.now.id) × (poster.keys ≡ map.now.shape.keys)) posters.new.items }
{
    posters.pop().expect(rt, "a poster")
}

impl Parts {
    pub(crate) fn open<R: Abort + AllocGlobal>(rt: &R, slots: u32) -> Parts {
        let (map, writer, one, two) = two_readers(rt, 2, slots);
        let (triggers, mut posters, taker) = Triggers::open_for(rt.alloc(), &map, 1, 2).expect(
            rt, "a queue",
        );
        let lobby = Lobby::open(rt.alloc()).expect(rt, "a lobby");
        let second = next(rt, &map, &triggers, &mut posters);
        let first = next(rt, &map, &triggers, &mut posters);
        Parts {
            map,
            triggers,
            lobby,
            writer,
            taker,
            one: (one, first),
            two: (two, second),
        }
    }
}

// The queue has one place, which the first client's ticket takes. The second client keeps its own and requests nothing
// meanwhile; once the place is free it posts the ticket, and finds its own request under way.
fn keeps_until_posted<R: Abort + Wait>(
    rt: &R,
    one: &mut Client<'_, OpenGate>,
    two: &mut Client<'_, OpenGate>,
    flow: &mut Dataflow<'_, Plain>,
)
    requires one { one.old.map.shape.keys ≡ 2 }
    requires two { two.old.map.shape.keys ≡ 2 }
{
    misses(rt, one, 0);
    misses(rt, two, 1);
    misses(rt, two, 1);
    turns(rt, flow, Turn::Filled(0));
    misses(rt, two, 1);
    turns(rt, flow, Turn::Filled(1));
    let mut rows = RowSet::new();
    gets(rt, two, 1, &mut rows, Got::Rows);
    are_same(rt, rows.as_slice(), [Row { a: 1, b: 5 }].as_slice());
    is_same(rt, &(one.sends(), two.sends()), &(1, 1));
    turns(rt, flow, Turn::Idle);
}

fn keeps_its_ticket<R: Abort + Wait>(rt: &R, parts: Parts) {
    let Parts {
        map,
        triggers,
        lobby,
        writer,
        taker,
        one,
        two,
    } = parts;
    let mut first = Client::open(&map, one.0, &triggers, one.1, &lobby, &OpenGate);
    let mut second = Client::open(&map, two.0, &triggers, two.1, &lobby, &OpenGate);
    let mut flow = Dataflow::open(&map, writer, &triggers, taker, Plain { bound: 0 }, &lobby);
    keeps_until_posted(rt, &mut first, &mut second, &mut flow);
    let kept = (end_client(first), end_client(second), end_flow(flow));
    is_same(rt, &kept, &(false, false, None));
}

#[test]
fn a_kept_ticket_is_posted_before_anything_is_requested(rt: HostRuntime) {
    keeps_its_ticket(&rt, Parts::open(&rt, 5));
}

// There is one slot, whose set a reader holds since before its key was evicted. So the next trigger of the key is kept,
// at each turn anew.
fn is_held_back<R: Abort + Wait>(
    rt: &R,
    map: &ReaderMap,
    reader: Reader,
    client: &mut Client<'_, OpenGate>,
    flow: &mut Dataflow<'_, Plain>,
)
    requires own { reader.table ≡ map.now }
    requires keys { map.now.shape.keys ≡ 2 }
    requires client { client.old.map ≡ map.now }
    requires flow { flow.old.map ≡ map.now }
{
    misses(rt, client, 0);
    turns(rt, flow, Turn::Filled(0));
    let Ok(pin) = map.pin(reader, 0) else {
        panic!(rt; "the key is filled");
    };
    is_same(rt, &flow.evict(0), &Evict::Evicted);
    misses(rt, client, 0);
    let held = NoSlot { live: 0, held: 1 };
    turns(rt, flow, Turn::Kept(held));
    turns(rt, flow, Turn::Kept(held));
    pin.release(map);
}

fn ends_with_its_trigger<R: Abort + Wait>(rt: &R, parts: Parts) {
    let Parts {
        map,
        triggers,
        lobby,
        writer,
        taker,
        one,
        two,
    } = parts;
    let mut client = Client::open(&map, one.0, &triggers, one.1, &lobby, &OpenGate);
    let mut flow = Dataflow::open(&map, writer, &triggers, taker, Plain { bound: 0 }, &lobby);
    is_held_back(rt, &map, two.0, &mut client, &mut flow);
    end_client(client);
    is_same(rt, &end_flow(flow), &Some(0));
}

#[test]
fn a_trigger_is_kept_while_a_reader_holds_the_one_slot(rt: HostRuntime) {
    ends_with_its_trigger(&rt, Parts::open(&rt, 1));
}

// The key at the queue's front, if there is any.
fn taken<R: Wait>(rt: &R, triggers: &Triggers, taker: &mut Taker) -> Option<u32>
    requires own { taker.old.queue ≡ triggers.now.id }
    ensures own { taker.new.queue ≡ triggers.now.id }
{
    Some(triggers.take(rt, taker)?.into_key())
}

// Nobody takes a turn, and nobody sleeps, since the lobby is closed.
fn gives_up_in_vain<R: Abort + Wait>(rt: &R, parts: Parts) {
    let Parts {
        map,
        triggers,
        lobby,
        writer: _writer,
        mut taker,
        one,
        two: _two,
    } = parts;
    lobby.close(rt);
    let mut client = Client::open(&map, one.0, &triggers, one.1, &lobby, &OpenGate);
    let got = client.get(rt, 0, 3, &mut RowSet::new());
    is_same(rt, &(got, client.sends()), &(Got::GaveUp, 1));
    is_same(rt, &end_client(client), &false);
    let first = taken(rt, &triggers, &mut taker);
    is_same(
        rt,
        &(first, taken(rt, &triggers, &mut taker)),
        &(Some(0), None),
    );
}

#[test]
fn a_get_that_gives_up_has_sent_one_request(rt: HostRuntime) {
    gives_up_in_vain(&rt, Parts::open(&rt, 4));
}
