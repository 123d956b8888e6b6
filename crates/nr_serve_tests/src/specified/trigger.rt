//! The queue's calls as a server spells them, each answer by its type.
ghost use Rattle.std.specs.Prelude.{◌≡◌, ◌<◌};

use crate::opened::two_readers;
use crate::queues::sent;
use crate::same::is_same;
use nr_map::{Reader, ReaderMap, Ticket};
use nr_model::OpenFault;
use nr_trigger::{Poster, Taker, Trigger, Triggers};
use std::alloc::Global;
use std::process::Abort;
use std::sync::Wait;

// A queue of one place for tickets of keys below 2, with its poster and its taker.
fn queue_of_one<R: Abort + AllocGlobal>(rt: &R) -> (Triggers, Poster, Taker)
    ensures taker { let (queue, _, taker) = result in taker.queue ≡ queue.id }
    ensures poster { let (queue, poster, _) = result in (poster.queue ≡ queue.id) × (poster.keys ≡ 2) }
{
    let opened: Result<(Triggers, Vec<Poster>, Taker), OpenFault> = Triggers::open(
        rt.alloc(),
        1,
        1,
    );
    let (triggers, mut posters, taker) = opened.expect(rt, "a queue");
    let poster = posters.pop().expect(rt, "a poster");
    (triggers, poster, taker)
}

// The queue has room.
fn is_posted<R: Abort + Wait>(rt: &R, triggers: &Triggers, poster: &mut Poster, ticket: Ticket)
    requires own { poster.old.queue ≡ triggers.now.id }
    requires key { ticket.key < poster.old.keys }
    ensures own { (poster.new.queue ≡ triggers.now.id) × (poster.new.keys ≡ poster.old.keys) }
{
    let posted: Result<(), Ticket> = triggers.post(rt, poster, ticket);
    match posted {
        Ok(()) => {}
        Err(_ticket) => panic!(rt; "the queue is full"),
    }
}

// The queue is full.
fn comes_back<R: Abort + Wait>(
    rt: &R,
    triggers: &Triggers,
    poster: &mut Poster,
    ticket: Ticket,
) -> Ticket
    requires own { poster.old.queue ≡ triggers.now.id }
    requires key { ticket.key < poster.old.keys }
    ensures own { (poster.new.queue ≡ triggers.now.id) × (poster.new.keys ≡ poster.old.keys) }
    ensures same { result ≡ ticket }
{
    match triggers.post(rt, poster, ticket) {
        Ok(()) => panic!(rt; "the queue has room"),
        Err(back) => back,
    }
}

// The key and the ticket number of the trigger at the front. Both of its calls tell the key.
fn taken<R: Abort + Wait>(rt: &R, triggers: &Triggers, taker: &mut Taker) -> Option<(u32, u64)>
    requires own { taker.old.queue ≡ triggers.now.id }
    ensures own { taker.new.queue ≡ triggers.now.id }
{
    let taken: Option<Trigger> = triggers.take(rt, taker);
    let trigger = taken?;
    let (key, number): (u32, u64) = (trigger.key(), trigger.number());
    is_same(rt, &trigger.into_key(), &key);
    Some((key, number))
}

// Of two tickets the second comes back until the first was taken.
fn posts_and_takes<R: Abort + Wait>(
    rt: &R,
    map: &ReaderMap,
    reader: &mut Reader,
    queue: (Triggers, Poster, Taker),
)
    requires map { (reader.old.table ≡ map.now) × (map.now.shape.keys ≡ 2) }
    requires taker { let (triggers, _, taker) = queue in taker.queue ≡ triggers.id }
    requires poster { let (triggers, poster, _) = queue in (poster.queue ≡ triggers.id) × (poster.keys ≡ 2) }
{
    let (triggers, mut poster, mut taker) = queue;
    let first = sent(rt, map, reader, 0);
    let second = sent(rt, map, reader, 1);
    is_posted(rt, &triggers, &mut poster, first);
    let second = comes_back(rt, &triggers, &mut poster, second);
    is_same(rt, &taken(rt, &triggers, &mut taker), &Some((0, 0)));
    is_posted(rt, &triggers, &mut poster, second);
    is_same(rt, &taken(rt, &triggers, &mut taker), &Some((1, 0)));
    is_same(rt, &taken(rt, &triggers, &mut taker), &None);
}

#[test]
fn a_full_queue_hands_a_ticket_back_until_one_is_taken(rt: HostRuntime) {
    let (map, _writer, mut reader, _two) = two_readers(&rt, 2, 4);
    posts_and_takes(&rt, &map, &mut reader, queue_of_one(&rt));
}

// Why a queue of these sizes isn't opened.
fn fault_of(alloc: Global, capacity: u32, posters: u32) -> Option<OpenFault> {
    Triggers::open(alloc, capacity, posters).err()
}

#[test]
fn a_queue_s_sizes_have_their_limits(rt: HostRuntime) {
    let alloc = rt.alloc();
    for (capacity, posters) in [(0, 1), (65_537, 1), (1, 0), (1, 1_025)] {
        let fault = fault_of(alloc, capacity, posters);
        is_same(&rt, &fault, &Some(OpenFault::BadSize));
    }
    for (capacity, posters) in [(65_536, 1), (1, 1_024)] {
        is_same(&rt, &fault_of(alloc, capacity, posters), &None);
    }
}
