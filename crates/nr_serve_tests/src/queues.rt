//! Queues of tickets. What is asserted does not depend on how the threads' steps fall. In the test of refused memory each
//! `open` is made once more where memory was refused, so it passes where any one allocation fails.
ghost use Rattle.std.specs.Prelude.{◌≡◌, ◌<◌, ◌≤◌, ◌+◌, All};

use crate::opened::two_readers;
use crate::same::is_same;
use nr_map::{Asked, Reader, ReaderMap, Shape, Ticket, Writer};
use nr_model::OpenFault;
use nr_trigger::{Poster, Taker, Triggers};
use std::alloc::Global;
use std::process::Abort;
use std::sync::Wait;
use std::thread;
use std::thread::{Threads, join};

// The last of a queue's posters, which there is.
fn next<R: Abort>(rt: &R, triggers: &Triggers, posters: &mut Vec<Poster>) -> Poster
    requires { All (λ poster. (poster.queue ≡ triggers.now.id) × (poster.keys ≡ 20)) posters.old.items }
    ensures next { (result.queue ≡ triggers.now.id) × (result.keys ≡ 20) }
    ensures others { All (λ poster. (poster.queue ≡ triggers.now.id) × (poster.keys ≡ 20)) posters.new.items }
{
    posters.pop().expect(rt, "a poster")
}

// A queue of three places for keys below 20, with its two posters.
fn queue_of<R: Abort + AllocGlobal>(rt: &R) -> (Triggers, Taker, Poster, Poster)
    ensures queue { let (queue, taker, one, two) = result in (taker.queue ≡ queue.id) × (one.queue ≡ queue.id) × (two.queue ≡ queue.id) }
    ensures keys { let (_, _, one, two) = result in (one.keys ≡ 20) × (two.keys ≡ 20) }
{
    let (triggers, mut posters, taker) = Triggers::open(rt.alloc(), 3, 2).expect(rt, "a queue");
    let one = next(rt, &triggers, &mut posters);
    let other = next(rt, &triggers, &mut posters);
    (triggers, taker, one, other)
}

pub(crate) fn sent(rt: &impl Abort, map: &ReaderMap, reader: &mut Reader, key: u32) -> Ticket
    requires own { reader.old.table ≡ map.now }
    requires key { key < map.now.shape.keys }
    ensures own { reader.new.table ≡ map.now }
    ensures key { result.key ≡ key }
{
    match map.ask(reader, key) {
        Asked::Send(ticket) => ticket,
        Asked::Waiting | Asked::Filled => panic!(rt; "the key was asked for before"),
    }
}

// The key at the front.
fn taken(rt: &impl Wait, triggers: &Triggers, taker: &mut Taker) -> Option<u32>
    requires own { taker.old.queue ≡ triggers.now.id }
    ensures own { taker.new.queue ≡ triggers.now.id }
{
    Some(triggers.take(rt, taker)?.into_key())
}

// Why a queue is refused, if it is, at the second try where memory was refused once.
fn small_queue(alloc: Global, capacity: u32, posters: u32) -> Option<OpenFault> {
    match Triggers::open(alloc, capacity, posters).err() {
        Some(OpenFault::Memory) => Triggers::open(alloc, capacity, posters).err(),
        refused => refused,
    }
}

// The same of a queue whose sizes may be large.
fn large_queue(alloc: Global, capacity: u32, posters: u32) -> Option<OpenFault> {
    match Triggers::open_large(alloc, capacity, posters).err() {
        Some(OpenFault::Memory) => Triggers::open_large(alloc, capacity, posters).err(),
        refused => refused,
    }
}

fn large_map(alloc: Global, keys: u32, readers: u32) -> Option<OpenFault> {
    let shape = Shape {
        keys,
        slots: keys,
        readers,
        first_count: 0,
        first_number: 0,
        rows: 1,
    };
    match ReaderMap::open_large(alloc, &shape).err() {
        Some(OpenFault::Memory) => ReaderMap::open_large(alloc, &shape).err(),
        refused => refused,
    }
}

#[test]
fn refused_memory_is_told_and_opens_nothing(rt: HostRuntime) {
    is_same(&rt, &small_queue(rt.alloc(), 3, 2), &None);
    is_same(&rt, &large_queue(rt.alloc(), 65_537, 1_025), &None);
    is_same(&rt, &large_map(rt.alloc(), 131_073, 1_025), &None);
}

// How each opening of those sizes is refused, where it is.
fn refused(alloc: Global, capacity: u32, posters: u32) -> [Option<OpenFault>; 2] {
    [
        small_queue(alloc, capacity, posters),
        large_queue(alloc, capacity, posters),
    ]
}

#[test]
fn queues_have_limits(rt: HostRuntime) {
    let bad = Some(OpenFault::BadSize);
    for (capacity, posters) in [(1, 1), (65_536, 1), (1, 1_024)] {
        is_same(&rt, &refused(rt.alloc(), capacity, posters), &[None, None]);
    }
    for (capacity, posters) in [(65_537, 1), (1, 1_025)] {
        is_same(&rt, &refused(rt.alloc(), capacity, posters), &[bad, None]);
    }
    for (capacity, posters) in [(0, 1), (1, 0), (4_194_304, 1), (1, 65_536)] {
        is_same(&rt, &refused(rt.alloc(), capacity, posters), &[bad, bad]);
    }
}

// Posts the ticket, again whenever it comes back.
fn post_at_last(rt: &impl Wait, triggers: &Triggers, poster: &mut Poster, mut ticket: Ticket)
    requires own { poster.old.queue ≡ triggers.now.id }
    requires key { ticket.key < poster.old.keys }
    ensures own { (poster.new.queue ≡ triggers.now.id) × (poster.new.keys ≡ poster.old.keys) }
{
    for _ in rt.forever() {
        match triggers.post(rt, poster, ticket) {
            Ok(()) => return,
            Err(back) => {
                ticket = back;
                thread::yield_now();
            }
        }
    }
    unreachable!()
}

// Asks for ten keys and posts their tickets, in order.
fn post_ten<R: Abort + Wait>(
    rt: &R,
    map: &ReaderMap,
    triggers: &Triggers,
    mut reader: Reader,
    mut poster: Poster,
    from: u32,
)
    requires map { (reader.table ≡ map.now) × (map.now.shape.keys ≡ 20) }
    requires queue { (poster.queue ≡ triggers.now.id) × (poster.keys ≡ 20) }
    requires from { from ≤ 10 }
{
    for key in from..from + 10 {
        let ticket = sent(rt, map, &mut reader, key);
        post_at_last(rt, triggers, &mut poster, ticket);
    }
}

// Takes until it has twenty keys.
fn take_twenty(rt: &impl Wait, triggers: &Triggers, mut taker: Taker) -> [u32; 20]
    requires { taker.queue ≡ triggers.now.id }
{
    let mut keys = [0; 20];
    let mut count = 0;
    for _ in rt.forever() {
        if count == 20 {
            return keys;
        }
        match taken(rt, triggers, &mut taker) {
            Some(key) => {
                keys[count] = key;
                count += 1;
            }
            None => thread::yield_now(),
        }
    }
    unreachable!()
}

fn both_post<R: Abort + Threads + Wait + Sync>(
    rt: &R,
    map: &ReaderMap,
    triggers: &Triggers,
    readers: (Reader, Reader),
    posters: (Poster, Poster),
)
    requires map { let (one, two) = readers in (one.table ≡ map.now) × (two.table ≡ map.now) × (map.now.shape.keys ≡ 20) }
    requires queue { let (first, second) = posters in (first.queue ≡ triggers.now.id) × (second.queue ≡ triggers.now.id) }
    requires keys { let (first, second) = posters in (first.keys ≡ 20) × (second.keys ≡ 20) }
{
    let (one, two) = readers;
    let (first, second) = posters;
    join(
        rt,
        move ||
            requires { (one.table ≡ map.now) × (map.now.shape.keys ≡ 20) × (first.queue ≡ triggers.now.id) × (first.keys ≡ 20) }
        { post_ten(rt, map, triggers, one, first, 0) },
        move ||
            requires { (two.table ≡ map.now) × (map.now.shape.keys ≡ 20) × (second.queue ≡ triggers.now.id) × (second.keys ≡ 20) }
        { post_ten(rt, map, triggers, two, second, 10) },
    );
}

fn all_at_once<R: Abort + Threads + Wait + Sync>(
    rt: &R,
    map: &ReaderMap,
    triggers: &Triggers,
    readers: (Reader, Reader),
    posters: (Poster, Poster),
    taker: Taker,
) -> [u32; 20]
    requires map { let (one, two) = readers in (one.table ≡ map.now) × (two.table ≡ map.now) × (map.now.shape.keys ≡ 20) }
    requires queue { let (first, second) = posters in (first.queue ≡ triggers.now.id) × (second.queue ≡ triggers.now.id) × (taker.queue ≡ triggers.now.id) }
    requires keys { let (first, second) = posters in (first.keys ≡ 20) × (second.keys ≡ 20) }
{
    let (one, two) = readers;
    let (first, second) = posters;
    let (keys, ()) = join(
        rt,
        move || -> [u32; 20]
            requires { taker.queue ≡ triggers.now.id }
        { take_twenty(rt, triggers, taker) },
        move ||
            requires { (one.table ≡ map.now) × (two.table ≡ map.now) × (map.now.shape.keys ≡ 20) × (first.queue ≡ triggers.now.id) × (second.queue ≡ triggers.now.id) × (first.keys ≡ 20) × (second.keys ≡ 20) }
        { both_post(rt, map, triggers, (one, two), (first, second)) },
    );
    keys
}

/// Each key below 20 came once, those below 10 in their order and the others in theirs.
fn assert_in_order(rt: &impl Abort, keys: [u32; 20]) {
    let mut low = 0;
    let mut high = 10;
    for key in keys {
        if key < 10 {
            assert_eq!(rt; key, low);
            low += 1;
        } else {
            assert!(rt; key == high && high < 20);
            high += 1;
        }
    }
    is_same(rt, &(low, high), &(10, 20));
}

#[test]
fn each_ticket_comes_once_and_in_order(rt: HostRuntime) {
    let (map, _writer, one, two) = two_readers(&rt, 20, 1);
    let (triggers, taker, first, second) = queue_of(&rt);
    let keys = all_at_once(&rt, &map, &triggers, (one, two), (first, second), taker);
    assert_in_order(&rt, keys);
}
