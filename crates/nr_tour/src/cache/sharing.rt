//! Threads that share a store. Each call takes the lock for itself, so others' calls may come between any two.
ghost use Rattle.std.specs.Prelude.{◌≡◌, ◌<◌, [], IfOk};
ghost use Rattle.nr_idmap.specs.Keepers.{id_table_of};
ghost use Rattle.nr_tour.specs.Deeds.{Did, EachHeldIsFresh};

use crate::cache::deeds::Deed;
use crate::cache::desk::Desk;
use crate::map::Page;
use nr_cache::{Begun, Flight, FoundValue, GivenValue, Landed, Store, StoreShape, find};
use nr_idmap::{IdHand, IdMap, IdReader};
use nr_model::OpenFault;
use std::alloc::{AllocError, Global};
use std::collections::VecDeque;
use std::sync::{Mutex, Wait};
use std::thread::{Threads, join};

/// Sixteen values, one reader, and room for two flights and one change.
const SHAPE: StoreShape = StoreShape {
    groups: 2,
    capacity: 16,
    weight: 0,
    // The key of a program that serves strangers is drawn at random.
    key: 5,
    readers: 1,
    flights: 2,
    changes: 1,
};

/// The id that both threads miss.
const BOTH: u64 = 42;

/// What a thread was told of an id of its own.
#[derive(Clone, Copy, Debug)]
struct Told {
    found: Option<u64>,
    evicted: bool,
    failed: bool,
    held_late: bool,
}

// The flight of an id that has neither a value nor a flight.
fn begin<R: Wait>(rt: &R, desk: &Mutex<Desk<'_>>, id: u64) -> Result<Option<Flight>, AllocError>
    requires { 0 < id }
{
    match desk.lock(rt).begin(id)? {
        Begun::Load(flight) => Ok(Some(flight)),
        Begun::Held | Begun::Wait(_) | Begun::Alone => Ok(None),
    }
}

fn value_of(found: Option<FoundValue>) -> Option<u64> {
    match found {
        Some(found) => Some(found.value),
        None => None,
    }
}

// Whether the flight's value is held.
fn land<R: Wait>(
    rt: &R,
    desk: &Mutex<Desk<'_>>,
    flight: Flight,
    value: u64,
) -> Result<bool, AllocError> {
    let mut gone = GivenValue {
        id: 0,
        stamp: 0,
        value: 0,
    };
    let landed = desk.lock(rt).land(flight.number, value, &mut gone)?;
    Ok(matches!(landed, Landed::Held(_)))
}

// Whether this thread loads the id, and its value is held.
fn load<R: Wait>(rt: &R, desk: &Mutex<Desk<'_>>, id: u64, value: u64) -> Result<bool, AllocError>
    requires { 0 < id }
{
    match begin(rt, desk, id)? {
        Some(flight) => land(rt, desk, flight, value),
        None => Ok(false),
    }
}

// Whether a load ends without a value.
fn fail<R: Wait>(rt: &R, desk: &Mutex<Desk<'_>>, id: u64) -> Result<bool, AllocError>
    requires { 0 < id }
{
    match begin(rt, desk, id)? {
        Some(flight) => Ok(desk.lock(rt).fail(flight.number).is_some()),
        None => Ok(false),
    }
}

// Whether a value is held whose id was invalidated while it was loaded.
fn load_late<R: Wait>(rt: &R, desk: &Mutex<Desk<'_>>, id: u64) -> Result<bool, AllocError>
    requires { 0 < id }
{
    let flight = begin(rt, desk, id)?;
    desk.lock(rt).invalidate(id)?;
    match flight {
        Some(flight) => land(rt, desk, flight, 9),
        None => Ok(false),
    }
}

// An id's value is loaded, found and evicted; then a load of it fails, and one comes late.
fn load_in_turn<R: Wait>(rt: &R, desk: &Mutex<Desk<'_>>, id: u64) -> Result<Told, AllocError>
    requires { 0 < id }
{
    load(rt, desk, id, 7)?;
    let found = desk.lock(rt).look(id);
    let evicted = desk.lock(rt).evict(id);
    let failed = fail(rt, desk, id)?;
    let held_late = load_late(rt, desk, id)?;
    Ok(Told {
        found: value_of(found),
        evicted,
        failed,
        held_late,
    })
}

// What a thread does: with the id that both miss, which it may load, and with one of its own.
fn work<R: Wait>(rt: &R, desk: &Mutex<Desk<'_>>, own: u64) -> Result<(bool, Told), AllocError>
    requires { 0 < own }
{
    let loads = load(rt, desk, BOTH, 42)?;
    Ok((loads, load_in_turn(rt, desk, own)?))
}

// What was done by now, which any thread may ask: whatever was held, its load had begun after the last
// invalidation of its id.
fn done_by_now<R: Wait>(rt: &R, desk: &Mutex<Desk<'_>>) -> Result<VecDeque<Deed>, AllocError>
    ensures fresh { IfOk result (λ deeds. ∥ EachHeldIsFresh deeds.items ∥₁) }
{
    desk.lock(rt).deeds.clone()
}

fn show_told(is_one: bool, one: &Told, two: &Told, page: &mut Page) {
    page.line("of the two only one loads the id that both miss: ", &is_one);
    page.line("one of its own: ", one);
    page.line("the other: ", two);
}

// Two threads at once.
fn share<R: Threads + Wait + Sync>(
    rt: &R,
    desk: &Mutex<Desk<'_>>,
    page: &mut Page,
) -> Result<(), AllocError> {
    let (one, two) = join(rt, || work(rt, desk, 1), || work(rt, desk, 2));
    let (first, one) = one?;
    let (second, two) = two?;
    show_told(first != second, &one, &two, page);
    page.line("so much was done: ", &done_by_now(rt, desk)?.len());
    Ok(())
}

// A new store with its map and its one reader.
fn opened(alloc: Global) -> Result<(IdMap, Store, IdReader), OpenFault>
    ensures own { IfOk result (λ (map, store, reader). (store.keeper.table ≡ map) × (id_table_of reader ≡ map)) }
    ensures new { IfOk result (λ (_, store, _). Did [] store) }
{
    let (map, store, mut readers) = Store::open(alloc, &SHAPE)?;
    let Some(reader) = readers.pop() else {
        unreachable!()
    };
    Ok((map, store, reader))
}

// What a reader finds without the lock.
fn found_alone(map: &IdMap, reader: IdReader) -> Option<u64>
    requires { id_table_of reader ≡ map.now }
{
    let mut hand = IdHand::of(reader);
    let found = find(map, &mut hand, BOTH);
    hand.into_reader(map);
    value_of(found)
}

// The store goes behind a lock for a while.
fn share_and_end<R: Threads + Wait + Sync>(
    rt: &R,
    alloc: Global,
    map: &IdMap,
    store: Store,
    page: &mut Page,
) -> Result<(), AllocError>
    requires own { store.keeper.table ≡ map.now }
    requires new { Did [] store }
{
    let desk = Mutex::new(Desk::of(alloc, map, store));
    let shared = share(rt, &desk, page);
    let (_deeds, left) = desk.into_inner().end();
    page.line("flights left: ", &left.len());
    shared
}

pub fn chapter<R: Threads + Wait + Sync>(rt: &R, alloc: Global) -> Result<Page, OpenFault> {
    let (map, store, reader) = opened(alloc)?;
    let mut page = Page::titled(alloc, "A shared store");
    let shared = share_and_end(rt, alloc, &map, store, &mut page);
    page.line(
        "without the lock a reader finds ",
        &found_alone(&map, reader),
    );
    match shared {
        Ok(()) => Ok(page),
        Err(_) => Err(OpenFault::Memory),
    }
}
