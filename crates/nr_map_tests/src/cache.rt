//! A store of a cache: flights, values, and what comes out.
ghost use Rattle.std.specs.Prelude.{◌≡◌, ◌<◌};

mod rooms;
mod weights;

use crate::ids::view::{is_same, is_set, row};
use nr_cache::{
    Begun, Counts, Flight, FoundValue, GivenValue, Landed, MAX_STORE_GROUPS, Store, StoreShape,
    Swapped, find, hold,
};
use nr_idmap::{IdHand, IdMap, OpenFault, Reaped, Reclaimed};
use nr_model::{Row, RowSet};
use std::marker::Model;
use std::process::Abort;

/// Sixteen values, one reader, and room for two flights and one change.
const SMALL: StoreShape = StoreShape {
    groups: 2,
    capacity: 16,
    weight: 0,
    key: 0x9E37_79B9_7F4A_7C15,
    readers: 1,
    flights: 2,
    changes: 1,
};

/// A store with its map and a reader, and the set that came out last.
struct Shelf {
    map: IdMap,
    store: Store,
    hand: IdHand,
    had: RowSet,
}

impl Model for Shelf {
    ghost use Rattle.std.specs.Prelude.{◌≡◌};
    ghost use Rattle.nr_idmap.specs.IdHands.{hand_table_of};
    ghost use Rattle.nr_idmap.specs.Keepers.{IdTable};

    ghost Value = { IdTable };

    ghost view = { λ shelf. shelf.map };

    ghost invariant = { λ shelf. (shelf.store.keeper.table ≡ shelf.map) × (hand_table_of shelf.hand ≡ shelf.map) × (shelf.map.map.shape.readers ≡ 3) };
}

impl Shelf {
    fn open<R: AllocGlobal + Abort>(rt: &R) -> Shelf {
        Shelf::of(rt, &SMALL)
    }

    /// Of that many values, in two groups.
    fn of_few<R: AllocGlobal + Abort>(rt: &R, capacity: u32) -> Shelf {
        Shelf::of(rt, &StoreShape { capacity, ..SMALL })
    }

    /// Of four values, one of them with the stamp 5, which was found, and the others with 6.
    fn of_stale<R: AllocGlobal + Abort>(rt: &R, stale: u64) -> Shelf
        requires { 0 < stale }
    {
        let shape = StoreShape {
            groups: 1,
            capacity: 4,
            ..SMALL
        };
        let mut shelf = Shelf::of(rt, &shape);
        for id in 1..5u64 {
            shelf.stamps(rt, id, if id == stale { 5 } else { 6 }, 0);
        }
        assert!(rt; shelf.find(stale).is_some());
        shelf
    }

    fn of<R: AllocGlobal + Abort>(rt: &R, shape: &StoreShape) -> Shelf
        requires { shape.now.readers ≡ 1 }
    {
        let (map, store, mut readers) = Store::open(rt.alloc(), shape).expect(rt, "memory");
        let reader = readers.pop().expect(rt, "a reader");
        Shelf {
            map,
            store,
            hand: IdHand::of(reader),
            had: RowSet::new(),
        }
    }

    /// The marks of the flights that end with it.
    fn closes<R: Abort>(self, rt: &R, marks: &[u64]) {
        let Shelf {
            map,
            store,
            hand,
            had: _,
        } = self;
        let _reader = hand.into_reader(&map);
        let left = store.close();
        is_same(rt, &left.len(), &marks.len());
        for (flight, mark) in left.iter().zip(marks) {
            is_same(rt, &flight.mark, mark);
        }
    }

    /// Its reader comes back, and these two sets come out of what is left.
    fn leaves<R: Abort>(self, rt: &R, first: &[Row], second: &[Row]) {
        let Shelf {
            map,
            store,
            hand,
            mut had,
        } = self;
        let mut out = map.readers_out();
        map.take_back(&mut out, hand.into_reader(&map));
        let (_flights, mut rest) = store.leave(&map, out);
        assert!(rt; map.next_of(&mut rest, &mut had));
        is_set(rt, had.as_slice(), first);
        assert!(rt; map.next_of(&mut rest, &mut had));
        is_set(rt, had.as_slice(), second);
        assert!(rt; !map.next_of(&mut rest, &mut had));
    }

    fn begin(&mut self, id: u64, mark: u64) -> Begun
        requires { 0 < id }
    {
        self.store.begin(&self.map, id, mark)
    }

    /// The id's flight begins: its number.
    fn loads<R: Abort>(&mut self, rt: &R, id: u64, mark: u64) -> u64
        requires { 0 < id }
    {
        match self.begin(id, mark) {
            Begun::Load(flight) => flight.number,
            _ => panic!(rt; "the id's flight begins"),
        }
    }

    fn waits<R: Abort>(&mut self, rt: &R, id: u64, mark: u64)
        requires { 0 < id }
    {
        match self.begin(id, 0) {
            Begun::Wait(Flight { mark: its, .. }) => is_same(rt, &its, &mark),
            _ => panic!(rt; "the id's flight is under way"),
        }
    }

    fn has<R: Abort>(&mut self, rt: &R, id: u64)
        requires { 0 < id }
    {
        assert!(rt; matches!(self.begin(id, 0), Begun::Held));
    }

    fn is_alone<R: Abort>(&mut self, rt: &R, id: u64)
        requires { 0 < id }
    {
        assert!(rt; matches!(self.begin(id, 0), Begun::Alone));
    }

    /// The flight of that number ends, which has that id and that mark.
    fn fails<R: Abort>(&mut self, rt: &R, number: u64, flight: Option<(u64, u64)>) {
        let ended = self.store.fail(number);
        is_same(rt, &ended.map(|ended| (ended.id, ended.mark)), &flight);
    }

    /// The oldest flight ends, which has that mark.
    fn fails_oldest<R: Abort>(&mut self, rt: &R, mark: Option<u64>) {
        let ended = self.store.fail_oldest();
        is_same(rt, &ended.map(|flight| flight.mark), &mark);
    }

    fn land(&mut self, number: u64, value: u64, weight: u32) -> Landed {
        let had = &mut self.had;
        self.store.land(&self.map, number, 1, value, weight, 0, had)
    }

    /// The value is held.
    fn lands<R: Abort>(&mut self, rt: &R, number: u64, value: u64) {
        assert!(rt; is_held(self.land(number, value, 1)));
    }

    /// The value is its loader's own.
    fn keeps_out<R: Abort>(&mut self, rt: &R, number: u64, value: u64) {
        assert!(rt; !is_held(self.land(number, value, 1)));
    }

    fn put(&mut self, id: u64, stamp: u64, value: u64, weight: u32, bound: u64) -> Landed
        requires { (0 < id) × (0 < stamp) }
    {
        let had = &mut self.had;
        self.store
            .put(&self.map, id, stamp, value, weight, bound, had)
    }

    /// The value is held.
    fn puts<R: Abort>(&mut self, rt: &R, id: u64, value: u64)
        requires { 0 < id }
    {
        assert!(rt; is_held(self.put(id, 1, value, 1, 0)));
    }

    /// A value with that stamp is held.
    fn stamps<R: Abort>(&mut self, rt: &R, id: u64, stamp: u64, bound: u64)
        requires { (0 < id) × (0 < stamp) }
    {
        assert!(rt; is_held(self.put(id, stamp, tenfold(id), 1, bound)));
    }

    /// For each of the ids ten times itself is held.
    fn puts_each<R: Abort>(&mut self, rt: &R, first: u64, end: u64)
        requires { 0 < first }
    {
        for id in first..end {
            self.puts(rt, id, tenfold(id));
        }
    }

    /// The same, and each is found at once.
    fn puts_and_finds<R: Abort>(&mut self, rt: &R, first: u64, end: u64)
        requires { 0 < first }
    {
        for id in first..end {
            self.puts(rt, id, tenfold(id));
            self.finds(rt, id, Some(tenfold(id)));
        }
    }

    /// The same, and the store itself finds each.
    fn puts_and_looks<R: Abort>(&mut self, rt: &R, first: u64, end: u64)
        requires { 0 < first }
    {
        for id in first..end {
            self.puts(rt, id, tenfold(id));
            self.looks(rt, id, Some(tenfold(id)));
        }
    }

    /// Ten times each of the ids is found.
    fn finds_each<R: Abort>(&mut self, rt: &R, first: u64, end: u64)
        requires { 0 < first }
    {
        for id in first..end {
            self.finds(rt, id, Some(tenfold(id)));
        }
    }

    fn find(&mut self, id: u64) -> Option<FoundValue>
        requires { 0 < id }
    {
        find(&self.map, &mut self.hand, id)
    }

    fn finds<R: Abort>(&mut self, rt: &R, id: u64, value: Option<u64>)
        requires { 0 < id }
    {
        let found = self.find(id);
        let wanted = value.map(|value| FoundValue { stamp: 1, value });
        is_same(rt, &found, &wanted);
    }

    /// Who has put the value holds it.
    fn holds<R: Abort>(&mut self, rt: &R, id: u64, value: u64)
        requires { 0 < id }
    {
        let found = hold(&self.map, &mut self.hand, id);
        is_same(rt, &found, &Some(FoundValue { stamp: 1, value }));
    }

    /// Each of the ids is wanted, and put where it isn't found.
    fn asks_for_each<R: Abort>(&mut self, rt: &R, first: u64, end: u64)
        requires { 0 < first }
    {
        for id in first..end {
            if self.find(id).is_none() {
                self.puts(rt, id, tenfold(id));
            }
        }
    }

    fn look(&mut self, id: u64) -> Option<FoundValue>
        requires { 0 < id }
    {
        self.store.look(&self.map, id)
    }

    /// The value that the store itself finds.
    fn looks<R: Abort>(&mut self, rt: &R, id: u64, value: Option<u64>)
        requires { 0 < id }
    {
        let found = self.look(id);
        let wanted = value.map(|value| FoundValue { stamp: 1, value });
        is_same(rt, &found, &wanted);
    }

    fn swap(&mut self, id: u64, old: u64, value: u64, weight: u32) -> Swapped
        requires { 0 < id }
    {
        let had = &mut self.had;
        self.store
            .swap(&self.map, id, old, 1, value, weight, 0, had)
    }

    fn swaps<R: Abort>(&mut self, rt: &R, id: u64, old: u64, value: u64, wanted: Swapped)
        requires { 0 < id }
    {
        assert!(rt; are_alike(self.swap(id, old, value, 1), wanted));
    }

    /// Whether the id had a value.
    fn evicts<R: Abort>(&mut self, rt: &R, id: u64, wanted: bool)
        requires { 0 < id }
    {
        is_same(rt, &self.store.evict(&self.map, id), &wanted);
    }

    fn evict_one(&mut self, bound: u64) -> Option<GivenValue> {
        self.store.evict_one(&self.map, bound)
    }

    /// One value goes, which is this.
    fn gives_up<R: Abort>(&mut self, rt: &R, wanted: Option<GivenValue>) {
        is_same(rt, &self.evict_one(0), &wanted);
    }

    /// One value goes, so that many are left, and comes out as it was told.
    fn makes_room<R: Abort>(&mut self, rt: &R, left: u32) {
        let Some(given) = self.store.evict_one(&self.map, 0) else {
            panic!(rt; "a value goes")
        };
        is_same(rt, &(given.value / 10), &given.id);
        self.looks(rt, given.id, None);
        self.counts(rt, left, 0, 0);
        self.reaps(rt, Reaped::Set);
        self.gave_out(rt, &[row(0, given.id), row(given.stamp, given.value)]);
    }

    fn counted(&mut self) -> Counts {
        self.store.count(&self.map)
    }

    fn counts<R: Abort>(&mut self, rt: &R, values: u32, flights: usize, changes: usize) {
        let counts = self.counted();
        let wanted = Counts {
            values,
            weight: 0,
            flights,
            changes,
        };
        is_same(rt, &counts, &wanted);
    }

    /// Whether the id had a value.
    fn invalidates<R: Abort>(&mut self, rt: &R, id: u64, wanted: bool)
        requires { 0 < id }
    {
        is_same(rt, &self.store.invalidate(&self.map, id), &wanted);
    }

    fn invalidates_all(&mut self) {
        self.store.invalidate_all(&self.map);
    }

    /// Whether there is room for the change.
    fn begins_change<R: Abort>(&mut self, rt: &R, id: u64, wanted: bool)
        requires { 0 < id }
    {
        is_same(rt, &self.store.begin_change(id), &wanted);
    }

    /// Whether the id is changed.
    fn ends_change<R: Abort>(&mut self, rt: &R, id: u64, wanted: bool)
        requires { 0 < id }
    {
        is_same(rt, &self.store.end_change(id), &wanted);
    }

    /// What the store may hold bounds what it holds.
    fn is_within(&self) {
        self.store.is_within();
    }

    fn reaps<R: Abort>(&mut self, rt: &R, wanted: Reaped) {
        let reaped = self.store.reap(&self.map, &mut self.had);
        is_same(rt, &reaped, &wanted);
    }

    fn gave_out<R: Abort>(&self, rt: &R, rows: &[Row]) {
        is_set(rt, self.had.as_slice(), rows);
    }
}

fn is_held(landed: Landed) -> bool {
    matches!(landed, Landed::Held(_))
}

fn are_alike(swapped: Swapped, wanted: Swapped) -> bool {
    match (swapped, wanted) {
        (Swapped::Held(given), Swapped::Held(other)) => given == other,
        (Swapped::Other(found), Swapped::Other(other)) => found == other,
        (Swapped::Own, Swapped::Own) | (Swapped::Absent, Swapped::Absent) => true,
        _ => false,
    }
}

fn tenfold(id: u64) -> u64 {
    id.wrapping_mul(10)
}

#[test]
fn a_value_is_loaded_once_and_found(rt: HostRuntime) {
    let mut shelf = Shelf::open(&rt);
    shelf.finds(&rt, 7, None);
    let number = shelf.loads(&rt, 7, 70);
    shelf.waits(&rt, 7, 70);
    shelf.lands(&rt, number, 700);
    shelf.finds(&rt, 7, Some(700));
    shelf.has(&rt, 7);
    // A flight ends once.
    shelf.keeps_out(&rt, number, 701);
    shelf.closes(&rt, &[]);
}

#[test]
fn a_value_comes_out_once_nobody_holds_it(rt: HostRuntime) {
    let mut shelf = Shelf::open(&rt);
    let landed = shelf.put(7, 1, 70, 1, 0);
    assert!(&rt; matches!(landed, Landed::Held(Reclaimed::Nothing)));
    shelf.finds(&rt, 7, Some(70));
    shelf.invalidates(&rt, 7, true);
    shelf.reaps(&rt, Reaped::Held);
    shelf.finds(&rt, 7, None);
    shelf.reaps(&rt, Reaped::Set);
    shelf.gave_out(&rt, &[row(0, 7), row(1, 70)]);
    shelf.reaps(&rt, Reaped::Nothing);
    shelf.invalidates(&rt, 7, false);
    shelf.closes(&rt, &[]);
}

#[test]
fn what_began_before_an_invalidation_is_its_loaders_own(rt: HostRuntime) {
    let mut shelf = Shelf::open(&rt);
    let number = shelf.loads(&rt, 7, 70);
    shelf.invalidates(&rt, 7, false);
    shelf.waits(&rt, 7, 70);
    shelf.keeps_out(&rt, number, 700);
    shelf.finds(&rt, 7, None);
    // A put outdates a flight too, and its value stays.
    let number = shelf.loads(&rt, 7, 71);
    shelf.puts(&rt, 7, 701);
    shelf.keeps_out(&rt, number, 702);
    shelf.finds(&rt, 7, Some(701));
    shelf.closes(&rt, &[]);
}

#[test]
fn what_is_loaded_during_a_change_is_its_loaders_own(rt: HostRuntime) {
    let mut shelf = Shelf::open(&rt);
    let before = shelf.loads(&rt, 7, 70);
    shelf.begins_change(&rt, 7, true);
    // There is room for one change.
    shelf.begins_change(&rt, 8, false);
    shelf.keeps_out(&rt, before, 700);
    let during = shelf.loads(&rt, 7, 71);
    assert!(&rt; !is_held(shelf.put(7, 1, 701, 1, 0)));
    shelf.ends_change(&rt, 7, true);
    shelf.ends_change(&rt, 7, false);
    shelf.keeps_out(&rt, during, 702);
    shelf.finds(&rt, 7, None);
    let after = shelf.loads(&rt, 7, 72);
    shelf.lands(&rt, after, 703);
    shelf.finds(&rt, 7, Some(703));
    shelf.closes(&rt, &[]);
}

#[test]
fn a_value_is_swapped_while_it_is_there(rt: HostRuntime) {
    let mut shelf = Shelf::open(&rt);
    shelf.swaps(&rt, 7, 70, 71, Swapped::Absent);
    shelf.looks(&rt, 7, None);
    shelf.puts(&rt, 7, 70);
    shelf.swaps(&rt, 7, 71, 72, other(70));
    shelf.looks(&rt, 7, Some(70));
    shelf.swaps(&rt, 7, 70, 71, Swapped::Held(Reclaimed::Nothing));
    shelf.finds(&rt, 7, Some(71));
    shelf.reaps(&rt, Reaped::Set);
    shelf.gave_out(&rt, &[row(0, 7), row(1, 70)]);
    // During a change the value that was there goes, and none comes.
    shelf.begins_change(&rt, 7, true);
    shelf.swaps(&rt, 7, 70, 72, other(71));
    shelf.swaps(&rt, 7, 71, 72, Swapped::Own);
    shelf.looks(&rt, 7, None);
    shelf.ends_change(&rt, 7, true);
    shelf.closes(&rt, &[]);
}

fn other(value: u64) -> Swapped {
    Swapped::Other(FoundValue { stamp: 1, value })
}

#[test]
fn an_eviction_leaves_the_flight(rt: HostRuntime) {
    let mut shelf = Shelf::open(&rt);
    let number = shelf.loads(&rt, 7, 70);
    shelf.evicts(&rt, 7, false);
    shelf.lands(&rt, number, 700);
    shelf.evicts(&rt, 7, true);
    shelf.finds(&rt, 7, None);
    shelf.closes(&rt, &[]);
}

#[test]
fn all_is_counted_and_invalidated(rt: HostRuntime) {
    let mut shelf = Shelf::open(&rt);
    shelf.counts(&rt, 0, 0, 0);
    shelf.puts_each(&rt, 1, 6);
    let number = shelf.loads(&rt, 6, 60);
    shelf.begins_change(&rt, 7, true);
    shelf.counts(&rt, 5, 1, 1);
    shelf.invalidates_all();
    shelf.counts(&rt, 0, 1, 1);
    for id in 1..6u64 {
        shelf.looks(&rt, id, None);
    }
    shelf.keeps_out(&rt, number, 60);
    shelf.counts(&rt, 0, 0, 1);
    shelf.closes(&rt, &[]);
}

#[test]
fn what_is_left_comes_out(rt: HostRuntime) {
    let mut shelf = Shelf::open(&rt);
    shelf.puts(&rt, 7, 70);
    shelf.puts(&rt, 8, 80);
    shelf.puts(&rt, 9, 90);
    // One came out before, and one waits.
    shelf.evicts(&rt, 7, true);
    shelf.reaps(&rt, Reaped::Set);
    shelf.evicts(&rt, 8, true);
    shelf.leaves(&rt, &[row(0, 8), row(1, 80)], &[row(0, 9), row(1, 90)]);
}

#[test]
fn flights_have_room_and_end_with_the_store(rt: HostRuntime) {
    let mut shelf = Shelf::open(&rt);
    let first = shelf.loads(&rt, 1, 10);
    let _second = shelf.loads(&rt, 2, 20);
    shelf.is_alone(&rt, 3);
    shelf.fails(&rt, first, Some((1, 10)));
    shelf.fails(&rt, first, None);
    let _third = shelf.loads(&rt, 3, 30);
    shelf.closes(&rt, &[20, 30]);
}

#[test]
fn the_oldest_flight_ends_first(rt: HostRuntime) {
    let mut shelf = Shelf::open(&rt);
    shelf.fails_oldest(&rt, None);
    let _first = shelf.loads(&rt, 1, 10);
    let second = shelf.loads(&rt, 2, 20);
    shelf.fails_oldest(&rt, Some(10));
    let _third = shelf.loads(&rt, 1, 30);
    shelf.fails(&rt, second, Some((2, 20)));
    let _fourth = shelf.loads(&rt, 2, 40);
    shelf.fails_oldest(&rt, Some(30));
    shelf.fails_oldest(&rt, Some(40));
    shelf.fails_oldest(&rt, None);
    shelf.closes(&rt, &[]);
}

#[test]
fn bad_sizes_of_a_store_are_refused(rt: HostRuntime) {
    let bad = [
        StoreShape { groups: 0, ..SMALL },
        StoreShape {
            groups: MAX_STORE_GROUPS + 1,
            ..SMALL
        },
        StoreShape {
            readers: 0,
            ..SMALL
        },
        StoreShape {
            capacity: 0,
            ..SMALL
        },
        StoreShape {
            capacity: 17,
            ..SMALL
        },
    ];
    for shape in &bad {
        match Store::open(rt.alloc(), shape) {
            Err(OpenFault::BadSize) => {}
            Err(OpenFault::Memory) => panic!(&rt; "memory"),
            Ok((_map, store, _readers)) => {
                store.close();
                panic!(&rt; "it is refused")
            }
        }
    }
}
