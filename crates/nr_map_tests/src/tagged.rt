//! Finds of sets that begin with a tag: of such a set, of sets with other first rows, of a set of no row,
//! and of a hole.
ghost use Rattle.std.specs.Prelude.{◌≡◌, ◌<◌};

use crate::calls::{Told, rows_of};
use crate::same::{are_same, is_same};
use crate::worked::Worked;
use nr_map::{Hand, Reader, ReaderMap, Tagged};
use nr_model::{Row, RowSet};
use std::process::Abort;

const TAG: Row = Row { a: 0, b: 5 };

/// What the room has before each find.
const BEFORE: [(u64, u64); 1] = [(9, 9)];

/// What the tagged set has behind its tag: its first row only looks like one.
const BEHIND: [(u64, u64); 2] = [(0, 6), (2, 8)];

fn found_by_reader(map: &ReaderMap, reader: &mut Reader, key: u32) -> (Tagged, RowSet)
    requires own { reader.old.table ≡ map.now }
    requires key { key < map.now.shape.keys }
    ensures own { reader.new.table ≡ map.now }
{
    let mut room = rows_of(&BEFORE);
    let answer = map.find_tagged(reader, key, TAG, &mut room);
    (answer, room)
}

fn found_by_hand(map: &ReaderMap, hand: &mut Hand, key: u32) -> (Tagged, RowSet)
    requires own { hand.old.reader.table ≡ map.now }
    requires key { key < map.now.shape.keys }
    ensures own { hand.new.reader.table ≡ map.now }
{
    let mut room = rows_of(&BEFORE);
    let answer = hand.find_tagged(map, key, TAG, &mut room);
    (answer, room)
}

fn kept_by_hand(map: &ReaderMap, hand: &mut Hand, key: u32) -> (Tagged, RowSet)
    requires own { hand.old.reader.table ≡ map.now }
    requires key { key < map.now.shape.keys }
    ensures own { hand.new.reader.table ≡ map.now }
{
    let mut room = rows_of(&BEFORE);
    let answer = hand.find_tagged_kept(map, key, TAG, &mut room);
    (answer, room)
}

// What is told of the key's set into two rows, and its rows behind the tag.
fn found_first(map: &ReaderMap, hand: &mut Hand, key: u32) -> (Option<u32>, (Tagged, u32), [Row; 2])
    requires own { hand.old.reader.table ≡ map.now }
    requires key { key < map.now.shape.keys }
    ensures own { hand.new.reader.table ≡ map.now }
{
    let mut cells = [Row { a: 9, b: 9 }; 2];
    let all = hand.find_first(map, key, &mut cells[..1]);
    let behind = hand.find_tagged_first(map, key, TAG, &mut cells[1..]);
    (all, behind, cells)
}

fn is_found<R: Abort>(rt: &R, found: &(Tagged, RowSet), answer: Tagged, pairs: &[(u64, u64)]) {
    is_same(rt, &found.0, &answer);
    are_same(rt, found.1.as_slice(), rows_of(pairs).as_slice());
}

fn reader_finds<R: Abort>(rt: &R, map: &ReaderMap, reader: &mut Reader)
    requires own { reader.old.table ≡ map.now }
    requires keys { map.now.shape.keys ≡ 5 }
    ensures own { reader.new.table ≡ map.now }
{
    let tagged = found_by_reader(map, reader, 0);
    is_found(rt, &tagged, Tagged::Rows, &BEHIND);
    let other = found_by_reader(map, reader, 1);
    is_found(rt, &other, Tagged::Other, &BEFORE);
    let other = found_by_reader(map, reader, 2);
    is_found(rt, &other, Tagged::Other, &BEFORE);
    let empty = found_by_reader(map, reader, 3);
    is_found(rt, &empty, Tagged::Other, &BEFORE);
    let hole = found_by_reader(map, reader, 4);
    is_found(rt, &hole, Tagged::Hole, &BEFORE);
}

// The hand holds another key's set before each find, and nothing after it.
fn hand_finds<R: Abort>(rt: &R, map: &ReaderMap, mut hand: Hand)
    requires own { hand.reader.table ≡ map.now }
    requires keys { map.now.shape.keys ≡ 5 }
{
    hand.pin(map, 1);
    let tagged = found_by_hand(map, &mut hand, 0);
    is_found(rt, &tagged, Tagged::Rows, &BEHIND);
    is_same(rt, &(hand.pin(map, 0), hand.len()), &(true, 3));
    let other = found_by_hand(map, &mut hand, 1);
    is_found(rt, &other, Tagged::Other, &BEFORE);
    is_same(rt, &(hand.key(), hand.pin(map, 0)), &(None, true));
    let hole = found_by_hand(map, &mut hand, 4);
    is_found(rt, &hole, Tagged::Hole, &BEFORE);
    is_same(rt, &hand.key(), &None);
    hand.into_reader(map);
}

fn hand_finds_rows<R: Abort>(rt: &R, map: &ReaderMap, hand: &mut Hand)
    requires own { hand.old.reader.table ≡ map.now }
    requires keys { map.now.shape.keys ≡ 5 }
    ensures own { hand.new.reader.table ≡ map.now }
{
    let tagged = kept_by_hand(map, hand, 0);
    is_found(rt, &tagged, Tagged::Rows, &BEHIND);
    is_same(rt, &(hand.key(), hand.len()), &(Some(0), 3));
}

// The hand goes on from set to set, and holds the one that it found last, whichever that is.
fn hand_goes_on<R: Abort>(rt: &R, map: &ReaderMap, hand: &mut Hand)
    requires own { hand.old.reader.table ≡ map.now }
    requires keys { map.now.shape.keys ≡ 5 }
    ensures own { hand.new.reader.table ≡ map.now }
{
    hand_finds_rows(rt, map, hand);
    hand_finds_rows(rt, map, hand);
    let other = kept_by_hand(map, hand, 1);
    is_found(rt, &other, Tagged::Other, &BEFORE);
    is_same(rt, &(hand.key(), hand.len()), &(Some(1), 2));
    let empty = kept_by_hand(map, hand, 3);
    is_found(rt, &empty, Tagged::Other, &BEFORE);
    let hole = kept_by_hand(map, hand, 4);
    is_found(rt, &hole, Tagged::Hole, &BEFORE);
    is_same(rt, &hand.key(), &None);
}

// Into too little room the first rows go, and the count tells of the others.
fn hand_finds_first<R: Abort>(rt: &R, map: &ReaderMap, hand: &mut Hand)
    requires own { hand.old.reader.table ≡ map.now }
    requires keys { map.now.shape.keys ≡ 5 }
    ensures own { hand.new.reader.table ≡ map.now }
{
    let (all, behind, cells) = found_first(map, hand, 0);
    is_same(rt, &(all, behind), &(Some(3), (Tagged::Rows, 2)));
    are_same(rt, &cells, rows_of(&[(0, 5), (0, 6)]).as_slice());
    let (all, behind, cells) = found_first(map, hand, 1);
    is_same(rt, &(all, behind), &(Some(2), (Tagged::Other, 0)));
    are_same(rt, &cells, &[Row { a: 0, b: 6 }, Row { a: 9, b: 9 }]);
    let (all, behind, cells) = found_first(map, hand, 4);
    is_same(rt, &(all, behind), &(None, (Tagged::Hole, 0)));
    are_same(rt, &cells, &[Row { a: 9, b: 9 }; 2]);
}

fn fills<R: Abort>(rt: &R, worked: &mut Worked, key: u32, pairs: &[(u64, u64)])
    ensures { worked.new ≡ worked.old }
{
    worked.asks(rt, key, Told::Send(key, 0));
    worked.fills(rt, key, 0, pairs);
}

/// A map of one tagged set, three others and a hole.
fn filled<R: Abort + AllocGlobal>(rt: &R) -> Worked
    ensures { result.shape.keys ≡ 5 }
{
    let mut worked = Worked::open(rt, 5, 8, 1, 0);
    fills(rt, &mut worked, 0, &[(0, 5), (0, 6), (2, 8)]);
    fills(rt, &mut worked, 1, &[(0, 6), (2, 8)]);
    fills(rt, &mut worked, 2, &[(1, 5), (2, 8)]);
    fills(rt, &mut worked, 3, &[]);
    worked
}

#[test]
fn tagged_sets_are_found_by_their_tags(rt: HostRuntime) {
    let Worked {
        map,
        writer: _,
        mut reader,
    } = filled(&rt);
    reader_finds(&rt, &map, &mut reader);
    let mut hand = Hand::of(reader);
    hand_goes_on(&rt, &map, &mut hand);
    hand_finds_first(&rt, &map, &mut hand);
    hand_finds(&rt, &map, hand);
}
