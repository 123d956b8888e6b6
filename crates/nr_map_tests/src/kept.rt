//! Kept finds, by the last reader of a map that has as many readers as one may.
ghost use Rattle.std.specs.Prelude.{◌≡◌, ◌<◌};

use crate::calls::{Told, ask, fill, rows_of};
use crate::same::{are_same, is_same};
use crate::worked::{next, of_sizes};
use nr_map::{Found, Hand, MAX_LARGE_READERS, Reader, ReaderMap, Writer};
use nr_model::RowSet;
use std::process::Abort;

// Finds the key, finds it again by the set that it holds, lets that go, and finds it anew.
fn finds_three_times<R: Abort>(rt: &R, map: &ReaderMap, hand: &mut Hand, key: u32)
    requires own { hand.old.reader.table ≡ map.now }
    requires key { key < map.now.shape.keys }
    ensures own { hand.new.reader.table ≡ map.now }
{
    let mut rows = RowSet::new();
    let first = hand.find_kept(map, key, &mut rows);
    let second = hand.find_kept(map, key, &mut rows);
    is_same(rt, &hand.key(), &Some(key));
    hand.release(map);
    is_same(rt, &hand.key(), &None);
    let third = hand.find_kept(map, key, &mut rows);
    is_same(rt, &[first, second, third], &[Found::Rows; 3]);
    are_same(
        rt,
        rows.as_slice(),
        rows_of(&[(u64::from(key), 7)]).as_slice(),
    );
}

fn fills<R: Abort>(rt: &R, map: &ReaderMap, writer: &mut Writer, reader: &mut Reader, key: u32)
    requires writer { writer.old.table ≡ map.now }
    requires reader { reader.old.table ≡ map.now }
    requires key { key < map.now.shape.keys }
    ensures reader { reader.new.table ≡ map.now }
{
    is_same(rt, &ask(map, reader, key), &Told::Send(key, 0));
    let filled = fill(map, writer, key, 0, &rows_of(&[(u64::from(key), 7)]));
    is_same(rt, &filled, &Some(Ok(())));
}

fn works<R: Abort>(rt: &R, map: &ReaderMap, mut writer: Writer, mut reader: Reader)
    requires writer { writer.table ≡ map.now }
    requires reader { reader.table ≡ map.now }
{
    let key = MAX_LARGE_READERS - 1;
    assert!(rt; key < map.keys());
    fills(rt, map, &mut writer, &mut reader, key);
    let mut hand = Hand::of(reader);
    is_same(rt, &hand.number(), &MAX_LARGE_READERS);
    finds_three_times(rt, map, &mut hand, key);
    hand.into_reader(map);
}

#[test]
fn the_last_of_all_readers_keeps_what_it_found(rt: HostRuntime) {
    let shape = of_sizes(MAX_LARGE_READERS, MAX_LARGE_READERS, MAX_LARGE_READERS, 1);
    let opened = ReaderMap::open_large(rt.alloc(), &shape);
    let (map, writer, mut readers) = opened.expect(&rt, "a map");
    let reader = next(&rt, &map, &mut readers);
    works(&rt, &map, writer, reader);
}
