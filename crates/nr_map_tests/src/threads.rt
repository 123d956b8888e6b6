//! Threads over one map. What is asserted does not depend on how their steps fall.
ghost use Rattle.std.specs.Prelude.{◌≡◌, ◌<◌};

use crate::calls::{Told, ask, find, pairs_are, rows_of};
use crate::same::is_same;
use crate::worked::{Worked, of_sizes};
use nr_map::{Evict, Found, Reader, ReaderMap, Writer};
use nr_model::RowSet;
use std::process::Abort;
use std::thread::{Threads, join};

fn ask_once(map: &ReaderMap, mut reader: Reader) -> (Told, Reader)
    requires own { reader.table ≡ map.now }
    requires key { 0 < map.now.shape.keys }
    ensures own { let (_, reader) = result in reader.table ≡ map.now }
{
    let told = ask(map, &mut reader, 0);
    (told, reader)
}

fn both_ask<R: Threads + Sync>(
    rt: &R,
    map: &ReaderMap,
    one: Reader,
    two: Reader,
) -> ((Told, Reader), (Told, Reader))
    requires own { (one.table ≡ map.now) × (two.table ≡ map.now) }
    requires key { 0 < map.now.shape.keys }
    ensures own { let ((_, reader), _) = result in reader.table ≡ map.now }
{
    join(
        rt,
        move || -> (Told, Reader)
            requires { (one.table ≡ map.now) × (0 < map.now.shape.keys) }
            ensures { let (_, reader) = result in reader.table ≡ map.entry.now }
        { ask_once(map, one) },
        move || -> (Told, Reader)
            requires { (two.table ≡ map.now) × (0 < map.now.shape.keys) }
        { ask_once(map, two) },
    )
}

fn is_one_sent(one: Told, other: Told) -> bool {
    matches!(
        (one, other),
        (Told::Send(0, 0), Told::Waiting) | (Told::Waiting, Told::Send(0, 0))
    )
}

#[test]
fn one_of_two_requests_is_sent(rt: HostRuntime) {
    let (worked, two) = Worked::open_two(&rt, 1, 4, 0);
    let Worked {
        map,
        writer,
        reader: one,
    } = worked;
    let ((first, reader), (second, _two)) = both_ask(&rt, &map, one, two);
    assert!(rt; is_one_sent(first, second));
    let mut worked = Worked {
        map,
        writer,
        reader,
    };
    is_filled_and_evicted(&rt, &mut worked);
}

// Key 0 is asked for.
fn is_filled_and_evicted<R: Abort>(rt: &R, worked: &mut Worked) {
    worked.fills(rt, 0, 0, &[(5, 6)]);
    worked.looks(rt, 0, &[(5, 6)]);
    worked.finds(rt, 0, &[(5, 6)]);
    worked.evicts(rt, 0, Evict::Evicted);
    worked.misses(rt, 0);
}

const TURNS: u64 = 20_000;

/// The rows `0:mark`, `1:mark` and `2:mark`, by which a set shows that it is whole.
fn marked(mark: u64) -> [(u64, u64); 3] {
    [(0, mark), (1, mark), (2, mark)]
}

fn is_whole(rows: &RowSet) -> bool {
    let mark = rows.get(0).map_or(0, |row| row.b);
    pairs_are(rows, &marked(mark))
}

/// Finds key 0 again and again: whether each set was whole.
fn find_often(map: &ReaderMap, mut reader: Reader) -> bool
    requires own { reader.table ≡ map.now }
    requires key { 0 < map.now.shape.keys }
{
    let mut rows = RowSet::new();
    let mut whole = true;
    for _ in 0..TURNS {
        let found = find(map, &mut reader, 0, &mut rows);
        whole = whole && found == Found::Rows && is_whole(&rows);
    }
    whole
}

/// Replaces key 0's set again and again: whether each was put.
fn replace_often(map: &ReaderMap, mut writer: Writer) -> bool
    requires own { writer.table ≡ map.now }
    requires key { 0 < map.now.shape.keys }
{
    let mut put = true;
    for mark in 0..TURNS {
        put = replace(map, &mut writer, &rows_of(&marked(mark))) && put;
    }
    put
}

/// Replaces key 0's set: whether it was put. It isn't where it has more rows than a key may have.
fn replace(map: &ReaderMap, writer: &mut Writer, rows: &RowSet) -> bool
    requires own { writer.old.table ≡ map.now }
    requires key { 0 < map.now.shape.keys }
    ensures own { writer.new.table ≡ map.now }
{
    rows.len() <= map.rows() as usize && map.replace(writer, 0, rows).is_ok()
}

fn both_at_once<R: Threads + Sync>(
    rt: &R,
    map: &ReaderMap,
    writer: Writer,
    reader: Reader,
) -> (bool, bool)
    requires own { (writer.table ≡ map.now) × (reader.table ≡ map.now) }
    requires key { 0 < map.now.shape.keys }
{
    join(
        rt,
        move || -> bool
            requires { (writer.table ≡ map.now) × (0 < map.now.shape.keys) }
        { replace_often(map, writer) },
        move || -> bool
            requires { (reader.table ≡ map.now) × (0 < map.now.shape.keys) }
        { find_often(map, reader) },
    )
}

fn are_found_whole<R: Abort + Threads + Sync>(rt: &R, mut worked: Worked)
    requires key { worked.shape.keys ≡ 1 }
{
    worked.asks(rt, 0, Told::Send(0, 0));
    worked.fills(rt, 0, 0, &marked(0));
    let Worked {
        map,
        writer,
        reader,
    } = worked;
    is_same(rt, &both_at_once(rt, &map, writer, reader), &(true, true));
}

#[test]
fn sets_are_found_whole(rt: HostRuntime) {
    let worked = Worked::open(&rt, 1, 3, 1, u64::MAX);
    are_found_whole(&rt, worked);
}

// The finds of a large map are by the reader's own word.
#[test]
fn sets_of_a_large_map_are_found_whole(rt: HostRuntime) {
    let worked = Worked::open_large(&rt, &of_sizes(1, 3, 1, 3));
    are_found_whole(&rt, worked);
}
