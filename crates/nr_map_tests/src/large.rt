//! The largest maps, and keys that have as many rows as they may have.

use crate::calls::{Told, minus, plus};
use crate::worked::{Worked, of_sizes};
use nr_map::{MAX_LARGE_SLOTS, MAX_READERS, MAX_SLOTS, UpdateFault};
use nr_model::{MAX_KEYS, MAX_ROWS, Row, RowSet};
use std::process::Abort;

// The row that a key is filled with.
fn row_of(key: u32) -> [(u64, u64); 1] {
    [(u64::from(key), 7)]
}

fn fills<R: Abort>(rt: &R, worked: &mut Worked, key: u32) {
    worked.asks(rt, key, Told::Send(key, 0));
    worked.fills(rt, key, 0, &row_of(key));
}

// A thousand keys here and there. The factor is a prime number that divides no number of keys, so no
// key comes twice.
fn drawn<R: Abort>(rt: &R, keys: u32, at: u32) -> u32 {
    assert!(rt; 0 < keys);
    (u64::from(at) * 2_654_435_761 % u64::from(keys)) as u32
}

// Fills the first key, the last one and a thousand others, and then finds each.
fn fills_and_finds_many<R: Abort>(rt: &R, worked: &mut Worked) {
    let keys = worked.map.keys();
    assert!(rt; 0 < keys);
    fills(rt, worked, keys - 1);
    for at in 0..1001 {
        fills(rt, worked, drawn(rt, keys, at));
    }
    worked.finds(rt, keys - 1, &row_of(keys - 1));
    for at in 0..1001 {
        let key = drawn(rt, keys, at);
        worked.finds(rt, key, &row_of(key));
    }
}

#[test]
fn keys_of_the_largest_map_are_found(rt: HostRuntime) {
    let shape = of_sizes(MAX_LARGE_SLOTS, MAX_LARGE_SLOTS, 1, 1);
    let mut worked = Worked::open_large(&rt, &shape);
    fills_and_finds_many(&rt, &mut worked);
}

// Most keys are holes, and each of them can be filled.
#[test]
fn a_map_has_ten_times_as_many_keys_as_slots(rt: HostRuntime) {
    let shape = of_sizes(1_000_000, 100_000, 1, 1);
    let mut worked = Worked::open_large(&rt, &shape);
    fills_and_finds_many(&rt, &mut worked);
}

/// The rows `first:0` on, as many as a set has room for.
fn numbered(first: u64) -> RowSet {
    let mut rows = [Row { a: 0, b: 0 }; MAX_ROWS];
    let mut a = first;
    for row in rows.iter_mut() {
        row.a = a;
        a = a.wrapping_add(1);
    }
    RowSet::of(&rows).unwrap_or(RowSet::new())
}

// A key that has as many rows as it may have takes none more, and one for another.
fn is_full<R: Abort>(rt: &R, worked: &mut Worked, key: u32) {
    worked.asks(rt, key, Told::Send(key, 0));
    worked.fills_set(rt, key, 0, &numbered(1));
    worked.updates(rt, key, &[plus(0, 0)], Err(UpdateFault::TooMany));
    worked.finds_set(rt, key, &numbered(1));
    worked.updates(rt, key, &[plus(0, 0), minus(255, 0)], Ok(()));
    worked.finds_set(rt, key, &numbered(0));
}

#[test]
fn keys_of_the_largest_map_of_scripts_are_found(rt: HostRuntime) {
    let shape = of_sizes(MAX_KEYS, MAX_SLOTS, MAX_READERS, MAX_ROWS as u32);
    let mut worked = Worked::open_with(&rt, &shape);
    fills_and_finds_many(&rt, &mut worked);
    is_full(&rt, &mut worked, 1);
}
