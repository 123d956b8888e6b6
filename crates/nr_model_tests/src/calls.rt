//! Calls of the sequential map, sets and batches, with the answers that they must give.
ghost use Rattle.std.specs.Prelude.{◌≡◌, ◌<◌};
ghost use Rattle.std.specs.Bool.{OnTrue};
ghost use Rattle.nr_model.specs.Maps.{SetFits};

use crate::same::{are_same, is_same};
use nr_model::{
    ApplyFault, Batch, BatchFault, Call, DEFAULT_ROWS, Delta, KeyState, MAX_KEYS, OpenFault, Row,
    RowSet, SeqMap, TooMany,
};
use std::alloc::Global;
use std::process::Abort;

pub(crate) fn row(a: u64, b: u64) -> Row {
    Row { a, b }
}

fn plus(a: u64, b: u64) -> Delta {
    Delta {
        plus: true,
        row: row(a, b),
    }
}

fn minus(a: u64, b: u64) -> Delta {
    Delta {
        plus: false,
        row: row(a, b),
    }
}

// The set of rows that are few enough.
pub(crate) fn set_of(rt: &impl Abort, rows: &[Row]) -> RowSet {
    RowSet::of(rows).expect(rt, "a set")
}

// The batch of signed rows that are one, or more, but few enough.
pub(crate) fn batch_of(rt: &impl Abort, deltas: &[Delta]) -> Batch {
    Batch::of(deltas).expect(rt, "a batch")
}

#[test]
fn a_set_is_in_order_and_keeps_doubles(rt: HostRuntime) {
    let set = set_of(&rt, &[row(7, 1), row(3, 9), row(7, 0), row(3, 9)]);
    let ordered = [row(3, 9), row(3, 9), row(7, 0), row(7, 1)];
    are_same(&rt, set.as_slice(), ordered.as_slice());
    is_same(
        &rt,
        &(set.len(), set.get(3), set.get(4)),
        &(4, Some(row(7, 1)), None),
    );
}

#[test]
fn a_set_of_too_many_rows_is_refused(rt: HostRuntime) {
    is_same(&rt, &RowSet::of(&[row(1, 1); 256]).err(), &Some(TooMany));
}

#[test]
fn a_batch_has_one_to_sixty_four_rows(rt: HostRuntime) {
    let batch = batch_of(&rt, &[plus(1, 1); 64]);
    is_same(
        &rt,
        &(batch.len(), batch.get(63), batch.get(64)),
        &(64, Some(plus(1, 1)), None),
    );
    let refused = [Batch::of(&[]).err(), Batch::of(&[plus(1, 1); 65]).err()];
    let wanted = [Some(BatchFault::Empty), Some(BatchFault::TooLong)];
    is_same(&rt, &refused, &wanted);
}

// How a change of a set of four equal rows ends, of which four may be left.
fn changed(rt: &impl Abort, deltas: &[Delta]) -> Result<RowSet, ApplyFault> {
    set_of(rt, &[row(1, 1); 4]).applied(&batch_of(rt, deltas), 4)
}

#[test]
fn a_batch_applies_whole(rt: HostRuntime) {
    let left = changed(&rt, &[plus(2, 2), minus(7, 7), plus(7, 7), minus(1, 1)]);
    let rows = left.expect(&rt, "it applies");
    let ordered = [row(1, 1), row(1, 1), row(1, 1), row(2, 2)];
    are_same(&rt, rows.as_slice(), ordered.as_slice());
}

#[test]
fn a_batch_applies_whole_or_not_at_all(rt: HostRuntime) {
    let refused = [
        changed(&rt, &[plus(2, 2)]).err(),
        changed(&rt, &[plus(2, 2), minus(3, 3)]).err(),
    ];
    let wanted = [Some(ApplyFault::TooMany), Some(ApplyFault::NoRow)];
    is_same(&rt, &refused, &wanted);
}

fn fits(call: &Call, rows: u32) -> bool
    ensures { OnTrue result (SetFits rows call.now) }
{
    match call {
        Call::Fill(_, _, set) | Call::Replace(_, set) => set.len() <= rows as usize,
        _ => true,
    }
}

// What the map answers to a call, as `Debug` writes it.
fn reply<R: Abort + AllocGlobal>(rt: &R, map: &mut SeqMap, call: &Call) -> String {
    assert!(rt; call.key() < map.keys() && fits(call, map.rows()));
    format!(in rt.alloc(); "{:?}", map.call(call)).expect(rt, "memory")
}

// The map replies so to these calls, one after another: each reply stands beside its call.
pub(crate) fn replies<R: Abort + AllocGlobal>(rt: &R, map: &mut SeqMap, calls: &[(Call, &str)]) {
    for (call, wanted) in calls {
        is_same(rt, &reply(rt, map, call).as_str(), wanted);
    }
}

// What a key of the map is.
fn state_of<R: Abort>(rt: &R, map: &SeqMap, key: u32) -> KeyState {
    assert!(rt; key < map.keys());
    map.state(key)
}

// Key 1 is requested: its last number but one is taken back, and its last one can't be.
fn is_worn<R: Abort + AllocGlobal>(rt: &R, map: &mut SeqMap, set: RowSet) {
    let calls = [
        (Call::Fill(1, 0, set), "NotAsked"),
        (Call::Ask(1), "Send(4194302)"),
        (Call::Cancel(1), "Cancelled"),
        (Call::Ask(1), "Send(4194303)"),
        (Call::Fill(1, 4_194_302, set), "Stale"),
        (Call::Cancel(1), "Worn"),
        (Call::Ask(1), "Waiting"),
    ];
    replies(rt, map, &calls);
}

// It is written before its fill and after.
fn is_filled<R: Abort + AllocGlobal>(rt: &R, map: &mut SeqMap, set: RowSet) {
    let calls = [
        (Call::Find(1), "Hole"),
        (Call::Replace(1, set), "Dropped"),
        (Call::Fill(1, 4_194_303, RowSet::new()), "Done"),
        (Call::Fill(1, 0, set), "Already"),
        (Call::Ask(1), "Filled"),
        (Call::Replace(1, set), "Done"),
    ];
    replies(rt, map, &calls);
}

// It gets another row.
fn is_changed<R: Abort + AllocGlobal>(rt: &R, map: &mut SeqMap) {
    let more = batch_of(rt, &[plus(2, 2)]);
    replies(rt, map, &[(Call::Update(1, more), "Done")]);
}

fn is_evicted<R: Abort + AllocGlobal>(rt: &R, map: &mut SeqMap) {
    let calls = [(Call::Evict(1), "Evicted"), (Call::Evict(1), "Nothing")];
    replies(rt, map, &calls);
}

// Key 1 has its last number and two rows. Key 0 is as it was.
fn stands<R: Abort>(rt: &R, map: &SeqMap) {
    let KeyState::Rows(number, rows) = state_of(rt, map, 1) else {
        panic!(rt; "the key is not filled");
    };
    are_same(rt, rows.as_slice(), [row(1, 1), row(2, 2)].as_slice());
    let other = state_of(rt, map, 0);
    is_same(
        rt,
        &(number, other.number(), other.is_filled()),
        &(4_194_303, 4_194_302, false),
    );
}

#[test]
fn each_call_is_answered(rt: HostRuntime) {
    let mut map = SeqMap::open_with(rt.alloc(), 2, 4_194_302, 2).expect(&rt, "a map");
    let set = set_of(&rt, &[row(1, 1)]);
    is_worn(&rt, &mut map, set);
    is_filled(&rt, &mut map, set);
    is_changed(&rt, &mut map);
    stands(&rt, &map);
    is_evicted(&rt, &mut map);
}

// Opens a map, and once more where it was refused for memory.
fn opened_at_last(alloc: Global) -> Result<SeqMap, OpenFault> {
    match SeqMap::open(alloc, MAX_KEYS) {
        Err(OpenFault::Memory) => SeqMap::open(alloc, MAX_KEYS),
        opened => opened,
    }
}

// An opening that was refused is made once more, so this passes whichever request is refused.
#[test]
fn a_map_opens_after_refused_memory(rt: HostRuntime) {
    let map = opened_at_last(rt.alloc()).expect(&rt, "a map");
    is_same(&rt, &(map.keys(), map.rows()), &(MAX_KEYS, DEFAULT_ROWS));
    assert!(rt; matches!(&state_of(&rt, &map, 65_535), KeyState::Hole(0)));
}
