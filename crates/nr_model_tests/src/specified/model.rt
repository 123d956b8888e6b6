//! Rows, sets, batches and the sequential map.
ghost use Rattle.std.specs.Prelude.{◌<◌, ◌≤◌};

use crate::calls::{replies, row, set_of};
use crate::same::is_same;
use nr_model::{
    ApplyFault, Batch, BatchFault, Call, Delta, KeyState, OpenFault, Reply, Row, RowSet, SeqMap,
    TooMany,
};
use std::alloc::Global;
use std::process::Abort;

// A row twice, since rows and signed rows are copied.
fn added(row: Row) -> [Delta; 2] {
    let Row { a, b } = row;
    let delta = Delta {
        plus: true,
        row: Row { a, b },
    };
    [delta, delta]
}

// The sets without and with rows, and what each place of the second has.
fn sets() -> Result<(usize, usize, Option<Row>, Option<Row>), TooMany> {
    let none: RowSet = RowSet::new();
    let set: RowSet = RowSet::of(&[row(7, 1), row(3, 9)])?;
    let copied = set;
    Ok((none.len(), set.len(), copied.get(0), set.get(2)))
}

#[test]
fn sets_are_made_of_rows(rt: HostRuntime) {
    is_same(&rt, &sets(), &Ok((0, 2, Some(row(3, 9)), None)));
}

fn batch_of(deltas: &[Delta]) -> Result<Batch, BatchFault> {
    let batch: Result<Batch, BatchFault> = Batch::of(deltas);
    batch
}

#[test]
fn batches_are_made_of_signed_rows(rt: HostRuntime) {
    let deltas = added(row(1, 1));
    let batch = batch_of(&deltas).expect(&rt, "a batch");
    let copied = batch;
    is_same(&rt, &(batch.len(), copied.get(1)), &(2, Some(deltas[1])));
    let refused = [batch_of(&[]).err(), batch_of(&[deltas[0]; 65]).err()];
    let wanted = [Some(BatchFault::Empty), Some(BatchFault::TooLong)];
    is_same(&rt, &refused, &wanted);
}

// How a change of the empty set ends, of which that many rows may be left.
fn change(rt: &impl Abort, deltas: &[Delta], rows: u32) -> Result<usize, ApplyFault>
    requires { (0 < rows) × (rows ≤ 255) }
{
    let batch = batch_of(deltas).expect(rt, "a batch");
    let set: RowSet = RowSet::new().applied(&batch, rows)?;
    Ok(set.len())
}

#[test]
fn a_batch_applies_within_a_bound(rt: HostRuntime) {
    let [one, two] = added(row(1, 1));
    let taken = Delta { plus: false, ..one };
    let ends = [
        change(&rt, &[one, two], 2),
        change(&rt, &[one, two], 1),
        change(&rt, &[taken], 1),
    ];
    let wanted = [Ok(2), Err(ApplyFault::TooMany), Err(ApplyFault::NoRow)];
    is_same(&rt, &ends, &wanted);
}

// The number that a request is sent with.
fn number_sent(reply: Reply) -> Option<u64> {
    match reply {
        Reply::Send(number) => Some(number),
        Reply::Rows(_) | Reply::Hole | Reply::Waiting | Reply::Filled | Reply::Done => None,
        Reply::NotAsked | Reply::Already | Reply::Stale | Reply::Dropped | Reply::NoRow => None,
        Reply::TooMany | Reply::Evicted | Reply::Nothing | Reply::Cancelled | Reply::Worn => None,
    }
}

// A state's number, and how many rows it has.
fn told(state: KeyState) -> (u64, Option<usize>) {
    match state {
        KeyState::Hole(number) | KeyState::Asked(number) => (number, None),
        KeyState::Rows(number, set) => (number, Some(set.len())),
    }
}

// A new map of one key, what its key is, and what it is after a request that was sent.
fn asked(alloc: Global) -> Result<(u32, u32, [(u64, Option<usize>); 2], Option<u64>), OpenFault> {
    let mut map: SeqMap = SeqMap::open_with(alloc, 1, 7, 2)?;
    let (keys, rows): (u32, u32) = (map.keys(), map.rows());
    let before = told(map.state(0));
    let sent = number_sent(map.call(&Call::Ask(0)));
    Ok((keys, rows, [before, told(map.state(0))], sent))
}

#[test]
fn a_key_is_asked_for(rt: HostRuntime) {
    let states = [(7, None), (7, None)];
    is_same(&rt, &asked(rt.alloc()), &Ok((1, 2, states, Some(7))));
}

#[test]
fn a_map_that_is_too_small_is_refused(rt: HostRuntime) {
    let refused: Option<OpenFault> = SeqMap::open(rt.alloc(), 0).err();
    is_same(&rt, &refused, &Some(OpenFault::BadSize));
    assert!(rt; OpenFault::BadSize != OpenFault::Memory);
}

#[test]
fn each_call_has_its_key_and_what_it_brings(rt: HostRuntime) {
    let mut map = SeqMap::open(rt.alloc(), 2).expect(&rt, "a map");
    let set = set_of(&rt, &[row(1, 1)]);
    let more = batch_of(&added(row(2, 2))).expect(&rt, "a batch");
    let calls = [
        (Call::Find(1), "Hole"),
        (Call::Ask(1), "Send(0)"),
        (Call::Cancel(1), "Cancelled"),
        (Call::Ask(1), "Send(1)"),
        (Call::Fill(1, 1, set), "Done"),
        (Call::Update(1, more), "Done"),
        (Call::Evict(1), "Evicted"),
    ];
    replies(&rt, &mut map, &calls);
}
