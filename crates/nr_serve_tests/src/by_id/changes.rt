//! What a dataflow does to rows besides its fills, and what it and a client tell each other.
ghost use Rattle.std.specs.Prelude.{◌≡◌, ◌<◌};
ghost use Rattle.nr_model.specs.Batches.{IsBatch};
ghost use Rattle.nr_idmap.specs.Keepers.{id_rows};
ghost use Rattle.nr_idmap.specs.Tags.{AreIdDeltas};

use crate::by_id::opened::{asks, fills, finds};
use crate::by_id::scenes::{Scene, plays};
use nr_idmap::are_id_deltas;
use nr_idserve::{IdClient, IdDataflow};
use nr_model::{Batch, Delta, Row};
use std::process::Abort;
use std::sync::Wait;

// One row more, `2:7`.
fn one_more<R: Abort>(rt: &R) -> Batch
    ensures batch { IsBatch result }
    ensures deltas { AreIdDeltas result }
{
    let row = Row { a: 2, b: 7 };
    let batch = Batch::of(&[Delta { plus: true, row }]).expect(rt, "a batch");
    assert!(rt; are_id_deltas(batch.as_slice()));
    batch
}

// A filled id gets a row, and then another set.
fn changes<R: Abort + Wait>(rt: &R, client: &mut IdClient<'_>, flow: &mut IdDataflow<'_>)
    requires { 0 < id_rows flow.old.map }
    ensures client { client.new.map ≡ client.old.map }
    ensures flow { flow.new.map ≡ flow.old.map }
{
    let upquery = asks(rt, client, flow, 1);
    fills(rt, flow, upquery, 5);
    assert!(rt; flow.update(1, one_more(rt).as_slice()).is_ok());
    finds(rt, client, 1, &[Row { a: 1, b: 5 }, Row { a: 2, b: 7 }]);
    assert!(rt; flow.replace(1, &[Row { a: 3, b: 1 }]).is_ok());
    finds(rt, client, 1, &[Row { a: 3, b: 1 }]);
    assert!(rt; flow.replace(2, &[Row { a: 3, b: 1 }]).is_err());
}

// Each hears the other.
fn tell<R: Abort + Wait>(rt: &R, client: &mut IdClient<'_>, flow: &mut IdDataflow<'_>)
    requires { flow.old.map ≡ client.old.map }
{
    let told = flow.note();
    client.hear(told);
    let told = client.note();
    flow.hear(told);
    finds(rt, client, 1, &[Row { a: 3, b: 1 }]);
}

pub(crate) fn changes_and_tells<R: Abort + Wait>(
    rt: &R,
    client: &mut IdClient<'_>,
    flow: &mut IdDataflow<'_>,
)
    requires map { flow.old.map ≡ client.old.map }
    requires room { 0 < id_rows flow.old.map }
{
    changes(rt, client, flow);
    tell(rt, client, flow);
}

#[test]
fn rows_change_and_notes_tell(rt: HostRuntime) {
    plays(&rt, Scene::ChangesRows, 1, 4, None);
}
