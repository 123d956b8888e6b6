//! Turns of a dataflow, which ask a source for the rows of ids.
ghost use Rattle.std.specs.Prelude.{◌≤◌, length};
ghost use Rattle.nr_idmap.specs.Tags.{AreIdRows};

use crate::by_id::opened::{finds_one, misses};
use crate::by_id::scenes::{Scene, plays};
use crate::same::is_same;
use nr_idserve::{IdClient, IdDataflow, IdSource, IdTurn, NoVictims};
use nr_model::{Row, RowSet};
use nr_serve::{Lobby, SourceFault};
use std::process::Abort;
use std::sync::Wait;

/// Each id has the one row `1:id`, where there are rows; else it fails. How often it was asked.
#[derive(Drop)]
pub(crate) struct Numbers {
    pub(crate) has_rows: bool,
    pub(crate) asked: u64,
}

impl IdSource for Numbers {
    fn rows(&mut self, id: u64, bound: u32, room: &mut RowSet) -> Result<(), SourceFault> {
        self.asked = self.asked.saturating_add(1);
        if !self.has_rows || bound == 0 {
            return Err(SourceFault);
        }
        *room = one_row(id);
        Ok(())
    }
}

fn one_row(b: u64) -> RowSet
    ensures few { length result ≤ 1 }
    ensures untagged { AreIdRows result }
{
    match RowSet::of(&[Row { a: 1, b }]) {
        Ok(rows) => rows,
        Err(_) => RowSet::new(),
    }
}

fn turns<R: Abort + Wait>(rt: &R, flow: &mut IdDataflow<'_>, source: &mut Numbers, wanted: IdTurn) {
    is_same(rt, &flow.turn(rt, &mut NoVictims, source), &wanted);
}

// The source is asked once for an id that was claimed, and never by an idle turn.
fn asks_once<R: Abort + Wait>(rt: &R, client: &mut IdClient<'_>, flow: &mut IdDataflow<'_>) {
    let mut source = Numbers {
        has_rows: true,
        asked: 0,
    };
    turns(rt, flow, &mut source, IdTurn::Idle);
    misses(rt, client, 3);
    turns(rt, flow, &mut source, IdTurn::Filled(3));
    turns(rt, flow, &mut source, IdTurn::Idle);
    finds_one(rt, client, 3, 3);
    is_same(rt, &source.asked, &1);
}

// An id is claimed anew once the source failed for it.
fn asks_anew<R: Abort + Wait>(rt: &R, client: &mut IdClient<'_>, flow: &mut IdDataflow<'_>) {
    let mut source = Numbers {
        has_rows: false,
        asked: 0,
    };
    misses(rt, client, 4);
    turns(rt, flow, &mut source, IdTurn::Failed(4));
    is_same(rt, &client.failures_for(4), &1);
    source.has_rows = true;
    misses(rt, client, 4);
    turns(rt, flow, &mut source, IdTurn::Filled(4));
    finds_one(rt, client, 4, 4);
}

// Nobody sleeps in a closed lobby, so one thread can make an idle turn.
fn turns_or_sleeps<R: Abort + Wait>(rt: &R, client: &mut IdClient<'_>, flow: &mut IdDataflow<'_>) {
    let mut source = Numbers {
        has_rows: true,
        asked: 0,
    };
    let idle = flow.turn_or_sleep(rt, &mut NoVictims, &mut source);
    misses(rt, client, 5);
    let turned = flow.turn_or_sleep(rt, &mut NoVictims, &mut source);
    is_same(rt, &(idle, turned), &(IdTurn::Idle, IdTurn::Filled(5)));
    finds_one(rt, client, 5, 5);
}

pub(crate) fn asks_its_source<R: Abort + Wait>(
    rt: &R,
    lobby: &Lobby,
    client: &mut IdClient<'_>,
    flow: &mut IdDataflow<'_>,
) {
    asks_once(rt, client, flow);
    asks_anew(rt, client, flow);
    lobby.close(rt);
    turns_or_sleeps(rt, client, flow);
}

#[test]
fn a_turn_asks_its_source(rt: HostRuntime) {
    plays(&rt, Scene::AsksSource, 1, 4, None);
}
