//! Gets of a worker, one after another in one thread.
ghost use Rattle.std.specs.Prelude.{◌≡◌, ◌≤◌, length};

use crate::opened::{end_both, misses, one_row, opened};
use crate::same::is_same;
use nr_load::{Draws, LoadFault, Worked, load_gets};
use nr_model::RowSet;
use nr_serve::{Client, Dataflow, Lobby, OpenGate, Source, Turn};
use std::process::Abort;
use std::sync::Wait;

/// Each key has the one row of the next key.
#[derive(Drop)]
struct Liar;

impl Source for Liar {
    fn rows(&mut self, key: u32, _bound: u32) -> RowSet {
        one_row(u64::from(key) + 1, 0)
    }
}

// The client asks for key 0, and the liar's dataflow fills it.
fn lies<R: Abort + Wait>(rt: &R, client: &mut Client<'_, OpenGate>, flow: &mut Dataflow<'_, Liar>)
    requires { client.old.map.shape.keys ≡ 2 }
    ensures { client.new.map ≡ client.old.map }
{
    misses(rt, client, 0);
    is_same(rt, &flow.turn(rt), &Turn::Filled(0));
}

// Gets of key 0 of a worker of number 1 come to that.
fn works<R: Abort + Wait + AllocGlobal>(
    rt: &R,
    client: &mut Client<'_, OpenGate>,
    lobby: &Lobby,
    wanted: &Worked,
)
    requires { client.old.map.shape.keys ≡ 2 }
    ensures { client.new.map ≡ client.old.map }
{
    let mut draws = Draws::open(1, 1, 1);
    let worked = load_gets(rt, rt.alloc(), client, &mut draws, 5, lobby);
    is_same(rt, &worked, wanted);
}

// A worker finds that the rows are wrong.
fn finds_lies<R: Abort + Wait + AllocGlobal>(
    rt: &R,
    client: &mut Client<'_, OpenGate>,
    lobby: &Lobby,
)
    requires { client.old.map.shape.keys ≡ 2 }
    ensures { client.new.map ≡ client.old.map }
{
    let lied = Worked {
        made: 1,
        answered: 1,
        stopped: false,
        fault: Some(LoadFault::WrongRows),
    };
    works(rt, client, lobby, &lied);
}

// A worker makes no get, since the lobby is closed.
fn is_stopped<R: Abort + Wait + AllocGlobal>(
    rt: &R,
    client: &mut Client<'_, OpenGate>,
    lobby: &Lobby,
)
    requires { client.old.map.shape.keys ≡ 2 }
{
    lobby.close(rt);
    let closed = Worked {
        made: 0,
        answered: 0,
        stopped: true,
        fault: None,
    };
    works(rt, client, lobby, &closed);
}

#[test]
fn wrong_rows_are_told_and_a_closed_lobby_has_no_gets(rt: HostRuntime) {
    let (service, tokens) = opened(&rt, 4);
    let (mut client, mut flow) = tokens.opens(&service, &OpenGate, Liar);
    lies(&rt, &mut client, &mut flow);
    finds_lies(&rt, &mut client, service.lobby());
    is_stopped(&rt, &mut client, service.lobby());
    end_both(&rt, client, flow);
}
