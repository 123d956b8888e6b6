//! A ticket that the full queue handed back wakes a dataflow that sleeps, once it is posted.
ghost use Rattle.std.specs.Prelude.{◌≡◌, ◌<◌};

use crate::opened::{Asking, Plain, Serving, comes, end_client, end_flow, opened_from};
use crate::same::is_same;
use nr_model::RowSet;
use nr_serve::{Client, Got, OpenGate, Turn};
use std::sync::Wait;
use std::sync::atomic::{AtomicBool, Ordering};
use std::thread::{self, Threads};
use std::time::{Clock, Duration};

/// What the threads tell: that the client keeps a ticket; that key 0 is filled, so that the queue is empty; and that the
/// dataflow came back.
#[derive(Drop)]
struct Told {
    kept: AtomicBool,
    filled: AtomicBool,
    came: AtomicBool,
}

impl Told {
    fn nothing() -> Told {
        Told {
            kept: AtomicBool::new(false),
            filled: AtomicBool::new(false),
            came: AtomicBool::new(false),
        }
    }
}

// Fills key 0, finds nothing more, and sleeps; and takes one turn once it is woken.
fn fills_and_sleeps<R: Wait + Clock>(rt: &R, serving: Serving<'_>, told: &Told) {
    let mut flow = serving.opens(Plain { bound: 0 });
    comes(rt, &told.kept);
    flow.turn(rt);
    told.filled.store(true, Ordering::SeqCst);
    if flow.turn_or_sleep(rt) == Turn::Idle {
        flow.turn(rt);
    }
    end_flow(flow);
    told.came.store(true, Ordering::SeqCst);
}

// A get of one try.
fn gets_once<R: Wait>(rt: &R, client: &mut Client<'_, OpenGate>, key: u32) -> Got
    requires { key < client.old.map.shape.keys }
    ensures { client.new.map ≡ client.old.map }
{
    client.get(rt, key, 1, &mut RowSet::new())
}

// One get of one try for key 0, whose ticket fills the queue, and two for key 1: the first keeps its ticket, and the
// second posts it. Whether that wakes the dataflow, and how a last get ends.
fn posts_what_it_kept<R: Wait + Clock>(rt: &R, asking: Asking<'_>, told: &Told) -> (bool, Got) {
    let lobby = asking.service.lobby();
    let mut client = asking.opens(&OpenGate);
    gets_once(rt, &mut client, 0);
    gets_once(rt, &mut client, 1);
    told.kept.store(true, Ordering::SeqCst);
    comes(rt, &told.filled);
    thread::sleep(rt, Duration::from_millis(50));
    gets_once(rt, &mut client, 1);
    let is_awake = comes(rt, &told.came);
    lobby.close(rt);
    lobby.ring(rt, &mut lobby.guest());
    let got = gets_once(rt, &mut client, 1);
    end_client(client);
    (is_awake, got)
}

// The dataflow has a thread of its own.
fn plays<R: Threads + Wait + Clock + Sync>(
    rt: &R,
    asking: Asking<'_>,
    serving: Serving<'_>,
    told: &Told,
) -> Option<(bool, Got)> {
    thread::scope(thread::scope_env(), rt, |scope| -> Option<(bool, Got)> {
        let flow = scope.spawn(move || fills_and_sleeps(rt, serving, told));
        if flow.is_err() {
            return None;
        }
        Some(posts_what_it_kept(rt, asking, told))
    })
}

#[test]
fn the_post_of_a_kept_ticket_wakes_a_dataflow(rt: HostRuntime) {
    let (service, tokens) = opened_from(&rt, 4, 1, 0);
    let (asking, serving) = tokens.sides(&service);
    let woken = plays(&rt, asking, serving, &Told::nothing());
    is_same(&rt, &woken, &Some((true, Got::Rows)));
}
