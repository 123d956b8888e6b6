//! Each public item of the program in the form that its callers rely on: where a name, a field, an argument
//! or an answer changes, this file no longer compiles.
ghost use Rattle.std.specs.Prelude.{◌≡◌};

use crate::same::{are_same, is_same};
use nr_map::{Reader, ReaderMap};
use nr_prog::{
    Draws, LoadFault, LoadReport, Plan, RunFault, Worked, load_gets, main_with, run, run_load,
    run_steps,
};
use nr_serve::{Client, Lobby, OpenGate};
use nr_trigger::{Poster, Triggers};
use std::alloc::Global;
use std::process::Abort;
use std::sync::Wait;

// What a run of a script, or of a schedule, comes to, and whether it wrote that text.
fn ran(alloc: Global, are_steps: bool, text: &[u8], wanted: &[u8]) -> (Result<(), RunFault>, bool) {
    let mut reader = text;
    let mut written = Vec::new(alloc);
    let ended: Result<(), RunFault> = if are_steps {
        run_steps(alloc, &mut reader, &mut written)
    } else {
        run(alloc, &mut reader, &mut written)
    };
    (ended, written.as_slice() == wanted)
}

#[test]
fn scripts_and_schedules_run_over_any_reader_and_writer(rt: HostRuntime) {
    let done = (Ok(()), true);
    is_same(
        &rt,
        &ran(rt.alloc(), false, b"look 0\n", b"closed\n"),
        &done,
    );
    is_same(&rt, &ran(rt.alloc(), true, b"go\n", b"closed\n"), &done);
}

#[test]
fn words_ask_for_a_run(rt: HostRuntime) {
    let args: Vec<String> = Vec::new(rt.alloc());
    let mut reader: &[u8] = b"look 0\n";
    let mut written = Vec::new(rt.alloc());
    let status: u8 = main_with(&rt, rt.alloc(), args.as_slice(), &mut reader, &mut written);
    is_same(&rt, &status, &0);
    are_same(&rt, written.as_slice(), b"closed\n");
}

#[test]
fn a_load_has_a_plan_and_a_report(rt: HostRuntime) {
    let plan = Plan {
        seed: 1,
        readers: 1,
        keys: 1,
        gets: 1,
    };
    let wanted = LoadReport {
        gets: 1,
        answered: 1,
        sends: 1,
        fills: 1,
        asked: 0,
    };
    let ended: Result<LoadReport, LoadFault> = run_load(&rt, rt.alloc(), &plan, &OpenGate);
    is_same(&rt, &(ended, wanted.balance()), &(Ok(wanted), true));
}

#[test]
fn a_worker_draws_its_keys(rt: HostRuntime) {
    let mut draws: Draws = Draws::open(7, 2, 10);
    let key: u32 = draws.next();
    assert!(rt; key < 10);
}

// A map of one key with its one reader.
fn one_reader<R: Abort + AllocGlobal>(rt: &R) -> (ReaderMap, Reader)
    ensures keys { let (map, _) = result in map.shape.keys ≡ 1 }
    ensures reader { let (map, reader) = result in reader.table ≡ map }
{
    let (map, _writer, readers) = ReaderMap::open(rt.alloc(), 1, 3, 1, 0).expect(rt, "a map");
    let mut readers = readers;
    let reader = readers.pop().expect(rt, "a reader");
    (map, reader)
}

// A queue for tickets of a map's keys with its one poster.
fn one_poster<R: Abort + AllocGlobal>(rt: &R, map: &ReaderMap) -> (Triggers, Poster)
    requires { map.now.shape.keys ≡ 1 }
    ensures { let (queue, poster) = result in (poster.queue ≡ queue.id) × (poster.keys ≡ 1) }
{
    let opened = Triggers::open_for(rt.alloc(), map, 1, 1);
    let (triggers, mut posters, _taker) = opened.expect(rt, "a queue");
    let poster = posters.pop().expect(rt, "a poster");
    (triggers, poster)
}

// What a worker comes to whose lobby is closed.
fn worked<R: Abort + AllocGlobal + Wait>(rt: &R) -> Worked {
    let (map, reader) = one_reader(rt);
    let (triggers, poster) = one_poster(rt, &map);
    let lobby = Lobby::open(rt.alloc()).expect(rt, "a lobby");
    lobby.close(rt);
    let mut client = Client::open(&map, reader, &triggers, poster, &lobby, &OpenGate);
    let mut draws = Draws::open(1, 1, 1);
    let worked: Worked = load_gets(rt, rt.alloc(), &mut client, &mut draws, 5, &lobby);
    let (_reader, _poster, kept) = client.end();
    if let Some(ticket) = kept {
        ticket.into_key();
    }
    worked
}

#[test]
fn a_worker_tells_what_it_made(rt: HostRuntime) {
    let wanted = Worked {
        made: 0,
        answered: 0,
        stopped: true,
        fault: None,
    };
    is_same(&rt, &worked(&rt), &wanted);
}

// How a run and a load may end early, in the order in which it is told.
const RUN_FAULTS: [RunFault; 4] = [
    RunFault::Read,
    RunFault::Write,
    RunFault::Memory,
    RunFault::TooMuch,
];

const LOAD_FAULTS: [LoadFault; 4] = [
    LoadFault::Memory,
    LoadFault::Thread,
    LoadFault::Barred,
    LoadFault::WrongRows,
];

#[test]
fn each_fault_is_another(rt: HostRuntime) {
    for place in 0..4 {
        let of_runs = RUN_FAULTS
            .iter()
            .position(|fault| *fault == RUN_FAULTS[place]);
        let of_loads = LOAD_FAULTS
            .iter()
            .position(|fault| *fault == LOAD_FAULTS[place]);
        is_same(&rt, &(of_runs, of_loads), &(Some(place), Some(place)));
    }
}
