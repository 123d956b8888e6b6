//! The step machine.
ghost use Rattle.std.specs.Prelude.{◌<◌};

use crate::same::is_same;
use nr_core::{Arrived, AskReply, Core, NoSlot, Refusal, Shape, Step, WReply, WriterCall};
use nr_model::{Batch, OpenFault, Reply, RowSet};
use std::alloc::Global;
use std::process::Abort;

// A machine of one key, one slot and one reader.
fn smallest(alloc: Global) -> Result<Core, OpenFault> {
    Core::open(alloc, 1, 1, 1, 7)
}

fn opened(rt: &(impl Abort + AllocGlobal)) -> Core {
    smallest(rt.alloc()).expect(rt, "a machine")
}

// Each call of the writer, with what it brings.
fn key_of(call: WriterCall) -> u32 {
    match call {
        WriterCall::Find(key) | WriterCall::Evict(key) | WriterCall::Cancel(key) => key,
        WriterCall::Fill(key, _number, _set) => key,
        WriterCall::Update(key, _batch) => key,
        // beside the calls that every caller knows
        WriterCall::Replace(key, _set) => key,
    }
}

// How many places a call was given that ended without a slot.
fn places(step: Step) -> Option<(u32, u32)> {
    match step {
        Step::Going => None,
        Step::Ended(WReply::Reply(_reply)) => None,
        Step::Ended(WReply::NoSlot(NoSlot { live, held })) => Some((live, held)),
    }
}

#[test]
fn a_reader_arrives_reads_and_departs(rt: HostRuntime) {
    let mut core = opened(&rt);
    let arrived: Result<Arrived, Refusal> = core.arrive(1, 0);
    let read: Result<u64, Refusal> = core.read(1, 0);
    let departed: Result<(), Refusal> = core.depart(1);
    let asked: Result<AskReply, Refusal> = core.ask(1, 0);
    is_same(
        &rt,
        &(arrived, asked),
        &(Ok(Arrived::Hole), Ok(AskReply::Send(0))),
    );
    is_same(
        &rt,
        &(read, departed),
        &(Err(Refusal::NotHolding), Err(Refusal::NotHolding)),
    );
    is_same(&rt, &core.ask(1, 0), &Ok(AskReply::Waiting));
    is_same(&rt, &core.ask(2, 0), &Err(Refusal::OutOfRange));
}

#[test]
fn the_writer_starts_and_goes(rt: HostRuntime) {
    let mut core = opened(&rt);
    let call = WriterCall::Fill(0, 0, RowSet::new());
    let started: Result<Step, Refusal> = core.start(&call);
    assert!(rt; matches!(started, Ok(Step::Ended(WReply::Reply(Reply::NotAsked)))));
    let went: Result<Step, Refusal> = core.go();
    is_same(&rt, &went.err(), &Some(Refusal::NotBusy));
    is_same(&rt, &(key_of(call), core.rows()), &(0, 15));
}

#[test]
fn a_holding_reader_and_a_busy_writer_are_refused(rt: HostRuntime) {
    let mut core = opened(&rt);
    is_same(&rt, &core.ask(1, 0), &Ok(AskReply::Send(0)));
    assert!(rt;
        matches!(
            core.start(&WriterCall::Fill(0, 0, RowSet::new())),
            Ok(Step::Going)
        )
    );
    is_same(
        &rt,
        &core.start(&WriterCall::Evict(0)).err(),
        &Some(Refusal::Busy),
    );
    assert!(rt; matches!(core.go(), Ok(Step::Going)));
    assert!(rt; matches!(core.go(), Ok(Step::Ended(WReply::Reply(Reply::Done)))));
    is_same(&rt, &core.ask(1, 0), &Ok(AskReply::Filled));
    is_same(&rt, &core.arrive(1, 0), &Ok(Arrived::Held));
    is_same(&rt, &core.arrive(1, 0), &Err(Refusal::Holding));
}

#[test]
fn no_slot_tells_the_places(rt: HostRuntime) {
    let none = Step::Ended(WReply::NoSlot(NoSlot { live: 1, held: 2 }));
    is_same(&rt, &places(none), &Some((1, 2)));
    is_same(&rt, &places(Step::Going), &None);
}

fn shape_of(keys: u32, slots: u32, readers: u32) -> Shape {
    Shape {
        keys,
        slots,
        readers,
        first_count: 0,
        first_number: 4_194_303,
        rows: 255,
    }
}

// A number of a new machine's key, and how many rows it may have.
fn number_and_rows(alloc: Global) -> Result<(u64, u32), OpenFault> {
    let core: Core = Core::open_with(alloc, &shape_of(1, 1, 1))?;
    Ok((core.number(0), core.rows()))
}

#[test]
fn a_shape_has_a_first_number_and_a_bound(rt: HostRuntime) {
    is_same(&rt, &number_and_rows(rt.alloc()), &Ok((4_194_303, 255)));
    is_same(&rt, &Batch::of(&[]).is_err(), &true);
}
