//! What is opened or run is tried once more where it was refused, so these tests pass as well where any
//! one request for memory is refused (tests/refused_memory refuses each in turn).
use crate::devices::{Kind, Trial};
use crate::same::is_same;
use nr_core::{AskReply, Core};
use nr_map::{Reader, ReaderMap, Writer};
use nr_model::OpenFault;
use nr_text::RunFault;
use std::alloc::Global;
use std::process::Abort;
use std::test::Fail;

fn core(alloc: Global) -> Result<Core, OpenFault> {
    match Core::open(alloc, 2, 3, 1, 0) {
        Err(OpenFault::Memory) => Core::open(alloc, 2, 3, 1, 0),
        opened => opened,
    }
}

#[test]
fn a_step_machine_opens(rt: HostRuntime) -> Result<(), Fail> {
    let mut core = core(rt.alloc()).map_err(|_| "refused twice")?;
    assert!(rt; matches!(&core.ask(1, 1), Ok(AskReply::Send(0))));
    Ok(())
}

fn map(alloc: Global) -> Result<(ReaderMap, Writer, Vec<Reader>), OpenFault> {
    match ReaderMap::open(alloc, 2, 3, 1, 0) {
        Err(OpenFault::Memory) => ReaderMap::open(alloc, 2, 3, 1, 0),
        opened => opened,
    }
}

#[test]
fn a_reader_map_opens(rt: HostRuntime) {
    let sizes = match map(rt.alloc()) {
        Ok((map, _writer, readers)) => Some((map.slots(), readers.len())),
        Err(_fault) => None,
    };
    is_same(&rt, &sizes, &Some((3, 1)));
}

/// A run to which memory is refused writes a beginning of its text. The next one writes all of it.
fn runs(rt: &(impl Abort + AllocGlobal), trial: &Trial) {
    let mut outcome = trial.run(rt.alloc());
    if outcome.end == Err(RunFault::Memory) {
        assert!(rt; outcome.written.is_some());
        outcome = trial.run(rt.alloc());
    }
    is_same(rt, &outcome, &trial.whole());
}

#[test]
fn a_script_runs(rt: HostRuntime) {
    let input =
        b"open-named 1 2 1\nfind 1 apple\nask 1 pear\nask 1 apple\nfill apple 1:2\nfind 1 apple\n";
    let text = b"ok\nhole\nfull\nsend\ndone\nrows 1:2\n";
    runs(&rt, &Trial::new(Kind::Script, input, text));
}

#[test]
fn a_schedule_runs(rt: HostRuntime) {
    let input = b"open 2 3 1\nask 1 1\nread 1 0\nwriter evict 2\n";
    let text = b"ok\nsend\nnot-holding\nout-of-range\n";
    runs(&rt, &Trial::new(Kind::Schedule, input, text));
}
