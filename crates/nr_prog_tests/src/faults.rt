//! Each read and each write of a run fails in turn, and each limit is passed. The script and the
//! schedule are long enough for a slot to be pinned, or held, while its key goes on.
use crate::devices::{Kind, Outcome, Trial};
use crate::same::is_same;
use nr_text::RunFault;
use std::process::Abort;

const SCRIPT: &[u8] = b"open 1 2 1\n\
    ask 1 0\n\
    fill 0 1:1\n\
    pin 1 0\n\
    update 0 +2:2\n\
    update 0 +3:3\n\
    show 1\n\
    look 0\n\
    unpin 1\n\
    update 0 +3:3\n\
    find 1 0\n";

const OF_SCRIPT: &[u8] = b"ok\n\
    send\n\
    done\n\
    ok\n\
    done\n\
    no-slot\n\
    rows 1:1\n\
    rows 1:1 2:2\n\
    ok\n\
    done\n\
    rows 1:1 2:2 3:3\n";

const SCHEDULE: &[u8] = b"open 1 3 1\n\
    ask 1 0\n\
    writer fill 0 5:6\n\
    go\n\
    go\n\
    go\n\
    go\n\
    arrive 1 0\n\
    writer evict 0\n\
    go\n\
    read 1 0\n\
    read 1 1\n\
    read 1 2\n\
    depart 1\n\
    arrive 1 0\n";

const OF_SCHEDULE: &[u8] = b"ok\n\
    send\n\
    -\n\
    -\n\
    -\n\
    -\n\
    done\n\
    held\n\
    -\n\
    evicted\n\
    1\n\
    5\n\
    6\n\
    ok\n\
    hole\n";

fn trials() -> [Trial<'static>; 2] {
    [
        Trial::new(Kind::Script, SCRIPT, OF_SCRIPT),
        Trial::new(Kind::Schedule, SCHEDULE, OF_SCHEDULE),
    ]
}

/// How many bytes of the text answer the lines that end within that many bytes of the input.
fn replied(trial: &Trial, bytes: usize) -> usize {
    let front = trial.input.iter().take(bytes);
    let mut lines = front.filter(|b| **b == b'\n').count();
    for (at, byte) in trial.text.iter().enumerate() {
        if lines == 0 {
            return at;
        }
        if *byte == b'\n' {
            lines -= 1;
        }
    }
    trial.text.len()
}

/// The run ends by the fault, after so much of the text.
fn ended(fault: RunFault, written: usize) -> Outcome {
    Outcome {
        end: Err(fault),
        written: Some(written),
        later_calls: 0,
    }
}

/// Up to the read that finds the end, each fails in turn. One that would come later fails no run.
fn each_read_fails(rt: &(impl Abort + AllocGlobal), trial: &Trial, width: usize) {
    let end = trial.input.len().saturating_add(width);
    for read in 0..=end {
        let failing = Trial {
            read_width: width,
            failing_read: read,
            ..*trial
        };
        let given = read.saturating_mul(width);
        let wanted = if given < end {
            ended(RunFault::Read, replied(trial, given))
        } else {
            trial.whole()
        };
        let outcome = failing.run(rt.alloc());
        assert_eq!(rt; outcome, wanted, "read {read} of {width} bytes");
    }
}

/// After each number of bytes that is less than the text a write fails.
fn each_write_fails(rt: &(impl Abort + AllocGlobal), trial: &Trial, width: usize) {
    for room in 0..trial.text.len() {
        let failing = Trial {
            write_width: width,
            room,
            ..*trial
        };
        let outcome = failing.run(rt.alloc());
        let wanted = ended(RunFault::Write, room);
        assert_eq!(rt; outcome, wanted, "after {room} bytes");
    }
}

/// Each limit that is less than the input is passed.
fn each_limit_is_passed(rt: &(impl Abort + AllocGlobal), trial: &Trial, width: usize) {
    for limit in 0..trial.input.len() {
        let limited = Trial {
            limit: limit as u64,
            read_width: width,
            ..*trial
        };
        let outcome = limited.run(rt.alloc());
        let wanted = ended(RunFault::TooMuch, replied(trial, limit));
        assert_eq!(rt; outcome, wanted, "at {limit}");
    }
}

#[test]
fn a_read_that_fails_loses_no_reply(rt: HostRuntime) {
    for trial in trials() {
        each_read_fails(&rt, &trial, 1);
        each_read_fails(&rt, &trial, 16);
    }
}

#[test]
fn a_write_that_fails_is_the_last(rt: HostRuntime) {
    for trial in trials() {
        each_write_fails(&rt, &trial, 1);
        each_write_fails(&rt, &trial, usize::MAX);
    }
}

#[test]
fn an_input_over_its_limit_is_answered_up_to_it(rt: HostRuntime) {
    for trial in trials() {
        each_limit_is_passed(&rt, &trial, 1);
        each_limit_is_passed(&rt, &trial, usize::MAX);
    }
}

#[test]
fn an_input_may_be_as_long_as_its_limit(rt: HostRuntime) {
    for trial in trials() {
        let narrow = Trial {
            limit: trial.input.len() as u64,
            read_width: 1,
            write_width: 1,
            ..trial
        };
        is_same(&rt, &narrow.run(rt.alloc()), &trial.whole());
        each_read_fails(&rt, &narrow, 1);
    }
}

#[test]
fn a_write_that_takes_nothing_is_a_fault(rt: HostRuntime) {
    for trial in trials() {
        let refusing = Trial {
            write_width: 0,
            ..trial
        };
        is_same(&rt, &refusing.run(rt.alloc()), &ended(RunFault::Write, 0));
    }
}

#[test]
fn a_line_that_is_cut_is_not_answered(rt: HostRuntime) {
    let input: &[u8] = b"open 2 3 1\nfind 1 0\nask 1 0\nask 1 0\nfill 0 7:1 3:9\nfind 1 0\n";
    let five_lines = b"ok\nhole\nsend\nwaiting\ndone\n";
    let cut = Trial {
        read_width: 1,
        failing_read: input.len() - 4,
        ..Trial::new(Kind::Script, input, five_lines)
    };
    let wanted = Outcome {
        end: Err(RunFault::Read),
        ..cut.whole()
    };
    is_same(&rt, &cut.run(rt.alloc()), &wanted);
}
