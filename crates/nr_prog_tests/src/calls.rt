//! The program's public calls, and what it tells where a read or a write fails.
use crate::same::{are_same, is_same};
use crate::streams::{Dripping, Narrow, Tripping};
use nr_prog::{main_of, main_with, replies, run_steps};
use std::alloc::{AllocError, Global};
use std::env::Args;
use std::io;
use std::io::ErrorKind;
use std::process::{Abort, ExitCode};
use std::sync::Wait;
use std::test::Fail;
use std::thread::Threads;

fn arguments(alloc: Global, words: &[&str]) -> Result<Vec<String>, AllocError> {
    let mut args = Vec::new(alloc);
    for word in words {
        args.push(String::from_str(alloc, word)?)?;
    }
    Ok(args)
}

/// Of no call: none fails.
const NEVER: usize = usize::MAX;

const TWO_LINES: &[u8] = b"find 1 0\nfind 1 0\n";

const USAGE: &str = "nr: usage: nr, nr steps, nr load SEED READERS KEYS GETS\n";

const UNREAD: &str = "closed\nnr: the input could not be read\n";

/// The program with these words, whose read of that number and whose write of that number fail, ends with this status,
/// and has written this text.
fn assert_ends<T: Threads + Wait + Sync + AllocGlobal + Abort>(
    rt: &T,
    words: &[&str],
    (bytes, failing_read): (&[u8], usize),
    failing_write: usize,
    (status, text): (u8, &str),
) {
    let Ok(args) = arguments(rt.alloc(), words) else {
        panic!(rt; "no memory for {words:?}")
    };
    let mut reader = Dripping {
        bytes,
        calls: 0,
        fails_at: failing_read,
    };
    let mut writer = Tripping {
        held: Vec::new(rt.alloc()),
        calls: 0,
        fails_at: failing_write,
    };
    let got = main_with(rt, rt.alloc(), args.as_slice(), &mut reader, &mut writer);
    assert_eq!(rt;
        (got, writer.held.as_slice()),
        (status, text.as_bytes()),
        "{words:?}"
    );
}

#[test]
fn the_program_answers_its_lines(rt: HostRuntime) {
    let both = (0, "closed\nclosed\n");
    assert_ends(&rt, &[], (TWO_LINES, NEVER), NEVER, both);
}

#[test]
fn a_failed_read_is_told(rt: HostRuntime) {
    assert_ends(&rt, &[], (TWO_LINES, 12), NEVER, (1, UNREAD));
    assert_ends(&rt, &["steps"], (b"go\ngo", 5), NEVER, (1, UNREAD));
}

#[test]
fn a_failed_write_is_told(rt: HostRuntime) {
    let lost = "nr: the output could not be written\n";
    let smallest = &["load", "1", "1", "1", "1"];
    assert_ends(&rt, smallest, (b"", 0), 0, (1, lost));
    let lost = "closed\nnr: the output could not be written\n";
    assert_ends(&rt, &[], (TWO_LINES, NEVER), 1, (1, lost));
}

// The line of a fault, and that on the usage, are written in one go, which isn't tried again where it fails.
#[test]
fn a_line_that_can_not_be_written_is_left_out(rt: HostRuntime) {
    assert_ends(&rt, &[], (TWO_LINES, 12), 1, (1, "closed\n"));
    assert_ends(&rt, &["x"], (b"", 0), 0, (2, ""));
}

#[test]
fn a_load_takes_four_numbers(rt: HostRuntime) {
    let told = (0, "gets 400\nanswered 400\nbalance ok\n");
    let words = &["load", "7", "4", "8", "100"];
    assert_ends(&rt, words, (b"", 0), NEVER, told);
    let usage = (2, USAGE);
    assert_ends(&rt, &words[..4], (b"", 0), NEVER, usage);
    for fifth in ["1", "64", ""] {
        let words = &["load", "7", "4", "8", "100", fifth];
        assert_ends(&rt, words, (b"", 0), NEVER, usage);
    }
}

#[test]
fn a_report_may_be_cut_anywhere(rt: HostRuntime) -> Result<(), Fail> {
    let text: &[u8] = b"gets 1\nanswered 1\nbalance ok\n";
    let args = arguments(rt.alloc(), &["load", "1", "1", "1", "1"])?;
    for room in 0..text.len() {
        let mut unread = Dripping {
            bytes: b"",
            calls: 0,
            fails_at: 0,
        };
        let mut writer = Narrow {
            held: Vec::new(rt.alloc()),
            room,
        };
        let status = main_with(&rt, rt.alloc(), args.as_slice(), &mut unread, &mut writer);
        assert_eq!(rt;
            (status, writer.held.as_slice()),
            (1, &text[..room]),
            "at {room}"
        );
    }
    Ok(())
}

/// A process with these arguments ends with this status, and has written this text.
fn assert_main<T: Threads + Wait + Sync + AllocGlobal + Abort>(
    rt: &T,
    args: io::Result<Args>,
    (status, text): (u8, &str),
) {
    let mut reader = TWO_LINES;
    let mut written = Vec::new(rt.alloc());
    let got = main_of(rt, args, &mut reader, &mut written);
    are_same(rt, written.as_slice(), text.as_bytes());
    is_same(rt, &got, &ExitCode::from(status));
}

// A process that was started without even its name runs a script.
#[test]
fn a_process_may_have_no_name(rt: HostRuntime) {
    let none = Ok(Vec::new(rt.alloc()).into_iter());
    assert_main(&rt, none, (0, "closed\nclosed\n"));
}

#[test]
fn arguments_that_can_not_be_read_are_told(rt: HostRuntime) {
    let unknown = Err(ErrorKind::InvalidData.into());
    assert_main(&rt, unknown, (2, USAGE));
}

#[test]
fn bytes_have_replies(rt: HostRuntime) -> Result<(), Fail> {
    let mut reader: &[u8] = b"go\nfind 1 0\n";
    let mut written = Vec::new(rt.alloc());
    let ended = run_steps(rt.alloc(), &mut reader, &mut written);
    let replied = replies(rt.alloc(), b"go\nfind 1 0\n")?;
    let texts = (written.as_slice(), replied.as_slice());
    let wanted: (&[u8], &[u8]) = (b"closed\nbad\n", b"bad\nclosed\n");
    is_same(&rt, &(ended, texts), &(Ok(()), wanted));
    Ok(())
}
