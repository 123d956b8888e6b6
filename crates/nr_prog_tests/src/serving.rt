//! What is served, read and written, by a responder with one answer.
use crate::same::is_same;
use nr_text::{Responder, RunFault, serve};
use std::alloc::Global;
use std::cell::Cell;
use std::io;
use std::io::{ErrorKind, Read, Write};
use std::process::Abort;

/// Answers each plain line by `yes`.
#[derive(Drop)]
struct Yes;

impl Responder for Yes {
    ghost use Rattle.std.specs.Prelude.{◌^◌, codes};

    ghost State = { Unit {0} };

    ghost state_of = { λ _. tt };

    ghost answer = { λ state line. (codes "yes", state) };

    ghost lines_left = { λ _. 2 ^ 64 };

    fn answer_line(
        &mut self,
        _alloc: Global,
        _line: &[u8],
        reply: &mut String,
    ) -> Result<(), RunFault> {
        reply.clear();
        reply.push_str("yes").map_err(|_| RunFault::Memory)
    }
}

fn serves_within(
    rt: &(impl Abort + AllocGlobal),
    limit: u64,
    input: &[u8],
    end: Result<(), RunFault>,
    text: &[u8],
) {
    let mut written = Vec::new(rt.alloc());
    let mut reader = input;
    if limit < u64::MAX {
        let ended = serve(rt.alloc(), limit, &mut Yes, &mut reader, &mut written);
        assert_eq!(rt; ended, end, "at {limit}");
    }
    assert_eq!(rt; written.as_slice(), text, "at {limit}");
}

#[test]
fn an_input_past_its_limit_is_refused(rt: HostRuntime) {
    let input: &[u8] = b"find 1 0\nshow 1\n";
    let too_much = Err(RunFault::TooMuch);
    serves_within(&rt, 16, input, Ok(()), b"yes\nyes\n");
    serves_within(&rt, 15, input, too_much, b"yes\n");
    serves_within(&rt, 10, input, too_much, b"yes\n");
    serves_within(&rt, 9, input, too_much, b"yes\n");
    serves_within(&rt, 8, input, too_much, b"");
    serves_within(&rt, 0, input, too_much, b"");
    serves_within(&rt, 0, b"", Ok(()), b"");
    serves_within(&rt, 15, b"find 1 0\nshow 1", Ok(()), b"yes\nyes\n");
    serves_within(&rt, 14, b"find 1 0\nshow 1", too_much, b"yes\n");
}

#[test]
fn lines_that_are_not_plain_are_bad(rt: HostRuntime) {
    let input: &[u8] = b"a~\n\x7f\n\x1f\n\xc3\xa9\n\0\n\n \na\r\n";
    let text: &[u8] = b"yes\nbad\nbad\nbad\nbad\nbad\nyes\nbad\n";
    serves_within(&rt, 64, input, Ok(()), text);
}

fn line_feeds(bytes: &[u8]) -> usize {
    bytes.iter().filter(|b| **b == b'\n').count()
}

/// Gives its chunks one a read, but fails where a line that it gave before isn't answered yet.
#[derive(Drop)]
struct Impatient<'a> {
    chunks: &'a [&'static str],
    next: usize,
    given: usize,
    answered: &'a Cell<usize>,
}

impl Read for Impatient<'_> {
    fn read(&mut self, buf: &mut [u8]) -> io::Result<usize> {
        if self.answered.get() != self.given {
            return Err(ErrorKind::Interrupted.into());
        }
        let Some(chunk) = self.chunks.get(self.next) else {
            return Ok(0);
        };
        let mut bytes = chunk.as_bytes();
        self.next = self.next.saturating_add(1);
        self.given = self.given.saturating_add(line_feeds(bytes));
        bytes.read(buf)
    }
}

/// Counts the lines that it takes.
#[derive(Drop)]
struct Counting<'a> {
    answered: &'a Cell<usize>,
}

impl Write for Counting<'_> {
    fn write(&mut self, buf: &[u8]) -> io::Result<usize> {
        let answered = self.answered.get().saturating_add(line_feeds(buf));
        self.answered.set(answered);
        Ok(buf.len())
    }

    fn flush(&mut self) -> io::Result<()> {
        Ok(())
    }
}

#[test]
fn each_line_is_answered_before_the_next_read(rt: HostRuntime) {
    let answered = Cell::new(0);
    let mut reader = Impatient {
        chunks: &["one\n", "two\nthree\nfo", "ur\n", "\n", "five"],
        next: 0,
        given: 0,
        answered: &answered,
    };
    let mut writer = Counting {
        answered: &answered,
    };
    let ended = serve(rt.alloc(), 64, &mut Yes, &mut reader, &mut writer);
    is_same(&rt, &ended, &Ok(()));
    is_same(&rt, &answered.get(), &6);
}
