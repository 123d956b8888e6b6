//! A reader and a writer that behave badly, and what a run between them comes to.
//! No writer here takes more bytes than it is given: a writer's contract forbids it.
use nr_text::{INPUT_LIMIT, RunFault};
use std::alloc::Global;
use std::cell::Cell;
use std::io;
use std::io::{ErrorKind, Read, Write};

/// Whether a call of the reader or of the writer was a fault, and how many calls came after it.
#[derive(Drop)]
struct Calls {
    has_failed: Cell<bool>,
    later: Cell<usize>,
}

impl Calls {
    fn new() -> Calls {
        Calls {
            has_failed: Cell::new(false),
            later: Cell::new(0),
        }
    }

    /// Notes a call as it begins.
    fn note(&self) {
        if self.has_failed.get() {
            self.later.set(self.later.get().saturating_add(1));
        }
    }

    /// Notes that this call is a fault.
    fn fail(&self) {
        self.has_failed.set(true);
    }
}

/// Gives at most `width` bytes a call. One call fails, and any later one gives bytes again.
#[derive(Drop)]
struct Source<'a> {
    calls: &'a Calls,
    bytes: &'a [u8],
    width: usize,
    made: usize,
    failing: usize,
}

impl Read for Source<'_> {
    fn read(&mut self, buf: &mut [u8]) -> io::Result<usize> {
        self.calls.note();
        let call = self.made;
        self.made = self.made.saturating_add(1);
        if call == self.failing {
            self.calls.fail();
            return Err(ErrorKind::Interrupted.into());
        }
        let most = buf.len().min(self.width);
        self.bytes.read(&mut buf[..most])
    }
}

/// Takes at most `width` bytes a call, fails where it has no room left, and looks whether what it takes
/// is a beginning of the wanted text.
#[derive(Drop)]
struct Sink<'a> {
    calls: &'a Calls,
    wanted: &'a [u8],
    strayed: bool,
    width: usize,
    room: usize,
}

impl Write for Sink<'_> {
    fn write(&mut self, buf: &[u8]) -> io::Result<usize> {
        self.calls.note();
        if self.room == 0 {
            self.calls.fail();
            return Err(ErrorKind::Interrupted.into());
        }
        let count = buf.len().min(self.width).min(self.room);
        if count == 0 {
            self.calls.fail();
        }
        self.room -= count;
        match self.wanted.strip_prefix(&buf[..count]) {
            Some(rest) => self.wanted = rest,
            None => self.strayed = true,
        }
        Ok(count)
    }

    fn flush(&mut self) -> io::Result<()> {
        Ok(())
    }
}

/// What is run.
#[derive(Clone, Copy)]
pub(crate) enum Kind {
    Script,
    Schedule,
}

/// An input, the text that it must get, and how its reader and its writer behave.
#[derive(Clone, Copy)]
pub(crate) struct Trial<'a> {
    pub kind: Kind,
    pub input: &'a [u8],
    pub text: &'a [u8],
    /// The most bytes of the input.
    pub limit: u64,
    /// The most bytes that a read gives.
    pub read_width: usize,
    /// The read that fails. They are counted from 0.
    pub failing_read: usize,
    /// The most bytes that a write takes.
    pub write_width: usize,
    /// How many bytes are taken before a write fails.
    pub room: usize,
}

/// What a run came to.
#[derive(Clone, Copy, Debug, PartialEq, Eq)]
pub(crate) struct Outcome {
    pub end: Result<(), RunFault>,
    /// How many bytes were written, if they are a beginning of the wanted text.
    pub written: Option<usize>,
    /// How many reads and writes came after one that failed.
    pub later_calls: usize,
}

impl<'a> Trial<'a> {
    /// A trial in which nothing fails.
    pub(crate) fn new(kind: Kind, input: &'a [u8], text: &'a [u8]) -> Trial<'a> {
        Trial {
            kind,
            input,
            text,
            limit: INPUT_LIMIT,
            read_width: usize::MAX,
            failing_read: usize::MAX,
            write_width: usize::MAX,
            room: usize::MAX,
        }
    }

    pub(crate) fn run(&self, alloc: Global) -> Outcome {
        let calls = Calls::new();
        let mut source = Source {
            calls: &calls,
            bytes: self.input,
            width: self.read_width,
            made: 0,
            failing: self.failing_read,
        };
        let mut sink = Sink {
            calls: &calls,
            wanted: self.text,
            strayed: false,
            width: self.write_width,
            room: self.room,
        };
        let end = match self.kind {
            Kind::Script => nr_script::run_within(alloc, self.limit, &mut source, &mut sink),
            Kind::Schedule => nr_prog::run_steps_within(alloc, self.limit, &mut source, &mut sink),
        };
        let written = self.text.len().checked_sub(sink.wanted.len());
        Outcome {
            end,
            written: if sink.strayed { None } else { written },
            later_calls: calls.later.get(),
        }
    }

    /// What it comes to where nothing fails.
    pub(crate) fn whole(&self) -> Outcome {
        Outcome {
            end: Ok(()),
            written: Some(self.text.len()),
            later_calls: 0,
        }
    }
}
