//! The bytes of a reader, taken a line at a time, and no more of them than a limit.
ghost use Rattle.std.specs.Prelude.{◌≡◌, []};
ghost use Rattle.nr_text.specs.Input.{pending_bytes, allowance, TakesByte, TakesLine, Refills, Probes};

use crate::fault::RunFault;
use crate::line::Line;
use std::io::Read;

/// The most bytes of an input: 256 MiB.
pub const INPUT_LIMIT: u64 = 268_435_456;

const _: () = prove!(INPUT_LIMIT == 256 * 1024 * 1024);

/// The most bytes that one read asks for.
const CHUNK: usize = 4096;

/// How a line ended.
#[derive(Clone, Copy)]
pub(crate) enum LineEnd {
    /// By a line feed.
    LineFeed,
    /// With the input, after at least one byte.
    InputEnd,
    /// The input had ended before it: there is no line.
    NoLine,
}

/// What was read and not yet taken, and how much more may be read.
#[derive(Drop)]
pub(crate) struct Input {
    chunk: [u8; CHUNK],
    at: usize,
    filled: usize,
    left: u64,
}

impl Input {
    /// An input of at most `limit` bytes.
    pub(crate) fn new(limit: u64) -> Input
        ensures nothing { pending_bytes result ≡ [] }
        ensures all { allowance result ≡ limit }
    {
        Input {
            chunk: [0; CHUNK],
            at: 0,
            filled: 0,
            left: limit,
        }
    }

    /// Takes the bytes up to and including the next line feed, or up to the end.
    pub(crate) fn read_line<R: Read>(
        &mut self,
        reader: &mut R,
        line: &mut Line,
    ) -> Result<LineEnd, RunFault>
        ensures { TakesLine self.old self.new (R.remaining reader.old) (R.remaining reader.new) line.new result }
    {
        line.clear();
        'bytes: while let Some(byte) = self.next(reader)? {
            if byte == b'\n' {
                return Ok(LineEnd::LineFeed);
            }
            line.push(byte);
        }
        if line.is_empty() {
            Ok(LineEnd::NoLine)
        } else {
            Ok(LineEnd::InputEnd)
        }
    }

    /// Takes the next byte. `None` is the end.
    fn next<R: Read>(&mut self, reader: &mut R) -> Result<Option<u8>, RunFault>
        ensures { TakesByte self.old self.new (R.remaining reader.old) (R.remaining reader.new) result }
    {
        if self.at >= self.filled.min(CHUNK) && !self.refill(reader)? {
            return Ok(None);
        }
        let byte = self.chunk[self.at];
        self.at += 1;
        Ok(Some(byte))
    }

    /// Reads once, when nothing is pending, and answers whether bytes came.
    fn refill<R: Read>(&mut self, reader: &mut R) -> Result<bool, RunFault>
        requires { pending_bytes self.old ≡ [] }
        ensures { Refills self.old self.new (R.remaining reader.old) (R.remaining reader.new) result }
    {
        self.at = 0;
        self.filled = 0;
        if self.left == 0 {
            return probe(reader);
        }
        let most = self.left.min(CHUNK as u64) as usize;
        match reader.read(&mut self.chunk[..most]) {
            Ok(count) => {
                self.filled = count;
                self.left -= count as u64;
                Ok(count > 0)
            }
            Err(_) => Err(RunFault::Read),
        }
    }
}

/// Looks whether a reader that may give no more is at its end: `false` if it is.
fn probe<R: Read>(reader: &mut R) -> Result<bool, RunFault>
    ensures { Probes (R.remaining reader.old) (R.remaining reader.new) result }
{
    let mut one = [0u8; 1];
    match reader.read(&mut one) {
        Ok(0) => Ok(false),
        Ok(_) => Err(RunFault::TooMuch),
        Err(_) => Err(RunFault::Read),
    }
}
