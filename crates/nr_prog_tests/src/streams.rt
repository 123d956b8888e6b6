//! Readers and writers that fail.
use std::io;
use std::io::{ErrorKind, Read, Write};

/// Gives its bytes one at a time, and fails at one call.
#[derive(Drop)]
pub(crate) struct Dripping<'a> {
    pub(crate) bytes: &'a [u8],
    pub(crate) calls: usize,
    pub(crate) fails_at: usize,
}

impl Read for Dripping<'_> {
    ghost use Rattle.std.specs.Prelude.{Some};

    ghost remaining = { λ reader. Some reader.bytes.now };

    fn read(&mut self, buf: &mut [u8]) -> io::Result<usize> {
        let call = self.calls;
        self.calls = self.calls.saturating_add(1);
        if call == self.fails_at {
            return Err(ErrorKind::Interrupted.into());
        }
        let most = buf.len().min(1);
        self.bytes.read(&mut buf[..most])
    }
}

/// Takes all bytes at each call but one, which fails.
#[derive(Drop)]
pub(crate) struct Tripping {
    pub(crate) held: Vec<u8>,
    pub(crate) calls: usize,
    pub(crate) fails_at: usize,
}

impl Write for Tripping {
    fn write(&mut self, buf: &[u8]) -> io::Result<usize> {
        let call = self.calls;
        self.calls = self.calls.saturating_add(1);
        if call == self.fails_at {
            return Err(ErrorKind::BrokenPipe.into());
        }
        self.held.extend_from_slice(buf)?;
        Ok(buf.len())
    }

    fn flush(&mut self) -> io::Result<()> {
        Ok(())
    }
}

/// Takes a byte a call, and fails once it holds that many.
#[derive(Drop)]
pub(crate) struct Narrow {
    pub(crate) held: Vec<u8>,
    pub(crate) room: usize,
}

impl Write for Narrow {
    ghost use Rattle.std.specs.Prelude.{Some};

    ghost contents = { λ writer. Some writer.held.items };

    fn write(&mut self, buf: &[u8]) -> io::Result<usize> {
        if self.held.len() >= self.room {
            return Err(ErrorKind::Interrupted.into());
        }
        let count = buf.len().min(1);
        self.held.extend_from_slice(&buf[..count])?;
        Ok(count)
    }

    fn flush(&mut self) -> io::Result<()> {
        Ok(())
    }
}
