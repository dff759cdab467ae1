//! Streams that fail.

ghost use Rattle.std.specs.Prelude.{◌≤◌, IfOk};

use std::io;
use std::io::{ErrorKind, Read, Write};

/// Reads or takes so many bytes, and then fails in this way. What it reads are letters `a`.
#[derive(Drop)]
pub struct Failing {
    left: usize,
    kind: ErrorKind,
}

/// Reads or takes so many bytes, and then is broken.
pub fn broken(left: usize) -> Failing {
    Failing {
        left,
        kind: ErrorKind::BrokenPipe,
    }
}

/// Reads or takes so many bytes, and then wants memory.
pub fn wanting(left: usize) -> Failing {
    Failing {
        left,
        kind: ErrorKind::OutOfMemory,
    }
}

impl Failing {
    /// How many of so many bytes go through.
    fn pass(&mut self, count: usize) -> io::Result<usize>
        ensures { IfOk result (λ passed. passed ≤ count) }
    {
        if self.left == 0 {
            return Err(io::Error::from(self.kind));
        }
        let passed = count.min(self.left);
        self.left -= passed;
        Ok(passed)
    }
}

impl Read for Failing {
    fn read(&mut self, buffer: &mut [u8]) -> io::Result<usize> {
        let count = self.pass(buffer.len())?;
        buffer[..count].fill(b'a');
        Ok(count)
    }
}

impl Write for Failing {
    fn write(&mut self, bytes: &[u8]) -> io::Result<usize> {
        self.pass(bytes.len())
    }

    fn flush(&mut self) -> io::Result<()> {
        Ok(())
    }
}
