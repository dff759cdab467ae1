//! Why nothing more is written to a record's file.

use std::alloc::Global;
use std::io::ErrorKind;
use std::sync::atomic::{AtomicU64, Ordering};
use std::{fmt, io};

/// Where the file of a record is, and why it lacks something. Its text is `PATH: CAUSE`.
#[derive(Debug, Drop, PartialEq, Eq)]
pub struct Unwritten {
    /// The path, as it was asked for.
    pub path: String,
    /// What the system tells, or that memory ran out.
    pub cause: ErrorKind,
}

impl fmt::Display for Unwritten {
    fn fmt<W: fmt::Write>(&self, f: &mut fmt::Formatter<W>) -> fmt::Result {
        write!(f, "{}: {}", self.path, self.cause)
    }
}

/// Where a record notes why nothing more is written to its file, for any thread.
#[derive(Drop)]
pub struct RecordFailure {
    path: String,
    // What failed first, as a number: one of those below, or the system's number for the cause behind them.
    noted: AtomicU64,
}

/// Nothing failed.
const NONE: u64 = 0;

/// There was no memory for what was to be written.
const MEMORY: u64 = 1;

/// The file took no more bytes, and the system told no cause.
const FULL: u64 = 2;

/// The system's number 0. The others are behind it.
const SYSTEM: u64 = 3;

impl RecordFailure {
    /// Makes the note of a record whose file is at this path; nothing failed.
    pub fn new(path: String) -> RecordFailure {
        RecordFailure {
            path,
            noted: AtomicU64::new(NONE),
        }
    }

    /// Notes why the file lacks something, if that is the first cause.
    pub fn note(&self, error: &io::Error) {
        let failure = match error.raw_os_error() {
            Some(number) => u64::from(number.unsigned_abs()) + SYSTEM,
            None if error.kind() == ErrorKind::OutOfMemory => MEMORY,
            None => FULL,
        };
        let _ = self
            .noted
            .compare_exchange(NONE, failure, Ordering::SeqCst, Ordering::SeqCst);
    }

    /// Returns where the file is, as it was asked for.
    pub fn path(&self) -> &str {
        self.path.as_str()
    }

    /// Returns the first cause with the path; `None` if nothing failed so far, or if out of memory for the path.
    pub fn first(&self, alloc: Global) -> Option<Unwritten> {
        let cause = self.cause()?;
        let path = String::from_str(alloc, self.path.as_str()).ok()?;
        Some(Unwritten { path, cause })
    }

    // The first cause; `None` if nothing failed so far.
    fn cause(&self) -> Option<ErrorKind> {
        match self.noted.load(Ordering::SeqCst) {
            NONE => None,
            MEMORY => Some(ErrorKind::OutOfMemory),
            FULL => Some(ErrorKind::WriteZero),
            noted => {
                let number = i32::try_from(noted.checked_sub(SYSTEM)?).ok()?;
                Some(io::Error::from_raw_os_error(number).kind())
            }
        }
    }
}
