//! What a member received and dropped, for the user.

use srm_wire::Dropped;
use std::fmt;
use std::sync::atomic::{AtomicU64, Ordering};

/// What was received and dropped, in words: `CAUSE N` for each cause that isn't at 0, with commas between.
#[derive(Clone, Copy, Debug, PartialEq, Eq)]
pub struct ByCause(pub Dropped);

impl fmt::Display for ByCause {
    fn fmt<W: fmt::Write>(&self, f: &mut fmt::Formatter<W>) -> fmt::Result {
        let dropped = self.0;
        let first = write_cause(f, true, "outside the roster", dropped.strangers)?;
        let first = write_cause(f, first, "not from its sender's address", dropped.misnamed)?;
        let first = write_cause(f, first, "no right tag", dropped.untagged)?;
        let first = write_cause(f, first, "sent again", dropped.again)?;
        let first = write_cause(f, first, "too much missing", dropped.excess)?;
        write_cause(f, first, "queue full", dropped.overflowed)?;
        Ok(())
    }
}

// Writes a cause unless it is at 0, behind a comma unless it is the first. Whether the next one is the first.
fn write_cause<W: fmt::Write>(
    f: &mut fmt::Formatter<W>,
    is_first: bool,
    cause: &str,
    count: u64,
) -> Result<bool, fmt::Error> {
    if count == 0 {
        return Ok(is_first);
    }
    if !is_first {
        f.write_str(", ")?;
    }
    write!(f, "{cause} {count}")?;
    Ok(false)
}

/// The same counts, which one thread writes and any reads.
#[derive(Drop)]
pub struct DroppedCounts {
    strangers: AtomicU64,
    misnamed: AtomicU64,
    untagged: AtomicU64,
    older: AtomicU64,
    again: AtomicU64,
    excess: AtomicU64,
    overflowed: AtomicU64,
}

impl DroppedCounts {
    /// Returns counts of 0.
    pub fn new() -> DroppedCounts {
        DroppedCounts {
            strangers: AtomicU64::new(0),
            misnamed: AtomicU64::new(0),
            untagged: AtomicU64::new(0),
            older: AtomicU64::new(0),
            again: AtomicU64::new(0),
            excess: AtomicU64::new(0),
            overflowed: AtomicU64::new(0),
        }
    }

    /// Says that so many were dropped by now.
    pub fn show(&self, dropped: Dropped) {
        self.strangers.store(dropped.strangers, Ordering::SeqCst);
        self.misnamed.store(dropped.misnamed, Ordering::SeqCst);
        // Read after `untagged`: who reads that count then finds at least as many of an older version.
        self.older.store(dropped.older, Ordering::SeqCst);
        self.untagged.store(dropped.untagged, Ordering::SeqCst);
        self.again.store(dropped.again, Ordering::SeqCst);
        self.excess.store(dropped.excess, Ordering::SeqCst);
        self.overflowed.store(dropped.overflowed, Ordering::SeqCst);
    }

    /// Returns how many were dropped, as said last.
    pub fn dropped(&self) -> Dropped {
        Dropped {
            strangers: self.strangers.load(Ordering::SeqCst),
            misnamed: self.misnamed.load(Ordering::SeqCst),
            untagged: self.untagged.load(Ordering::SeqCst),
            older: self.older.load(Ordering::SeqCst),
            again: self.again.load(Ordering::SeqCst),
            excess: self.excess.load(Ordering::SeqCst),
            overflowed: self.overflowed.load(Ordering::SeqCst),
        }
    }
}
