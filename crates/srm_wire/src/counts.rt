//! What a wire has counted.

ghost use Rattle.std.specs.Prelude.{◌≡◌};
ghost use Rattle.srm_wire.specs.Counts.{no_drops, only_failed, with_failures};

use crate::loss::Losses;

/// How many datagrams were received and dropped, by cause. Each count stops at the greatest u64.
#[derive(Clone, Copy, Debug, PartialEq, Eq)]
pub struct Dropped {
    /// Those from outside the roster.
    pub strangers: u64,
    /// Those that name another sender than the member of the address that they come from.
    pub misnamed: u64,
    /// Those without their right tag.
    pub untagged: u64,
    /// Those of them that have the tag of an older version by the same key.
    pub older: u64,
    /// Those that came before, or lie behind the window of their sender.
    pub again: u64,
    /// Those that would have made too many names missing.
    pub excess: u64,
    /// Those that came while the wire's queue was full.
    pub overflowed: u64,
}

impl Dropped {
    /// Returns counts of 0.
    pub fn none() -> Dropped
        ensures { result ≡ no_drops }
    {
        Dropped {
            strangers: 0,
            misnamed: 0,
            untagged: 0,
            older: 0,
            again: 0,
            excess: 0,
            overflowed: 0,
        }
    }
}

/// What a wire has counted so far. Each count stops at the greatest u64.
#[derive(Clone, Copy, Debug, PartialEq, Eq)]
pub struct WireCounts {
    /// The sends and receives that failed.
    pub failures: u64,
    /// The datagrams that were lost on their way out, by kind.
    pub lost: Losses,
    /// The datagrams that were received and dropped, by cause.
    pub dropped: Dropped,
}

impl WireCounts {
    /// Returns the counts of a wire that counts its failures alone.
    pub fn of_failures(failures: u64) -> WireCounts
        ensures { result ≡ only_failed failures }
    {
        WireCounts {
            failures,
            lost: Losses::none(),
            dropped: Dropped::none(),
        }
    }

    /// Returns these counts with so many failures more, up to 2^64 - 1: those of a wire around the wire that counted.
    pub fn with_failures(self, own: u64) -> WireCounts
        ensures { result ≡ with_failures own self }
    {
        WireCounts {
            failures: self.failures.saturating_add(own),
            lost: self.lost,
            dropped: self.dropped,
        }
    }
}
