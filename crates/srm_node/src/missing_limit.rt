//! How many drawops may be missing, and which datagrams are dropped for it.

ghost use Rattle.std.specs.Prelude.{◌≡◌, ◌↔◌, ◌+◌, ◌<◌, IsTrue};
ghost use Rattle.srm_node.specs.Limits.{Judges, one_excess, one_unjudged, with_excess};

use srm_agent::Entry;
use srm_timers::Words;
use srm_wire::{Dropped, WireCounts};
use srm_world::{Past, Recorder};

/// How many drawops may be missing, and how many datagrams were dropped for it. A count stops at the greatest u64.
///
/// A datagram is dropped if it would make drawops missing, and then more than may be. One that makes none missing is heard, however many are missing already. So is
/// noise. A member that is further behind than this never catches up, since what tells it of the missing drawops is dropped.
#[derive(Clone, Copy, Debug, PartialEq, Eq)]
pub struct MissingLimit {
    /// The most drawops that may be missing; `None` for any number.
    pub most: Option<u32>,
    /// The datagrams that were dropped.
    pub excess: u64,
    /// Those of them that weren't judged, since memory ran out.
    pub unjudged: u64,
}

/// What a limit says of a datagram.
#[derive(Clone, Copy, Debug, PartialEq, Eq)]
pub enum Judged {
    /// It is to be heard.
    Within,
    /// It would make too much missing.
    Excess,
    /// Memory ran out as the member was asked.
    Unjudged,
}

impl MissingLimit {
    /// Returns what the limit says of bytes that came for this member.
    pub fn judge<W: Words + Drop, P: Past<Entry> + Drop>(
        &self,
        recorder: &Recorder<W, P>,
        bytes: &[u8],
    ) -> Judged
        ensures { Judges self.now.most recorder.now.journal bytes.now result }
    {
        let Some(most) = self.most else {
            return Judged::Within;
        };
        let Ok(more) = recorder.would_miss(bytes) else {
            return Judged::Unjudged;
        };
        if exceeds(most, recorder.missing(), more) {
            Judged::Excess
        } else {
            Judged::Within
        }
    }

    /// Counts a datagram that would make too much missing.
    pub fn count_excess(&mut self)
        ensures { self.new ≡ one_excess self.old }
    {
        self.excess = self.excess.saturating_add(1);
    }

    /// Counts a datagram that wasn't judged.
    pub fn count_unjudged(&mut self)
        ensures { self.new ≡ one_unjudged self.old }
    {
        self.count_excess();
        self.unjudged = self.unjudged.saturating_add(1);
    }
}

// Returns whether so many more are too many.
fn exceeds(most: u32, missing: u32, more: u32) -> bool
    ensures { IsTrue result ↔ ((0 < more) × (most < missing + more)) }
{
    more > most.saturating_sub(missing)
}

/// Returns what a wire has counted, and with it so many datagrams that the node above it dropped, up to 2^64 - 1.
pub fn with_excess(counts: WireCounts, excess: u64) -> WireCounts
    ensures { result ≡ with_excess excess counts }
{
    WireCounts {
        failures: counts.failures,
        lost: counts.lost,
        dropped: Dropped {
            strangers: counts.dropped.strangers,
            misnamed: counts.dropped.misnamed,
            untagged: counts.dropped.untagged,
            older: counts.dropped.older,
            again: counts.dropped.again,
            excess: counts.dropped.excess.saturating_add(excess),
            overflowed: counts.dropped.overflowed,
        },
    }
}
