//! What a guard dropped.

ghost use Rattle.std.specs.Prelude.{◌≡◌};
ghost use Rattle.srm_wire.specs.Wires.{counted_with};
ghost use Rattle.srm_guard.specs.Guards.{none_dropped, one_dropped};

/// How many datagrams a guard dropped, by cause. Each count stops at the greatest u64.
#[derive(Clone, Copy, Debug, PartialEq, Eq)]
pub struct Dropped {
    /// Those without their right tag.
    pub untagged: u64,
    /// Those of them that have the tag of an older version by the same key.
    pub older: u64,
    /// Those that came before, or lie behind the window of their sender.
    pub again: u64,
}

/// Why a guard drops a datagram.
#[derive(Clone, Copy, Debug, PartialEq, Eq)]
pub(crate) enum Cause {
    Untagged,
    Older,
    Again,
}

impl Dropped {
    /// Returns counts of 0.
    pub fn none() -> Dropped
        ensures { result ≡ none_dropped }
    {
        Dropped {
            untagged: 0,
            older: 0,
            again: 0,
        }
    }

    // Returns these counts with those of the wire below.
    pub(crate) fn behind(self, below: srm_wire::Dropped) -> srm_wire::Dropped
        ensures { result ≡ record below { untagged = counted_with below.untagged self.untagged; older = counted_with below.older self.older; again = counted_with below.again self.again } }
    {
        srm_wire::Dropped {
            strangers: below.strangers,
            misnamed: below.misnamed,
            untagged: below.untagged.saturating_add(self.untagged),
            older: below.older.saturating_add(self.older),
            again: below.again.saturating_add(self.again),
            excess: below.excess,
            overflowed: below.overflowed,
        }
    }

    /// Counts one more, by its cause.
    pub(crate) fn count(&mut self, cause: Cause)
        ensures { self.new ≡ one_dropped cause self.old }
    {
        match cause {
            Cause::Untagged => self.untagged = self.untagged.saturating_add(1),
            Cause::Older => {
                self.untagged = self.untagged.saturating_add(1);
                self.older = self.older.saturating_add(1);
            }
            Cause::Again => self.again = self.again.saturating_add(1),
        }
    }
}
