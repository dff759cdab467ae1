//! What a wire received and dropped.

ghost use Rattle.std.specs.Prelude.{◌≡◌};
ghost use Rattle.srm_udp.specs.Inboxes.{by_cause, none_dropped, one_misnamed, one_overflowed, one_stranger};

/// How many datagrams a wire received and dropped, by cause. Each count stops at the greatest u64.
#[derive(Clone, Copy, Debug, PartialEq, Eq)]
pub struct Dropped {
    /// Those from outside the roster, on a wire that keeps to it.
    pub strangers: u64,
    /// Those that name another sender than the member of the address that they come from, on such a wire.
    pub misnamed: u64,
    /// Those that came while the wire's queue was full.
    pub overflowed: u64,
}

impl Dropped {
    /// Returns counts of 0.
    pub fn none() -> Dropped
        ensures { result ≡ none_dropped }
    {
        Dropped {
            strangers: 0,
            misnamed: 0,
            overflowed: 0,
        }
    }

    // Returns these counts with no datagram dropped for another cause.
    pub(crate) fn by_cause(self) -> srm_wire::Dropped
        ensures { result ≡ by_cause self }
    {
        srm_wire::Dropped {
            strangers: self.strangers,
            misnamed: self.misnamed,
            untagged: 0,
            older: 0,
            again: 0,
            excess: 0,
            overflowed: self.overflowed,
        }
    }

    pub(crate) fn count_stranger(&mut self)
        ensures { self.new ≡ one_stranger self.old }
    {
        self.strangers = self.strangers.saturating_add(1);
    }

    pub(crate) fn count_misnamed(&mut self)
        ensures { self.new ≡ one_misnamed self.old }
    {
        self.misnamed = self.misnamed.saturating_add(1);
    }

    pub(crate) fn count_overflowed(&mut self)
        ensures { self.new ≡ one_overflowed self.old }
    {
        self.overflowed = self.overflowed.saturating_add(1);
    }
}
