//! Why a datagram was ignored.

ghost use Rattle.std.specs.Prelude.{◌≡◌};
ghost use Rattle.srm_entries.specs.Causes.{cause_number};

use srm_codec::DecodeFault;

/// Why a datagram was ignored.
#[derive(Clone, Copy, Debug, PartialEq, Eq)]
pub enum Cause {
    /// Its sender is this member.
    Own,
    /// This member has left.
    Gone,
    /// It brings a drawop under a name that is held with another stamp or body.
    Conflict,
    /// It names pages that find no page slot.
    PageLimit,
    /// It names a number above the last of a source that left, or of this member's own above what it drew; or it is a
    /// farewell that says less than is known.
    BeyondFinal,
    /// It is no datagram of this session.
    Decode(DecodeFault),
    /// Its sender, or a source that it names, isn't in the roster.
    Stranger,
}

/// How many causes there are.
pub const CAUSES: usize = 7;

impl Cause {
    /// Returns its number, 1 to 7, for printing and counting.
    pub fn number(&self) -> u8
        ensures { result ≡ cause_number self.now }
    {
        match self {
            Cause::Own => 1,
            Cause::Gone => 2,
            Cause::Conflict => 3,
            Cause::PageLimit => 4,
            Cause::BeyondFinal => 5,
            Cause::Decode(_) => 6,
            Cause::Stranger => 7,
        }
    }
}

/// What became of a datagram.
#[derive(Clone, Copy, Debug, PartialEq, Eq)]
pub enum Outcome {
    /// It was accepted: what it says counts.
    Taken,
    /// It was ignored: nothing but the last moment changed.
    Ignored(Cause),
}
