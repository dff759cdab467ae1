//! Why journals don't match.

ghost use Rattle.std.specs.Prelude.{◌≡◌};
ghost use Rattle.srm_audit.specs.declared.mismatch.Mismatch.TheVariants.{Memory};
ghost use Rattle.srm_audit.specs.Numbers.{number_of};

use srm_names::Member;
use std::alloc::AllocError;
use thiserror::Error;

/// Why journals and what the page workers took aren't those of one honest run. If several hold, it is the first of Roster, Foreign and
/// Unsent.
#[derive(Clone, Copy, Debug, PartialEq, Eq, Error)]
pub enum Mismatch {
    /// The entry of this member, counted from 0, hears a datagram that nobody can have sent before it.
    #[error("an entry hears what nobody sent before")]
    Unsent { member: Member, entry: usize },
    /// The list of this page slot of this member isn't found: the member isn't in the roster, the slot doesn't exist, an earlier list has the same, or the list
    /// isn't a prefix of what the member gave there.
    #[error("what was taken isn't what was given")]
    Foreign { member: Member, slot: u8 },
    /// Out of memory. It comes after Roster and Foreign, and may come in place of Unsent.
    #[error("out of memory")]
    Memory,
    /// The journals aren't one for each member of one roster in one session.
    #[error("the journals aren't those of one roster")]
    Roster,
}

impl Mismatch {
    /// Returns its number, 1 to 4, for programs that tell mismatches apart.
    pub fn number(self) -> u8
        ensures { result ≡ number_of self }
    {
        match self {
            Mismatch::Unsent { .. } => 1,
            Mismatch::Foreign { .. } => 2,
            Mismatch::Memory => 3,
            Mismatch::Roster => 4,
        }
    }
}

impl From<AllocError> for Mismatch {
    ghost from_gives = { λ _ fault. fault ≡ Memory };

    fn from(_error: AllocError) -> Mismatch {
        Mismatch::Memory
    }
}
