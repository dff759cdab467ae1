//! Why an agent refuses a call.

ghost use Rattle.std.specs.Prelude.{◌≡◌};
ghost use Rattle.srm_entries.specs.declared.fault.AgentFault.TheVariants.{Memory};

use std::alloc::AllocError;
use thiserror::Error;

/// Why an agent refuses a call. Nothing has changed then.
#[derive(Clone, Copy, Debug, PartialEq, Eq, Error)]
pub enum AgentFault {
    /// The member is leaving.
    #[error("the member is leaving")]
    Leaving = 1,
    /// The member has left.
    #[error("the member has left")]
    Gone = 2,
    /// The page has no page slot, and none is free.
    #[error("the table has no slot for another page")]
    PageLimit = 3,
    /// The stream has 65,536 drawops.
    #[error("the stream is full")]
    StreamFull = 4,
    /// The body has more than 1,024 bytes.
    #[error("the body is too long")]
    BodyLong = 5,
    /// Out of memory. It comes after every other cause.
    #[error("out of memory")]
    Memory = 6,
}

impl From<AllocError> for AgentFault {
    ghost from_gives = { λ _ fault. fault ≡ Memory };

    fn from(_error: AllocError) -> AgentFault {
        AgentFault::Memory
    }
}
