//! Why records weren't judged.

ghost use Rattle.std.specs.Prelude.{◌≡◌};
ghost use Rattle.srm_audited.specs.declared.unjudged.Unjudged.TheVariants.{Memory};

use std::alloc::AllocError;
use thiserror::Error;

/// Why records weren't judged.
#[derive(Clone, Copy, Debug, Drop, PartialEq, Eq, Error)]
pub enum Unjudged {
    /// The calls of the record with this place, up to this line of it, set more timers than [`timers_allowed`](srm_record::timers_allowed) says; both from 0.
    #[error("the calls of record {place} up to line {line} set too many timers")]
    TooMuch { place: usize, line: usize },
    /// Out of memory.
    #[error("out of memory")]
    Memory,
}

impl From<AllocError> for Unjudged {
    ghost from_gives = { λ _ fault. fault ≡ Memory };

    fn from(_error: AllocError) -> Unjudged {
        Unjudged::Memory
    }
}
