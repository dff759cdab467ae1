//! Why a record's calls, made anew, give no replay.

ghost use Rattle.std.specs.Prelude.{◌≡◌};
ghost use Rattle.srm_record.specs.declared.fault.RetellFault.TheVariants.{Memory};

use std::alloc::AllocError;
use thiserror::Error;

/// Why a record's calls, made anew, give no replay. Lines have their places in the record, from 0.
#[derive(Clone, Copy, Debug, Drop, PartialEq, Eq, Error)]
pub enum RetellFault {
    /// No run of a member that began so has this record. This line is the first that differs: those before it are what comes of the record's calls, and this one isn't.
    #[error("line {0} is the first that differs when the calls are made again")]
    Untold(usize),
    /// The calls up to this line set more timers than [`timers_allowed`](crate::timers_allowed) says, or this line's would.
    #[error("the calls up to line {0} set too many timers")]
    TooMuch(usize),
    /// Out of memory.
    #[error("out of memory")]
    Memory,
}

impl From<AllocError> for RetellFault {
    ghost from_gives = { λ _ fault. fault ≡ Memory };

    fn from(_error: AllocError) -> RetellFault {
        RetellFault::Memory
    }
}
