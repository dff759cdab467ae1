//! Why there is no picture of a script.

ghost use Rattle.std.specs.Prelude.{◌≡◌};
ghost use Rattle.srm_script.specs.declared.fault.ScriptFault.TheVariants.{Memory};
ghost use Rattle.srm_played.specs.declared.fault.PictureFault.TheVariants.{Script};
ghost use Rattle.srm_played.specs.Statuses.{status_of};

use crate::limits::MOST_EVENTS;
use srm_script::{FAILED, ScriptFault, print_fault};
use std::alloc::AllocError;
use std::io::Write;
use thiserror::Error;

/// Why there is no picture of a script. Its text is the line that standard error gets.
#[derive(Debug, Drop, PartialEq, Eq, Error)]
pub enum PictureFault {
    /// The script can't be read or has a bad line, the output can't be written, or memory ran out.
    #[error("{0}")]
    Script(ScriptFault),
    /// The script has more than [`MOST_EVENTS`] events.
    #[error("more than {MOST_EVENTS} events")]
    TooManyEvents,
}

impl PictureFault {
    /// Prints the fault as a line to `err`, and returns the status that the program ends with: 1, and 4 if out of memory. A fault of
    /// `err` itself is ignored.
    pub fn print<E: Write>(&self, err: &mut E) -> u8
        ensures { result ≡ status_of self.now }
    {
        match self {
            PictureFault::Script(fault) => fault.print(err),
            PictureFault::TooManyEvents => print_fault(self, err, FAILED),
        }
    }
}

impl From<ScriptFault> for PictureFault {
    ghost from_gives = { λ fault gives. gives ≡ Script fault };

    fn from(fault: ScriptFault) -> PictureFault {
        PictureFault::Script(fault)
    }
}

impl From<AllocError> for PictureFault {
    ghost from_gives = { λ _ gives. gives ≡ Script Memory };

    fn from(_error: AllocError) -> PictureFault {
        PictureFault::Script(ScriptFault::Memory)
    }
}
