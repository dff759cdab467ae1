//! Why there is no verdict, or none that is shown as asked.

ghost use Rattle.std.specs.Prelude.{◌≡◌, ◌⊎◌};
ghost use Rattle.std.specs.IoError.{error_kind};
ghost use Rattle.srm_verdicts.specs.AuditFaults.{fault_of_kind, fault_of_picture, fault_of_script};
ghost use Rattle.srm_verdicts.specs.AuditStatuses.{status_of_fault};
ghost use Rattle.srm_verdicts.specs.declared.fault.AuditFault.TheVariants.{Memory, Output};

use crate::no_script::NoScript;
use srm_frames::RecordFault;
use srm_options::SystemCause;
use srm_played::PictureFault;
use srm_script::{FAILED, RAN_OUT, ScriptFault, print_fault};
use std::alloc::AllocError;
use std::io;
use std::io::{ErrorKind, Write};
use thiserror::Error;

/// Why there is no verdict, or none that is shown as asked. Its text is the line that standard error gets.
#[derive(Debug, Drop, Error)]
pub enum AuditFault {
    /// The file at this path can't be opened or read, for this cause.
    #[error("srm: cannot read record {0}: {cause}", cause = SystemCause::of_file(*.1))]
    Unreadable(String, ErrorKind),
    /// The file at this path is no record.
    #[error("srm: cannot use record {0}: {1}")]
    NoRecord(String, RecordFault),
    /// The record in the file at this path isn't judged: its calls set too many timers at this frame, from 0.
    #[error("srm: cannot use record {0}: its calls up to frame {1} set too many timers for its length")]
    TooMuch(String, usize),
    /// The session is honest, and can't be written as a script or drawn.
    #[error("{0}")]
    NoScript(NoScript),
    /// Standard output can't be written.
    #[error("srm: output")]
    Output,
    /// Out of memory.
    #[error("srm: memory")]
    Memory,
}

impl AuditFault {
    /// Prints the fault as a line to `err`, and returns the status that the program ends with: 1, and 4 if out of memory. A fault of `err` itself is ignored.
    pub fn print<E: Write>(&self, err: &mut E) -> u8
        ensures { result ≡ status_of_fault self.now }
    {
        match self {
            AuditFault::Memory => print_fault(self, err, RAN_OUT),
            _ => print_fault(self, err, FAILED),
        }
    }

    /// Returns the fault of an error in writing standard output: out of memory, or else that it can't be written.
    pub fn of_output(error: io::Error) -> AuditFault
        ensures value { result ≡ fault_of_kind (error_kind error) }
        ensures one { (result ≡ Memory) ⊎ (result ≡ Output) }
    {
        match error.kind() {
            ErrorKind::OutOfMemory => AuditFault::Memory,
            _ => AuditFault::Output,
        }
    }
}

impl From<AllocError> for AuditFault {
    ghost from_gives = { λ _ gives. gives ≡ Memory };

    fn from(_error: AllocError) -> AuditFault {
        AuditFault::Memory
    }
}

// Of a run's own script.
impl From<ScriptFault> for AuditFault {
    ghost from_gives = { λ fault gives. gives ≡ fault_of_script fault };

    fn from(fault: ScriptFault) -> AuditFault {
        match fault {
            ScriptFault::Memory => AuditFault::Memory,
            _ => AuditFault::NoScript(NoScript::Unread),
        }
    }
}

impl From<PictureFault> for AuditFault {
    ghost from_gives = { λ fault gives. gives ≡ fault_of_picture fault };

    fn from(fault: PictureFault) -> AuditFault {
        match fault {
            PictureFault::Script(fault) => AuditFault::from(fault),
            PictureFault::TooManyEvents => AuditFault::NoScript(NoScript::TooManyEvents),
        }
    }
}
