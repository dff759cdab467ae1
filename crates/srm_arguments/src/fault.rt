//! Why a program's arguments can't be read.

ghost use Rattle.std.specs.Prelude.{◌≡◌};
ghost use Rattle.std.specs.IoError.{error_kind};
ghost use Rattle.srm_arguments.specs.declared.fault.ArgumentFault.TheVariants.{Memory};
ghost use Rattle.srm_arguments.specs.Statuses.{fault_of_kind, status_of};

use srm_script::{RAN_OUT, WRONG_USAGE, print_fault};
use std::alloc::AllocError;
use std::io;
use std::io::{ErrorKind, Write};
use thiserror::Error;

/// Why a program's arguments can't be read. Its text is the line that standard error gets.
#[derive(Debug, Drop, PartialEq, Eq, Error)]
pub enum ArgumentFault {
    /// An argument is no text.
    #[error("error: the command line is no text")]
    NoText,
    /// Out of memory.
    #[error("srm: memory")]
    Memory,
}

impl ArgumentFault {
    /// Prints the fault as a line to `err`, and returns the status that the program ends with: 2, and 4 if out of memory. A fault of
    /// `err` itself is ignored.
    pub fn print<E: Write>(&self, err: &mut E) -> u8
        ensures { result ≡ status_of self.now }
    {
        match self {
            ArgumentFault::NoText => print_fault(self, err, WRONG_USAGE),
            ArgumentFault::Memory => print_fault(self, err, RAN_OUT),
        }
    }
}

impl From<io::Error> for ArgumentFault {
    ghost from_gives = { λ error gives. gives ≡ fault_of_kind (error_kind error) };

    fn from(error: io::Error) -> ArgumentFault {
        match error.kind() {
            ErrorKind::OutOfMemory => ArgumentFault::Memory,
            _ => ArgumentFault::NoText,
        }
    }
}

impl From<AllocError> for ArgumentFault {
    ghost from_gives = { λ _ gives. gives ≡ Memory };

    fn from(_error: AllocError) -> ArgumentFault {
        ArgumentFault::Memory
    }
}
