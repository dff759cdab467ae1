//! Why a script stops before its end.

ghost use Rattle.std.specs.Prelude.{◌≡◌, ◌⊎◌};
ghost use Rattle.std.specs.IoError.{error_kind};
ghost use Rattle.srm_script.specs.declared.fault.ScriptFault.TheVariants.{Memory, StandardInput, Output};
ghost use Rattle.srm_script.specs.Statuses.{fault_of_kind, status_of};

use crate::status::{FAILED, RAN_OUT};
use srm_world::WorldFault;
use std::alloc::AllocError;
use std::io::Write;
use std::{fmt, io};
use thiserror::Error;

/// Why a script stops before its end. Its text is the line that standard error gets.
#[derive(Debug, Drop, PartialEq, Eq, Error)]
pub enum ScriptFault {
    /// Standard input can't be read.
    #[error("srm: input")]
    StandardInput,
    /// The input has more than 1,000,000 bytes.
    #[error("input too long")]
    TooLong,
    /// The first bad line, by its number from 1.
    #[error("line {0}: bad")]
    BadLine(u64),
    /// Standard output can't be written.
    #[error("srm: output")]
    Output,
    /// Out of memory.
    #[error("srm: memory")]
    Memory,
}

impl ScriptFault {
    /// Prints the fault as a line to `err`, and returns the status that the program ends with: 1, and 4 if out of memory. A fault of
    /// `err` itself is ignored.
    pub fn print<E: Write>(&self, err: &mut E) -> u8
        ensures { result ≡ status_of self.now }
    {
        print_fault(self, err, self.status())
    }

    fn status(&self) -> u8
        ensures { result ≡ status_of self.now }
    {
        match self {
            ScriptFault::StandardInput
            | ScriptFault::TooLong
            | ScriptFault::BadLine(_)
            | ScriptFault::Output => FAILED,
            ScriptFault::Memory => RAN_OUT,
        }
    }

    /// Returns the fault of an error in reading standard input: out of memory, or else that it can't be read.
    pub fn of_input(error: io::Error) -> ScriptFault
        ensures value { result ≡ fault_of_kind (error_kind error) StandardInput }
        ensures one { (result ≡ Memory) ⊎ (result ≡ StandardInput) }
    {
        of_io(error, ScriptFault::StandardInput)
    }

    /// Returns the fault of an error in writing standard output: out of memory, or else that it can't be written.
    pub fn of_output(error: io::Error) -> ScriptFault
        ensures value { result ≡ fault_of_kind (error_kind error) Output }
        ensures one { (result ≡ Memory) ⊎ (result ≡ Output) }
    {
        of_io(error, ScriptFault::Output)
    }
}

/// Prints a fault as a line to `err`, and returns `status`, for a program that ends with it. A fault of `err` itself is ignored.
pub fn print_fault<F: fmt::Display, E: Write>(fault: &F, err: &mut E, status: u8) -> u8
    ensures { result ≡ status }
{
    // If this can't be written, there is nowhere left to report it.
    let _ = writeln!(err, "{fault}");
    status
}

// Out of memory, or else this fault.
fn of_io(error: io::Error, other: ScriptFault) -> ScriptFault
    ensures value { result ≡ fault_of_kind (error_kind error) other }
    ensures one { (result ≡ Memory) ⊎ (result ≡ other) }
{
    match error.kind() {
        io::ErrorKind::OutOfMemory => ScriptFault::Memory,
        _ => other,
    }
}

impl From<AllocError> for ScriptFault {
    ghost from_gives = { λ _ gives. gives ≡ Memory };

    fn from(_error: AllocError) -> ScriptFault {
        ScriptFault::Memory
    }
}

impl From<WorldFault> for ScriptFault {
    ghost from_gives = { λ _ gives. gives ≡ Memory };

    fn from(fault: WorldFault) -> ScriptFault {
        match fault {
            WorldFault::Memory => ScriptFault::Memory,
        }
    }
}
