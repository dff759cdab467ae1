//! Why a member with a board isn't run, or not to its end, or not as it should be.

ghost use Rattle.std.specs.Prelude.{◌≡◌, ◌≤◌};
ghost use Rattle.std.specs.IoError.{error_kind};
ghost use Rattle.srm_live.specs.declared.live_fault.TheConstants.{WAS_BEFORE};
ghost use Rattle.srm_board.specs.declared.board_fault.BoardFault.TheVariants.{WasBefore as TheWasBefore};
ghost use Rattle.srm_board.specs.BoardStatuses.{fault_of_end, fault_of_serve, out_of_memory, status_of_board};

use srm_live::WAS_BEFORE;
use srm_member::{Explained, MemberFault};
use srm_options::SystemCause;
use srm_script::{ScriptFault, WIRE_FAILED, print_fault};
use std::alloc::AllocError;
use std::io;
use std::io::{ErrorKind, Write};
use std::net::SocketAddr;
use thiserror::Error;

/// Why a member with a board isn't run, or not to its end, or not as it should be. Its text is the line that goes to standard error.
#[derive(Debug, Drop, Error)]
pub enum BoardFault {
    /// As of a member without a board: its key file can't be used, its address can't be bound, its run isn't whole, or memory ran out.
    #[error("{}", Explained(.0))]
    Member(MemberFault),
    /// The board can't be served at this address, for this cause.
    #[error("srm: cannot serve on {0}: {cause}", cause = SystemCause::of_address(*.1))]
    Serving(SocketAddr, ErrorKind),
    /// The run was whole, but the member was in the session before. That is told as it is heard.
    #[error("")]
    WasBefore,
}

impl BoardFault {
    /// Returns the fault of a board that is out of memory.
    pub fn memory() -> BoardFault
        ensures { result ≡ out_of_memory }
    {
        BoardFault::Member(MemberFault::Script(ScriptFault::Memory))
    }

    /// Returns the fault of a board that can't be served at an address, with its cause; out of memory is one by itself. Takes no memory.
    pub fn of_serve(address: SocketAddr, error: io::Error) -> BoardFault
        ensures fault { result ≡ fault_of_serve address (error_kind error) }
        ensures ends { result ≡ TheWasBefore → ⊥ }
    {
        match error.kind() {
            ErrorKind::OutOfMemory => BoardFault::memory(),
            cause => BoardFault::Serving(address, cause),
        }
    }

    /// Returns the fault of a run that ended with this fault, or whole: a whole run of a member that was in the session before is `WasBefore`.
    pub fn of_end(fault: Option<MemberFault>, was_before: bool) -> Option<BoardFault>
        ensures { result ≡ fault_of_end fault was_before }
    {
        match fault {
            Some(fault) => Some(BoardFault::Member(fault)),
            None if was_before => Some(BoardFault::WasBefore),
            None => None,
        }
    }

    /// Prints the fault to `err`, as a line, unless it was told before, and returns the status that the program ends with: 1, 3, 4 or [`WAS_BEFORE`]. An `err` that fails
    /// changes nothing.
    pub fn print<E: Write>(&self, err: &mut E) -> u8
        ensures status { result ≡ status_of_board self.now }
        ensures greatest { result ≤ WAS_BEFORE }
    {
        match self {
            BoardFault::Member(MemberFault::Wire) => print_fault(self, err, WIRE_FAILED),
            BoardFault::Member(fault) => fault.print(err),
            BoardFault::Serving(..) => print_fault(self, err, WIRE_FAILED),
            BoardFault::WasBefore => WAS_BEFORE,
        }
    }
}

impl From<AllocError> for BoardFault {
    fn from(_error: AllocError) -> BoardFault {
        BoardFault::memory()
    }
}
