//! Why a live member isn't run, or not to its end, or not as it should be.

ghost use Rattle.std.specs.Prelude.{◌≡◌, ◌≤◌};
ghost use Rattle.srm_live.specs.declared.live_fault.TheConstants.{WAS_BEFORE};
ghost use Rattle.srm_live.specs.LiveStatuses.{fault_of_end, status_of_live};

use srm_member::{Explained, MemberFault};
use srm_script::{WIRE_FAILED, print_fault};
use std::io::Write;
use thiserror::Error;

/// The status of a member that was in its session before, under the same number: 5, the greatest.
pub const WAS_BEFORE: u8 = 5;

/// Why a live member isn't run, or not to its end, or not as it should be. Its text is the line that goes to standard error.
#[derive(Debug, Drop, Error)]
pub enum LiveFault {
    /// As of a member that isn't live, with the cause where its address can't be bound or its socket fails.
    #[error("{}", Explained(.0))]
    Member(MemberFault),
    /// The run was whole, but the member was in the session before. That is told as it is heard.
    #[error("")]
    WasBefore,
}

impl LiveFault {
    /// Returns the fault of a run that ended with this fault, or whole: a whole run of a member that was in the session before is `WasBefore`.
    pub fn of_end(fault: Option<MemberFault>, was_before: bool) -> Option<LiveFault>
        ensures { result ≡ fault_of_end fault was_before }
    {
        match fault {
            Some(fault) => Some(LiveFault::Member(fault)),
            None if was_before => Some(LiveFault::WasBefore),
            None => None,
        }
    }

    /// Prints the fault to `err`, unless it was told before, and returns the status that the program ends with.
    pub fn print<E: Write>(&self, err: &mut E) -> u8
        ensures status { result ≡ status_of_live self.now }
        ensures greatest { result ≤ WAS_BEFORE }
    {
        match self {
            LiveFault::Member(MemberFault::Wire) => print_fault(self, err, WIRE_FAILED),
            LiveFault::Member(fault) => fault.print(err),
            LiveFault::WasBefore => WAS_BEFORE,
        }
    }
}
