//! The lines of faults that have a cause of the system, which may have no name, and of a live member's wire.

use crate::fault::MemberFault;
use srm_options::SystemCause;
use srm_record::Unwritten;
use srm_udp::WireFailure;
use std::fmt;

/// Displays which call of a wire failed, and why.
#[derive(Clone, Copy)]
pub(crate) struct FailedCall<'a>(pub(crate) &'a WireFailure);

impl fmt::Display for FailedCall<'_> {
    fn fmt<W: fmt::Write>(&self, f: &mut fmt::Formatter<W>) -> fmt::Result {
        match self.0 {
            WireFailure::Send(address, cause) => {
                let cause = SystemCause::of_datagram(*cause);
                write!(f, "cannot send to {address}: {cause}")
            }
            WireFailure::Receive(address, cause) => {
                let cause = SystemCause::of_datagram(*cause);
                write!(f, "cannot receive at {address}: {cause}")
            }
        }
    }
}

/// Displays the line for a record whose file lacks something, with its path and the cause.
#[derive(Clone, Copy)]
pub struct RecordLine<'a>(pub &'a Unwritten);

impl fmt::Display for RecordLine<'_> {
    fn fmt<W: fmt::Write>(&self, f: &mut fmt::Formatter<W>) -> fmt::Result {
        let cause = SystemCause::of_file(self.0.cause);
        write!(f, "srm: record {}: {cause}", self.0.path)
    }
}

/// Displays the line for a fault of a live member. Of a wire that failed without a call it tells what may have been: any other member's line is `srm: wire`.
#[derive(Clone, Copy)]
pub struct Explained<'a>(pub &'a MemberFault);

impl fmt::Display for Explained<'_> {
    fn fmt<W: fmt::Write>(&self, f: &mut fmt::Formatter<W>) -> fmt::Result {
        match self.0 {
            MemberFault::Wire => f.write_str(
                "srm: wire: the clock can't be read, or a call failed and memory was out to note which",
            ),
            fault => write!(f, "{fault}"),
        }
    }
}
