//! Which call of a wire failed first, and why.

ghost use Rattle.std.specs.Prelude.{◌≡◌, IfSome};
ghost use Rattle.srm_udp.specs.Failures.{IsOfWire};

use crate::loss::is_loss;
use srm_names::Member;
use std::io::ErrorKind;
use std::marker::Model;
use std::net::SocketAddr;
use std::sync::atomic::{AtomicU64, Ordering};
use std::{fmt, io};

/// A call of a wire that failed, with its address and the cause that the system tells. Its text is `cannot send to ADDRESS: CAUSE` or `cannot receive at ADDRESS:
/// CAUSE`.
#[derive(Clone, Copy, Debug, PartialEq, Eq)]
pub enum WireFailure {
    /// A send to this address.
    Send(SocketAddr, ErrorKind),
    /// A receive at this address.
    Receive(SocketAddr, ErrorKind),
}

impl fmt::Display for WireFailure {
    fn fmt<W: fmt::Write>(&self, f: &mut fmt::Formatter<W>) -> fmt::Result {
        match self {
            WireFailure::Send(address, cause) => write!(f, "cannot send to {address}: {cause}"),
            WireFailure::Receive(address, cause) => {
                write!(f, "cannot receive at {address}: {cause}")
            }
        }
    }
}

/// Where a wire notes which of its calls failed first, for any thread. A node stops at the first failure, so that is why it stopped.
#[derive(Drop)]
pub struct FirstFailure {
    own: SocketAddr,
    roster: Vec<SocketAddr>,
    // The call above, and the system's number for the cause in the low 32 bits.
    noted: AtomicU64,
}

impl Model for FirstFailure {
    ghost use Rattle.srm_udp.specs.Failures.{FailureView};

    ghost Value = { FailureView };

    ghost view = { λ f. record { own = f.own; roster = f.roster.items } };
}

/// No call failed.
const NONE: u64 = 0;

/// A receive failed.
const RECEIVE: u64 = 1;

/// A send to member 0 failed. The other members' numbers are behind it.
const SEND: u64 = 2;

impl FirstFailure {
    /// Makes the note of a wire that is bound to `own` and sends to `roster`; no call failed.
    pub(crate) fn new(own: SocketAddr, roster: Vec<SocketAddr>) -> FirstFailure
        ensures { result ≡ record { own = own; roster = roster.items } }
    {
        FirstFailure {
            own,
            roster,
            noted: AtomicU64::new(NONE),
        }
    }

    /// Notes what the system answered to a receive, if that is the first failure.
    pub(crate) fn note_receive(&self, error: &io::Error) {
        self.note(RECEIVE, error);
    }

    /// Notes what the system answered to a send, if that is the first failure.
    pub(crate) fn note_send(&self, to: Member, error: &io::Error) {
        self.note(u64::from(to.number()) + SEND, error);
    }

    // A loss is no failure.
    fn note(&self, call: u64, error: &io::Error) {
        if is_loss(error) {
            return;
        }
        let number = error.raw_os_error().unwrap_or(0).unsigned_abs();
        let failure = (call << 32) | u64::from(number);
        let _ = self
            .noted
            .compare_exchange(NONE, failure, Ordering::SeqCst, Ordering::SeqCst);
    }

    /// Returns the call that failed first, or `None` if none did so far, or the system told nothing of it. A receive is told with the wire's own address, a send with one that
    /// the wire sends to.
    pub fn first(&self) -> Option<WireFailure>
        ensures { IfSome result (IsOfWire self.now) }
    {
        let noted = self.noted.load(Ordering::SeqCst);
        let number = i32::try_from(noted % (1 << 32)).ok()?;
        let cause = io::Error::from_raw_os_error(number).kind();
        let call = noted >> 32;
        if call == RECEIVE {
            return Some(WireFailure::Receive(self.own, cause));
        }
        let to = usize::try_from(call.checked_sub(SEND)?).ok()?;
        let address = self.roster.get(to).copied()?;
        Some(WireFailure::Send(address, cause))
    }
}
