//! What tells that members are set differently, or that nobody reaches this one.

ghost use Rattle.std.specs.Prelude.{◌≡◌};
ghost use Rattle.srm_live.specs.Signs as spec;

use srm_agent::{Cause, Verdict};
use srm_codec::DecodeFault;
use std::sync::atomic::{AtomicBool, Ordering};

/// After so many microseconds without a datagram of another member this one counts as silent; after as many from the start without any, nobody was heard.
pub const SILENCE: u64 = 10_000_000;

/// What noise tells of the settings of who sent it.
#[derive(Clone, Copy, Debug, PartialEq, Eq)]
pub enum Sign {
    /// It is a datagram of another session.
    OtherSession,
    /// It is of this session, and too long: bytes stand behind its end, as a key's tag does, or its body has more than 1,024 bytes.
    TooLong,
}

/// Returns what noise with this verdict tells of its sender's settings; `None` if the verdict isn't one of these two.
pub fn sign_of(verdict: Verdict) -> Option<Sign>
    ensures { result ≡ spec.sign_of verdict }
{
    match verdict {
        Verdict::Ignored(Cause::Decode(fault)) => sign_of_fault(fault),
        _ => None,
    }
}

fn sign_of_fault(fault: DecodeFault) -> Option<Sign>
    ensures { result ≡ spec.sign_of_fault fault }
{
    match fault {
        DecodeFault::Session => Some(Sign::OtherSession),
        DecodeFault::Length => Some(Sign::TooLong),
        _ => None,
    }
}

/// Returns whether nobody reached a member by this moment, in microseconds since its start: it is one of several, ten seconds passed, and no datagram of the session came from another.
pub fn is_unheard(members: u8, came: u64, moment: u64) -> bool
    ensures { result ≡ spec.is_unheard members came moment }
{
    members > 1 && came == 0 && moment >= SILENCE
}

/// What was seen so far.
#[derive(Clone, Copy, Debug, PartialEq, Eq)]
pub struct Signs {
    /// A datagram of another session.
    pub other_session: bool,
    /// A datagram that is too long.
    pub too_long: bool,
    /// Nobody was heard for ten seconds from the start.
    pub unheard: bool,
}

impl Signs {
    /// Returns that nothing was seen.
    pub fn none() -> Signs {
        Signs {
            other_session: false,
            too_long: false,
            unheard: false,
        }
    }
}

/// The same, which one thread notes and any reads.
#[derive(Drop)]
pub struct SignFlags {
    other_session: AtomicBool,
    too_long: AtomicBool,
    unheard: AtomicBool,
}

impl SignFlags {
    /// Returns that nothing was seen.
    pub fn new() -> SignFlags {
        SignFlags {
            other_session: AtomicBool::new(false),
            too_long: AtomicBool::new(false),
            unheard: AtomicBool::new(false),
        }
    }

    /// Notes what noise tells.
    pub fn note(&self, sign: Sign) {
        match sign {
            Sign::OtherSession => self.other_session.store(true, Ordering::SeqCst),
            Sign::TooLong => self.too_long.store(true, Ordering::SeqCst),
        }
    }

    /// Notes that nobody was heard.
    pub fn note_unheard(&self) {
        self.unheard.store(true, Ordering::SeqCst);
    }

    /// Returns what was seen by now.
    pub fn signs(&self) -> Signs {
        Signs {
            other_session: self.other_session.load(Ordering::SeqCst),
            too_long: self.too_long.load(Ordering::SeqCst),
            unheard: self.unheard.load(Ordering::SeqCst),
        }
    }
}
