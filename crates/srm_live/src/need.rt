//! What a member and others still need of each other.

ghost use Rattle.std.specs.Prelude.{◌≡◌};
ghost use Rattle.srm_live.specs.Lingering.{is_needed};

use srm_agent::{Entry, Input, Outstanding, Verdict};
use srm_codec::Datagram;
use srm_timers::ArmKind;
use std::sync::atomic::{AtomicBool, AtomicU32, AtomicU64, Ordering};

/// What others still need of a member and what it misses. One thread notes it, and any reads. Counts wrap at 2^64.
#[derive(Drop)]
pub struct Need {
    asked: AtomicU64,
    needed: AtomicBool,
    missing: AtomicU32,
    sessions: AtomicU64,
}

impl Need {
    /// Makes the need of nothing: nothing was asked for, nothing is missing, and nothing was sent.
    pub fn new() -> Need {
        Need {
            asked: AtomicU64::new(0),
            needed: AtomicBool::new(false),
            missing: AtomicU32::new(0),
            sessions: AtomicU64::new(0),
        }
    }

    /// Notes what an entry tells: that another member asked for what this one holds, so that a repair timer was set, which may end before the turn does; that the member
    /// drew a stroke, so that no session message told of all its strokes yet; and each session message that it sent.
    pub fn see(&self, entry: &Entry) {
        let arms = entry.effects.arms.as_slice();
        if arms.iter().any(|arm| arm.kind == ArmKind::Fix) {
            self.asked.fetch_add(1, Ordering::SeqCst);
        }
        if let (Input::Drew(..), Verdict::Done) = (&entry.input, entry.verdict) {
            self.sessions.store(0, Ordering::SeqCst);
        }
        for datagram in entry.effects.outs.as_slice() {
            if matches!(datagram, Datagram::Session { .. }) {
                self.sessions.fetch_add(1, Ordering::SeqCst);
            }
        }
    }

    /// Stores what is outstanding now: whether others may need the member, as [`is_needed`] says, and how many strokes it misses.
    pub fn show(&self, outstanding: &Outstanding) {
        self.needed.store(is_needed(outstanding), Ordering::SeqCst);
        self.missing.store(outstanding.missing, Ordering::SeqCst);
    }

    /// Returns how often a request of another member set repair timers.
    pub fn asked(&self) -> u64 {
        self.asked.load(Ordering::SeqCst)
    }

    /// Returns whether others may need the member.
    pub fn is_needed(&self) -> bool {
        self.needed.load(Ordering::SeqCst)
    }

    /// Returns how many strokes the member misses.
    pub fn missing(&self) -> u32 {
        self.missing.load(Ordering::SeqCst)
    }

    /// Returns how many session messages were sent since the last stroke.
    pub fn sessions(&self) -> u64 {
        self.sessions.load(Ordering::SeqCst)
    }
}

/// Returns whether others may need a member: one of its repair timers runs, or requests or repairs wait until the rate lets them go, which leaving would give up.
pub fn is_needed(outstanding: &Outstanding) -> bool
    ensures { result ≡ is_needed outstanding.now }
{
    outstanding.next_repair.is_some()
        || outstanding.waiting_shown > 0
        || outstanding.waiting_other > 0
}
