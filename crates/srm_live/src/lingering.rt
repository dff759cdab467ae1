//! Staying while others need what the member holds, and while it misses something.

use crate::need::Need;
use crate::patience::Lingering;
use std::alloc::Global;
use std::sync::atomic::{AtomicBool, Ordering};
use std::sync::{Arc, Wait};
use std::thread;
use std::time::{Clock, Duration, Instant};

/// The longest nap before it lingers, in microseconds: so late it may be seen that the node has ended.
const NAP: u64 = 250_000;

/// How often is looked whether others need something, in microseconds.
const LOOK: u64 = 10_000;

/// How long a member stays once its input ended.
#[derive(Drop)]
pub struct Staying {
    /// So many microseconds in any case.
    pub stay: u64,
    /// And then until for so many microseconds, or for 5 seconds if it misses something, no repair timer ran, no request or repair waited for the rate and nothing that it missed
    /// came, and two session messages went since its last stroke; for 30 seconds at most. If it is 0, it doesn't linger.
    pub linger: u64,
    /// What others need of it, and what it misses.
    pub need: Arc<Need, Global>,
}

/// A stay that has begun.
#[derive(Drop)]
pub struct Stay {
    start: Option<Instant>,
    // How often others had asked and how much it missed when it looked last, and how many microseconds it had lingered when either changed last or others needed it.
    asked: u64,
    missing: u32,
    needed: u64,
}

impl Staying {
    /// Begins to stay.
    pub fn begin<R: Clock>(&self, rt: &R) -> Stay {
        Stay {
            start: Instant::now(rt).ok(),
            asked: self.need.asked(),
            missing: self.need.missing(),
            needed: 0,
        }
    }

    /// Sleeps for a part of the time that the member stays, 250 milliseconds at most, and returns whether it did: not if the time has passed, the node has ended or
    /// the clock can't be read.
    pub fn nap<R: Clock>(&self, rt: &R, stay: &mut Stay, ended: &AtomicBool) -> bool {
        let Some(start) = stay.start else {
            return false;
        };
        let Ok(passed) = start.elapsed(rt) else {
            return false;
        };
        if ended.load(Ordering::SeqCst) {
            return false;
        }
        let time = Duration::from_micros(self.stay);
        let left = time.saturating_sub(passed);
        if left.is_zero() {
            return self.linger(rt, stay, passed.saturating_sub(time));
        }
        stay.asked = self.need.asked();
        thread::sleep(rt, left.min(Duration::from_micros(NAP)));
        true
    }

    /// Stays to the end.
    pub fn remain<R: Clock + Wait>(&self, rt: &R, ended: &AtomicBool) {
        let mut stay = self.begin(rt);
        for _ in rt.forever() {
            if !self.nap(rt, &mut stay, ended) {
                return;
            }
        }
        unreachable!()
    }

    // Sleeps for a while if it is still to linger, having lingered so long. Whether it did.
    fn linger<R: Clock>(&self, rt: &R, stay: &mut Stay, lingered: Duration) -> bool {
        let lingered = u64::try_from(lingered.as_micros()).unwrap_or(u64::MAX);
        let (asked, missing) = (self.need.asked(), self.need.missing());
        if self.need.is_needed() || asked != stay.asked || missing != stay.missing {
            stay.asked = asked;
            stay.missing = missing;
            stay.needed = lingered;
        }
        let lingering = Lingering {
            lingered,
            needed: stay.needed,
            missing,
            sessions: self.need.sessions(),
        };
        if lingering.is_over(self.linger) {
            return false;
        }
        thread::sleep(rt, Duration::from_micros(LOOK));
        true
    }
}
