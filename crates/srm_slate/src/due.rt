//! What a server does next, and when.

use std::time::{Duration, Instant};

/// Tabs aren't told more often than each so many milliseconds, so that what comes quickly comes together.
const APART: u64 = 10;

/// Where rounds take long they are twice as far apart, but no more than so many milliseconds.
const FARTHEST: u64 = 50;

/// How often a tab is told the counts, in milliseconds.
const BEAT: u64 = 500;

/// How soon a stroke that the member had no place for is tried again, in milliseconds. A member sends the 64 strokes that wait in no less at a million bytes a second.
const NAP: u64 = 4;

/// How often it is looked for those whose time is up, in milliseconds.
const SWEEP: u64 = 250;

/// How long to wait for what comes if nothing is due, in milliseconds.
const LONG: u64 = 2_000;

/// How long to wait if the system can't take a connection now, in milliseconds.
const REST: u64 = 20;

/// How long the last of it may take once the member's run has ended, in milliseconds.
const LAST: u64 = 1_000;

/// What a server does next, and when.
#[derive(Drop)]
pub struct Due {
    /// Whether a tab may have something new.
    pub is_told: bool,
    /// Whether a tab has more that it can be told at once.
    pub is_behind: bool,
    /// Whether strokes wait for a place.
    pub has_stuck: bool,
    /// Connections may wait from this moment on.
    pub accepts_from: Option<Instant>,
    /// When it is over, once the member's run has ended.
    pub ends_at: Option<Instant>,
    told_at: Instant,
    beaten_at: Instant,
    swept_at: Instant,
    apart: Duration,
}

/// Returns so many milliseconds.
pub fn millis(count: u64) -> Duration {
    Duration::from_millis(count)
}

/// Returns the moment so many milliseconds later.
pub fn later(now: Instant, count: u64) -> Instant {
    now.checked_add(millis(count)).unwrap_or(now)
}

impl Due {
    /// Begins with nothing due.
    pub fn new(now: Instant) -> Due {
        Due {
            is_told: false,
            is_behind: false,
            has_stuck: false,
            accepts_from: None,
            ends_at: None,
            told_at: now,
            beaten_at: now,
            swept_at: now,
            apart: millis(APART),
        }
    }

    /// Returns how long to wait for what comes, where there are tabs, and other connections.
    pub fn wait(&self, now: Instant, has_tabs: bool, has_others: bool) -> Duration {
        let mut wait = millis(LONG);
        if has_tabs {
            wait = wait.min(left(now, self.beaten_at, millis(BEAT)));
            if self.is_told {
                wait = wait.min(left(now, self.told_at, self.apart));
            }
            if self.is_behind {
                wait = millis(0);
            }
        }
        if has_others {
            wait = wait.min(millis(SWEEP));
        }
        if self.has_stuck {
            wait = wait.min(millis(NAP));
        }
        if let Some(until) = self.accepts_from {
            wait = wait.min(until.duration_since(now));
        }
        if let Some(until) = self.ends_at {
            wait = wait.min(until.duration_since(now));
        }
        wait
    }

    /// Returns whether the next round begins, and if so whether it is for all tabs.
    pub fn begin_round(&mut self, now: Instant) -> Option<bool> {
        let is_for_all = now.duration_since(self.beaten_at) >= millis(BEAT);
        let is_time = self.is_told && now.duration_since(self.told_at) >= self.apart;
        if !is_for_all && !is_time && !self.is_behind {
            return None;
        }
        if is_for_all {
            self.beaten_at = now;
        }
        self.told_at = now;
        self.is_told = false;
        self.is_behind = false;
        Some(is_for_all)
    }

    /// Notes that a round took so long.
    pub fn end_round(&mut self, took: Duration) {
        let twice = took.checked_add(took).unwrap_or(took);
        self.apart = twice.max(millis(APART)).min(millis(FARTHEST));
    }

    /// Returns whether it is to be looked for those whose time is up.
    pub fn begin_sweep(&mut self, now: Instant) -> bool {
        if now.duration_since(self.swept_at) < millis(SWEEP) {
            return false;
        }
        self.swept_at = now;
        true
    }

    /// Notes that the system can't take a connection now.
    pub fn rest(&mut self, now: Instant) {
        self.accepts_from = Some(later(now, REST));
    }

    /// Notes that the member's run has ended.
    pub fn end(&mut self, now: Instant) {
        self.ends_at = Some(later(now, LAST));
        self.is_behind = true;
    }
}

// What is left of a time that began then.
fn left(now: Instant, began: Instant, time: Duration) -> Duration {
    time.saturating_sub(now.duration_since(began))
}
