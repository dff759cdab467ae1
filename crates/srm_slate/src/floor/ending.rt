//! The end of a member's run.

use super::Floor;
use crate::crowd::MOST;
use crate::easel::Easel;
use std::sync::Wait;
use std::time::{Clock, Instant};

impl<R: Wait + Clock + Copy + Drop, K: Easel + Drop> Floor<R, K> {
    /// Once the member's run has ended, takes no more connections, and keeps of those that are no tabs only those that are being answered.
    pub(super) fn note_end(&mut self, now: Instant) {
        if self.due.ends_at.is_some() || !self.desk.shown.slate.has_ended() {
            return;
        }
        self.due.end(now);
        for key in 0..MOST {
            let is_kept = match self.guests.get(key) {
                Some(guest) => guest.is_watching() || guest.is_answered(),
                None => true,
            };
            if !is_kept {
                let _ = self.remove(key);
            }
        }
    }

    /// Returns whether all was told behind the end of the member's run, or its time is up.
    pub(super) fn is_over(&self, now: Instant) -> bool {
        match self.due.ends_at {
            Some(until) => self.guests.is_empty() || until <= now,
            None => false,
        }
    }
}
