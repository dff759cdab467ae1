//! What tabs are told.

use super::Floor;
use crate::crowd::MOST;
use crate::easel::Easel;
use crate::guest::Stage;
use crate::round::Round;
use crate::went::Went;
use std::sync::Wait;
use std::time::{Clock, Instant};

/// Connections of a round that are told before others have their turn.
const TURN: usize = 64;

impl<R: Wait + Clock + Copy + Drop, K: Easel + Drop> Floor<R, K> {
    /// Tells some tabs what is new to them. A round goes on where it was, or the next one begins if it is time.
    pub(super) fn tell_some(&mut self, rt: &R, now: Instant) {
        if self.tabs == 0 {
            self.round = None;
            return;
        }
        let Some(mut round) = self.next_round(now) else {
            return;
        };
        let end = round.next.saturating_add(TURN).min(MOST);
        for key in round.next..end {
            self.tell(&mut round, key, now);
        }
        round.next = end;
        if end < MOST {
            self.round = Some(round);
            return;
        }
        let ended = Instant::now(rt).unwrap_or(now);
        self.due.end_round(ended.duration_since(round.began));
    }

    fn next_round(&mut self, now: Instant) -> Option<Round> {
        if let Some(round) = self.round.take() {
            return Some(round);
        }
        let is_for_all = self.due.begin_round(now)?;
        Some(Round::new(self.desk.alloc, is_for_all, now))
    }

    // Tells one tab what is new to it. Once all is told at the end of the member's run, it says farewell.
    fn tell(&mut self, round: &mut Round, key: usize, now: Instant) {
        let Some(guest) = self.guests.get_mut(key) else {
            return;
        };
        let Stage::Watches(watching) = &mut guest.stage else {
            return;
        };
        if !watching.is_listening() {
            return;
        }
        let Some(sheet) = round.sheet(&self.desk, watching.at()) else {
            return;
        };
        let has_more = sheet.has_more();
        let went = watching.tell(sheet, now);
        if went == Went::Ends {
            let _ = self.remove(key);
        } else if watching.is_listening() {
            if has_more {
                self.due.is_behind = true;
            } else if self.due.ends_at.is_some() {
                watching.close();
            }
        }
    }
}
