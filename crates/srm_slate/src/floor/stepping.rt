//! What connections are ready for.

use super::{FIRST, Floor};
use crate::calling::{PATIENCE, SLOW};
use crate::crowd::MOST;
use crate::due::later;
use crate::easel::Easel;
use crate::guest::{Guest, Stage};
use crate::hands::Hands;
use crate::leaving::Leaving;
use crate::serving::{Desk, Opened};
use crate::watching::{Beginning, Watching};
use crate::went::Went;
use mio::net::TcpStream;
use mio::{Interest, Token};
use std::mem;
use std::sync::Wait;
use std::time::{Clock, Instant};

/// Tabs that watch at once, at most.
const TABS: usize = 384;

/// Messages that are read of one tab before others have their turn.
const TURN: u8 = 16;

/// How long what one still sends is dropped behind a last answer, in milliseconds.
const FAREWELL: u64 = 2_000;

impl<R: Wait + Clock + Copy + Drop, K: Easel + Drop> Floor<R, K> {
    /// Has the poll report a connection, at first or again. Returns whether it does.
    pub(super) fn register(&mut self, key: usize, is_first: bool) -> bool {
        let Some(guest) = self.guests.get_mut(key) else {
            return false;
        };
        let Some(stream) = guest.stream() else {
            return false;
        };
        let token = Token(key.saturating_add(FIRST));
        let both = Interest::READABLE | Interest::WRITABLE;
        let registry = self.poll.registry();
        if is_first {
            registry.register(stream, token, both).is_ok()
        } else {
            registry.reregister(stream, token, both).is_ok()
        }
    }

    /// Does what one connection is ready for.
    pub(super) fn serve(&mut self, key: usize, now: Instant) {
        let went = self.step(key, now);
        // What is gone is let go, and what has more to do has its turn.
        let is_served = match went {
            Went::Waits => true,
            Went::GoesOn => self.register(key, false),
            Went::Ends => false,
        };
        if !is_served {
            let _ = self.remove(key);
        }
    }

    /// Lets a connection go.
    pub(super) fn remove(&mut self, key: usize) -> Option<Guest> {
        let guest = self.guests.try_remove(key)?;
        if let Stage::Watches(watching) = &guest.stage {
            self.tabs = self.tabs.saturating_sub(1);
            self.hands.close(watching.hand());
        }
        Some(guest)
    }

    fn step(&mut self, key: usize, now: Instant) -> Went {
        let Some(guest) = self.guests.get_mut(key) else {
            return Went::Waits;
        };
        match &mut guest.stage {
            Stage::Calls(_) => self.step_calling(key, now),
            Stage::Watches(watching) => {
                let desk = &mut self.desk;
                let was_full = watching.full_since().is_some();
                let went = step_watching(watching, desk, &mut self.hands, now);
                self.due.has_stuck = self.due.has_stuck || watching.is_stuck();
                // It may have missed something.
                self.due.is_told = self.due.is_told || was_full && watching.is_listening();
                went
            }
            Stage::Leaves(leaving) => leaving.step(&mut self.scratch),
            Stage::Gone => Went::Ends,
        }
    }

    fn step_calling(&mut self, key: usize, now: Instant) -> Went {
        let desk = &mut self.desk;
        let Some(guest) = self.guests.get_mut(key) else {
            return Went::Ends;
        };
        let Stage::Calls(calling) = &mut guest.stage else {
            return Went::Ends;
        };
        desk.has_granted = false;
        desk.opened = None;
        desk.has_room = self.tabs < TABS;
        let answered = desk.answered;
        let had_begun = calling.has_begun();
        let went = calling.step(desk);
        if desk.answered != answered {
            let time = if calling.is_writing() { SLOW } else { PATIENCE };
            guest.until = later(now, time);
        } else if guest.is_known && !had_begun && calling.has_begun() {
            // Who asks again has its time from its first byte on.
            guest.until = later(now, PATIENCE);
        }
        guest.is_known = guest.is_known || desk.has_granted;
        if went != Went::Ends {
            return went;
        }
        self.hand_over(key, now)
    }

    // HTTP has nothing more to do: it goes on as a tab, or was answered for the last time.
    fn hand_over(&mut self, key: usize, now: Instant) -> Went {
        let Some(guest) = self.guests.get_mut(key) else {
            return Went::Ends;
        };
        let Stage::Calls(calling) = mem::replace(&mut guest.stage, Stage::Gone) else {
            return Went::Ends;
        };
        let (stream, read) = calling.end(self.desk.alloc);
        match (read, self.desk.opened) {
            (Some(read), Some(opened)) => self.open_tab(key, stream, read, opened, now),
            _ => {
                guest.until = later(now, FAREWELL);
                guest.stage = Stage::Leaves(Leaving::new(stream));
                Went::GoesOn
            }
        }
    }

    fn open_tab(
        &mut self,
        key: usize,
        stream: TcpStream,
        read: Vec<u8>,
        opened: Opened,
        now: Instant,
    ) -> Went {
        let Some(hand) = self.hands.open(opened.tab) else {
            return Went::Ends;
        };
        let settled = match self.hands.get(hand) {
            Some(hand) => hand.settled(),
            None => 0,
        };
        let beginning = Beginning {
            stream,
            read,
            at: opened.at,
            hand,
            now,
        };
        let mut watching = Watching::new(self.desk.alloc, beginning);
        let greeted = watching.greet(self.desk.shown.run, settled, now);
        self.tabs = self.tabs.saturating_add(1);
        self.due.is_told = true;
        if let Some(guest) = self.guests.get_mut(key) {
            guest.stage = Stage::Watches(watching);
        }
        greeted
    }

    /// Tries strokes again that the member had no place for, another tab's first each time, until it is full again.
    pub(super) fn draw_stuck(&mut self, now: Instant) {
        if !self.due.has_stuck {
            return;
        }
        self.due.has_stuck = false;
        for place in 0..MOST {
            let key = self.turn.saturating_add(place) % MOST;
            if !self.is_stuck(key) {
                continue;
            }
            self.serve(key, now);
            if self.is_stuck(key) {
                self.turn = key.saturating_add(1) % MOST;
                self.due.has_stuck = true;
                return;
            }
        }
    }

    fn is_stuck(&self, key: usize) -> bool {
        match self.guests.get(key) {
            Some(guest) => guest.is_stuck(),
            None => false,
        }
    }

    /// Ends those whose time is up. One that has begun to ask is told so.
    pub(super) fn sweep(&mut self, now: Instant) {
        if !self.due.begin_sweep(now) {
            return;
        }
        for key in 0..MOST {
            let is_up = match self.guests.get_mut(key) {
                Some(guest) => guest.is_up(now),
                None => false,
            };
            if is_up {
                self.time_out(key, now);
            }
        }
    }

    fn time_out(&mut self, key: usize, now: Instant) {
        let Some(guest) = self.guests.get_mut(key) else {
            return;
        };
        if !matches!(guest.stage, Stage::Calls(_)) {
            let _ = self.remove(key);
            return;
        }
        if let Stage::Calls(calling) = mem::replace(&mut guest.stage, Stage::Gone) {
            let stream = calling.tell_late(self.desk.alloc);
            guest.until = later(now, FAREWELL);
            guest.stage = Stage::Leaves(Leaving::new(stream));
        }
        self.serve(key, now);
    }
}

fn step_watching<R: Wait + Clock + Drop, K: Easel + Drop>(
    watching: &mut Watching,
    desk: &mut Desk<R, K>,
    hands: &mut Hands,
    now: Instant,
) -> Went {
    for _ in 0..TURN {
        match watching.step(&desk.rt, &mut desk.shown.easel, hands, now) {
            Went::GoesOn => {}
            went => return went,
        }
    }
    Went::GoesOn
}
