//! The connections of a server, all served by one thread.

mod arriving;
mod ending;
mod stepping;
mod telling;

use crate::bell::Bell;
use crate::due::{Due, millis};
use crate::easel::Easel;
use crate::guest::Guest;
use crate::hands::Hands;
use crate::round::Round;
use crate::serving::{Desk, Shown};
use mio::net::TcpListener;
use mio::{Events, Interest, Poll, Token};
use slab::Slab;
use std::alloc::Global;
use std::hash::RandomState;
use std::net::Net;
use std::sync::Wait;
use std::time::{Clock, Instant};
use std::{io, net};

const LISTENER: Token = Token(0);

const BELL: Token = Token(1);

/// The first token of a connection.
const FIRST: usize = 2;

/// The connections of a server.
#[derive(Drop)]
pub struct Floor<R: Wait + Clock + Drop, K: Easel + Drop> {
    desk: Desk<R, K>,
    keys: RandomState,
    poll: Poll,
    events: Events<Global>,
    listener: TcpListener,
    guests: Slab<Guest>,
    // The tabs among them.
    tabs: usize,
    hands: Hands,
    // Those that came so far.
    came: u64,
    // Keys that have to be served.
    ready: Vec<usize>,
    scratch: Vec<u8>,
    due: Due,
    // The round in which tabs are told, while it is under way.
    round: Option<Round>,
    // Whose stroke is tried first.
    turn: usize,
}

/// What a server begins with.
#[derive(Drop)]
pub struct Ground<K: Easel + Drop> {
    alloc: Global,
    keys: RandomState,
    poll: Poll,
    events: Events<Global>,
    listener: TcpListener,
    ready: Vec<usize>,
    scratch: Vec<u8>,
    shown: Shown<K>,
    began: Instant,
}

impl<K: Easel + Drop> Ground<K> {
    /// Makes what it takes to serve a listener whose `accept` doesn't wait. Fails if out of memory, and with the system's error if it refuses to poll.
    pub fn new<R: Net + Wait + Clock>(
        rt: &R,
        alloc: Global,
        keys: RandomState,
        listener: net::TcpListener,
        shown: Shown<K>,
    ) -> io::Result<Ground<K>> {
        let poll = Poll::new(rt)?;
        let mut listener = TcpListener::from_std(listener);
        poll.registry()
            .register(&mut listener, LISTENER, Interest::READABLE)?;
        let _ = shown.slate.hang(rt, Bell::new(poll.registry(), BELL)?);
        Ok(Ground {
            alloc,
            keys,
            poll,
            events: Events::with_capacity(alloc, 256)?,
            listener,
            ready: Vec::with_capacity(alloc, 1_024)?,
            scratch: Vec::from_elem(alloc, 0, 16_384)?,
            shown,
            began: Instant::now(rt)?,
        })
    }

    /// Returns when it began.
    pub fn began(&self) -> Instant {
        self.began
    }
}

impl<R: Wait + Clock + Copy + Drop, K: Easel + Drop> Floor<R, K> {
    /// Begins to serve.
    pub fn new(rt: &R, ground: Ground<K>) -> Floor<R, K> {
        let alloc = ground.alloc;
        let due = Due::new(ground.began);
        Floor {
            desk: Desk {
                rt: *rt,
                alloc,
                shown: ground.shown,
                answered: 0,
                has_granted: false,
                has_room: true,
                opened: None,
            },
            keys: ground.keys,
            poll: ground.poll,
            events: ground.events,
            listener: ground.listener,
            guests: Slab::new(alloc),
            tabs: 0,
            hands: Hands::new(alloc),
            came: 0,
            ready: ground.ready,
            scratch: ground.scratch,
            due,
            round: None,
            turn: 0,
        }
    }

    /// Serves until the member's run has ended, and all was told, or a second went by since.
    pub fn run(&mut self, rt: &R, began: Instant) {
        let mut now = began;
        for _ in rt.forever() {
            self.await_some(now);
            now = Instant::now(rt).unwrap_or(now);
            self.note_ready(now);
            self.note_end(now);
            self.serve_ready(now);
            self.let_in(now);
            self.draw_stuck(now);
            self.tell_some(rt, now);
            self.sweep(now);
            if self.is_over(now) {
                return;
            }
        }
        unreachable!()
    }

    // Waits for what comes, if nothing is to be done at once.
    fn await_some(&mut self, now: Instant) {
        let has_others = self.guests.len() > self.tabs;
        let mut wait = self.due.wait(now, self.tabs > 0, has_others);
        if self.round.is_some() {
            wait = millis(0);
        }
        let _ = self.poll.poll(&mut self.events, Some(wait));
    }

    fn note_ready(&mut self, now: Instant) {
        self.ready.clear();
        for event in self.events.iter() {
            let Token(token) = event.token();
            if token >= FIRST {
                let _ = self.ready.push(token.saturating_sub(FIRST));
            } else if event.token() == LISTENER {
                self.due.accepts_from = Some(now);
            }
        }
        if self.desk.shown.slate.was_told() {
            self.due.is_told = true;
        }
    }

    fn serve_ready(&mut self, now: Instant) {
        for place in 0..self.ready.len() {
            if let Some(key) = self.ready.get(place).copied() {
                self.serve(key, now);
            }
        }
    }
}
