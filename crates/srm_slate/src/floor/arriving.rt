//! Those who come.

use super::Floor;
use crate::calling::{Calling, PATIENCE};
use crate::crowd::leaver;
use crate::due::later;
use crate::easel::Easel;
use crate::guest::{Guest, Stage};
use crate::host::host_of;
use crate::leaving::Leaving;
use mio::net::TcpStream;
use std::io::ErrorKind;
use std::net::SocketAddr;
use std::sync::Wait;
use std::time::{Clock, Instant};

/// Connections that are taken before others have their turn.
const TURN: usize = 16;

impl<R: Wait + Clock + Copy + Drop, K: Easel + Drop> Floor<R, K> {
    /// Takes the connections that wait.
    pub(super) fn let_in(&mut self, now: Instant) {
        if !self.due.accepts_from.is_some_and(|from| from <= now) {
            return;
        }
        self.due.accepts_from = None;
        if self.due.ends_at.is_some() {
            return;
        }
        for _ in 0..TURN {
            match self.listener.accept() {
                Ok((stream, address)) => self.greet(stream, &address, now),
                Err(error) => {
                    if error.kind() != ErrorKind::WouldBlock {
                        self.due.rest(now);
                    }
                    return;
                }
            }
        }
        self.due.accepts_from = Some(now);
    }

    fn greet(&mut self, stream: TcpStream, address: &SocketAddr, now: Instant) {
        let _ = stream.set_nodelay(true);
        let host = host_of(address);
        if let Some(key) = leaver(&self.guests, host) {
            self.send_away(key);
        }
        self.came = self.came.saturating_add(1);
        let guest = Guest {
            stage: Stage::Calls(Calling::new(self.desk.alloc, self.keys, stream)),
            is_known: false,
            host,
            place: self.came,
            until: later(now, PATIENCE),
        };
        let Ok(key) = self.guests.insert(guest) else {
            return;
        };
        if !self.register(key, true) {
            let _ = self.guests.try_remove(key);
            return;
        }
        // What it asks has often come with it.
        self.serve(key, now);
    }

    // Ends a connection at once, and tells one that has begun to ask that its time is up.
    fn send_away(&mut self, key: usize) {
        let Some(guest) = self.remove(key) else {
            return;
        };
        if let Stage::Calls(calling) = guest.stage {
            let mut leaving = Leaving::new(calling.tell_late(self.desk.alloc));
            let _ = leaving.step(&mut self.scratch);
        }
    }
}
