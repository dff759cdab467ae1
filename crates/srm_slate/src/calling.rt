//! A connection that speaks HTTP.

use crate::easel::Easel;
use crate::serving::Desk;
use crate::went::Went;
use http_server::{Config, Connection, State};
use mio::net::TcpStream;
use std::alloc::Global;
use std::hash::RandomState;
use std::io::{ErrorKind, Write};
use std::sync::Wait;
use std::time::Clock;

/// The longest body of a request, in bytes.
const LONGEST: usize = 70_000;

/// How long one may take to ask, also for the next time, in milliseconds.
pub const PATIENCE: u64 = 5_000;

/// How long an answer may take to be taken, in milliseconds.
pub const SLOW: u64 = 20_000;

/// Reads and writes of one connection before others have their turn.
const TURN: u8 = 32;

/// What one is told who is late, or has to make room.
const LATE: &[u8] =
    b"HTTP/1.1 408 Request Timeout\r\nconnection: close\r\ncontent-length: 0\r\n\r\n";

/// A connection, and what it asks.
#[derive(Drop)]
pub struct Calling {
    /// The socket.
    pub stream: TcpStream,
    connection: Connection,
    // Whether something came behind the last answer.
    has_begun: bool,
}

impl Calling {
    /// Begins to serve a connection.
    pub fn new(alloc: Global, keys: RandomState, stream: TcpStream) -> Calling {
        let mut config = Config::default();
        config.max_body_len = LONGEST;
        config.read_size = 4_096;
        Calling {
            stream,
            connection: Connection::new(alloc, keys, config),
            has_begun: false,
        }
    }

    /// Reads, answers and writes what it can. `Went::Ends` says that HTTP has nothing more to do here.
    pub fn step<R: Wait + Clock + Drop, K: Easel + Drop>(&mut self, desk: &mut Desk<R, K>) -> Went {
        for _ in 0..TURN {
            let answered = desk.answered;
            self.connection.advance(desk);
            if desk.answered != answered {
                self.has_begun = false;
            }
            if self.connection.is_done() {
                return Went::Ends;
            }
            let is_writing = self.connection.wants_write();
            let moved = if is_writing {
                self.connection.write_to(&mut self.stream)
            } else {
                self.connection.read_from(&mut self.stream)
            };
            match moved {
                Ok(0) if is_writing => return Went::Ends,
                Ok(count) => self.has_begun = self.has_begun || !is_writing && count > 0,
                Err(error) => match error.kind() {
                    ErrorKind::WouldBlock => return Went::Waits,
                    ErrorKind::Interrupted => {}
                    _ => return Went::Ends,
                },
            }
        }
        Went::GoesOn
    }

    /// Returns whether something came behind the last answer.
    pub fn has_begun(&self) -> bool {
        self.has_begun
    }

    /// Returns whether an answer is under way.
    pub fn is_writing(&self) -> bool {
        self.connection.wants_write()
    }

    /// Tells one that has begun to ask that its time is up. Returns the socket.
    pub fn tell_late(self, alloc: Global) -> TcpStream {
        let is_told = self.has_begun && !self.connection.wants_write();
        let (mut stream, _) = self.end(alloc);
        if is_told {
            let _ = stream.write(LATE);
        }
        stream
    }

    /// The socket, and what was read behind the request that opened a WebSocket, if one did. `None` in its place also if out of memory.
    pub fn end(self, alloc: Global) -> (TcpStream, Option<Vec<u8>>) {
        let Calling {
            stream,
            connection,
            ..
        } = self;
        if connection.state() != State::Upgraded {
            return (stream, None);
        }
        let (input, _) = connection.into_buffers();
        let mut read = Vec::new(alloc);
        match read.extend_from_slice(input.as_slice()) {
            Ok(()) => (stream, Some(read)),
            Err(_) => (stream, None),
        }
    }
}
