//! A connection that was answered for the last time.

use crate::went::Went;
use mio::net::TcpStream;
use std::io::{ErrorKind, Read};
use std::net::Shutdown;

/// What is read of one connection before others have their turn, in pieces.
const TURN: u8 = 8;

/// What is read at most of what it still sends, in bytes. Who sends more is cut off.
const MOST: usize = 4_000_000;

/// A connection on which nothing more is said. What it still sends is dropped, so that its last answer isn't lost by a reset.
#[derive(Drop)]
pub struct Leaving {
    stream: TcpStream,
    dropped: usize,
}

impl Leaving {
    /// Says that nothing more is said.
    pub fn new(stream: TcpStream) -> Leaving {
        let _ = stream.shutdown(Shutdown::Write);
        Leaving { stream, dropped: 0 }
    }

    /// Drops what came.
    pub fn step(&mut self, scratch: &mut [u8]) -> Went {
        for _ in 0..TURN {
            match self.stream.read(scratch) {
                Ok(0) => return Went::Ends,
                Ok(count) => {
                    self.dropped = self.dropped.saturating_add(count);
                    if self.dropped > MOST {
                        return Went::Ends;
                    }
                }
                Err(error) => match error.kind() {
                    ErrorKind::WouldBlock => return Went::Waits,
                    ErrorKind::Interrupted => {}
                    _ => return Went::Ends,
                },
            }
        }
        Went::GoesOn
    }

    /// The socket.
    pub fn stream(&mut self) -> &mut TcpStream {
        &mut self.stream
    }
}
