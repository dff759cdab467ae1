//! An input that is waited for only so long.

ghost use Rattle.std.specs.Prelude.{◌≡◌};

use mio::unix::SourceFd;
use mio::{Events, Interest, Poll, Token};
use std::alloc::Global;
use std::io;
use std::io::{ErrorKind, Read};
use std::marker::Model;
use std::net::Net;
use std::os::fd::RawFd;
use std::time::Duration;

/// How long a read waits for the first byte, at most, in microseconds.
const WAIT: u64 = 250_000;

/// An input of the system whose reads wait 250,000 microseconds at most: a read that finds nothing returns `WouldBlock`. So a thread that reads can see that the member ends, while nobody
/// types. If the system can't tell whether something is there, as of a file, a read waits as long as it takes. Contracts see it as its reader.
#[derive(Drop)]
pub struct PolledInput<I> {
    reader: I,
    descriptor: RawFd,
    poll: Option<(Poll, Events<Global>)>,
}

impl<I> Model for PolledInput<I> {
    ghost Value = { I };

    ghost view = { λ p. p.reader };
}

impl<I: Read> PolledInput<I> {
    /// Makes the input over a reader of this descriptor. The reader may keep no bytes in a buffer, since a wait at the descriptor wouldn't see them. It can't fail:
    /// without a poll, also if out of memory, reads wait as long as they take.
    pub fn new(net: &impl Net, alloc: Global, reader: I, descriptor: RawFd) -> PolledInput<I>
        ensures { result ≡ reader }
    {
        PolledInput {
            reader,
            descriptor,
            poll: poll_of(net, alloc, descriptor).ok(),
        }
    }
}

impl<I: Read> Read for PolledInput<I> {
    ghost remaining = { λ p. I.remaining p };

    fn read(&mut self, buffer: &mut [u8]) -> io::Result<usize> {
        let descriptor = self.descriptor;
        if let Some((poll, events)) = &mut self.poll {
            // The poll reports once what comes: asked anew, it reports what is there too. Where the system refuses to wait, the read does.
            let asked = poll
                .registry()
                .reregister(&mut SourceFd(&descriptor), Token(0), Interest::READABLE);
            let waited = poll.poll(events, Some(Duration::from_micros(WAIT)));
            if asked.is_ok() && waited.is_ok() && events.is_empty() {
                return Err(io::Error::from(ErrorKind::WouldBlock));
            }
        }
        self.reader.read(buffer)
    }
}

fn poll_of(net: &impl Net, alloc: Global, descriptor: RawFd) -> io::Result<(Poll, Events<Global>)> {
    let poll = Poll::new(net)?;
    let events = Events::with_capacity(alloc, 1)?;
    poll.registry()
        .register(&mut SourceFd(&descriptor), Token(0), Interest::READABLE)?;
    Ok((poll, events))
}
