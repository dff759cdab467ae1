//! The threads that serve a board.

use crate::board_desk::BoardDesk;
use crate::inkwell::{Inkwell, SharedInkwell};
use crate::leaving::start_leaving;
use crate::telling::tell_address;
use srm_live::Staying;
use srm_member::Waking;
use srm_pages::Pen;
use srm_slate::{Door, Face, Slate, open_door};
use std::alloc::Global;
use std::collections::VecDeque;
use std::io::{Read, Write};
use std::net::{Net, TcpListener};
use std::random::RandomSource;
use std::sync::{Arc, Wait};
use std::thread::{JoinHandle, Threads};
use std::time;

/// The threads that serve a board, and the one that lets its member leave.
#[derive(Drop)]
pub struct Serving {
    door: Door,
    leaving: JoinHandle<()>,
}

impl Serving {
    /// Waits for all of them, once the slate has ended.
    pub fn join<R: Threads>(self, rt: &R) {
        let Serving { door, leaving } = self;
        door.close(rt);
        leaving.join(rt);
    }
}

/// What browsers draw with: a member's producers, and the handle that ends its node's pauses.
#[derive(Drop)]
pub struct Ink {
    pub pens: Vec<Pen>,
    pub waker: Waking,
}

/// Where a board is served, and what is shown there.
#[derive(Drop)]
pub struct Endpoint {
    /// Takes the connections of browsers; its `accept` doesn't wait.
    pub listener: TcpListener,
    /// What the server shows of its member, and to whom.
    pub face: Face,
    /// Where its page is, as a browser is told.
    pub address: String,
}

/// What the threads start with.
#[derive(Drop)]
pub struct Opening<I> {
    /// Where the board is served.
    pub endpoint: Endpoint,
    /// How long the member stays once it is asked to leave.
    pub staying: Staying,
    /// What asks it to leave by its end, if anything.
    pub input: Option<I>,
}

/// Starts the threads, and tells at the desk where the page is. The first producer is that of all browsers, and the others are done. Returns `None` if out of memory, if a
/// thread can't be started, or if the system has no randomness; no thread runs then.
pub fn start_serving<R, I, E>(
    rt: &R,
    alloc: Global,
    ink: Ink,
    opening: Opening<I>,
    slate: &Arc<Slate, Global>,
    desk: &BoardDesk<E>,
) -> Option<Serving>
where
    R: Net + time::Clock + Threads + Wait + RandomSource + Copy + Send + Drop + 'static,
    I: Read + Send + Drop + 'static,
    E: Write,
{
    let Opening {
        endpoint,
        staying,
        input,
    } = opening;
    let Endpoint {
        listener,
        face,
        address,
    } = endpoint;
    let inkwell = Arc::new(alloc, Inkwell::new(first_of(ink.pens), ink.waker)).ok()?;
    let shared = SharedInkwell(Arc::try_clone(&inkwell).ok()?);
    let for_door = Arc::try_clone(slate).ok()?;
    let door = open_door(rt, alloc, listener, face, for_door, shared)?;
    let Some(leaving) = start_leaving(rt, &inkwell, slate, staying, input) else {
        slate.end(rt);
        door.close(rt);
        return None;
    };
    tell_address(rt, address.as_str(), desk);
    Some(Serving { door, leaving })
}

// Returns the first of these producers, and ends the others.
fn first_of(pens: Vec<Pen>) -> Option<Pen> {
    let mut pens = VecDeque::from(pens);
    let first = pens.pop_front();
    for other in pens {
        other.done();
    }
    first
}
