//! A connection, and how it is served.

use crate::calling::Calling;
use crate::host::Host;
use crate::leaving::Leaving;
use crate::watching::Watching;
use crate::went::Went;
use mio::net::TcpStream;
use std::time::{Duration, Instant};

/// How long a tab may take no more, in milliseconds.
const STALLED: u64 = 10_000;

/// How long a tab may be silent before it is asked whether it is there, in milliseconds.
const SILENT: u64 = 20_000;

/// How long a tab may be silent before it is given up, in milliseconds.
const LOST: u64 = 60_000;

/// How a connection is served.
#[derive(Drop)]
pub enum Stage {
    /// It speaks HTTP.
    Calls(Calling),
    /// It is a tab that watches.
    Watches(Watching),
    /// It was answered for the last time.
    Leaves(Leaving),
    /// It is being moved from one stage to another.
    Gone,
}

/// A connection.
#[derive(Drop)]
pub struct Guest {
    /// How it is served.
    pub stage: Stage,
    /// Whether something was granted to it.
    pub is_known: bool,
    /// From which host it comes.
    pub host: Host,
    /// When it came, among all.
    pub place: u64,
    /// When its time is up. For a tab that watches nothing is.
    pub until: Instant,
}

impl Guest {
    /// Returns whether it is a tab that watches.
    pub fn is_watching(&self) -> bool {
        matches!(self.stage, Stage::Watches(_))
    }

    /// Returns whether strokes of it wait for a place.
    pub fn is_stuck(&self) -> bool {
        match &self.stage {
            Stage::Watches(watching) => watching.is_stuck(),
            _ => false,
        }
    }

    /// Returns whether an answer is on its way to it.
    pub fn is_answered(&self) -> bool {
        match &self.stage {
            Stage::Calls(calling) => calling.is_writing(),
            Stage::Leaves(_) => true,
            _ => false,
        }
    }

    /// The socket.
    pub fn stream(&mut self) -> Option<&mut TcpStream> {
        match &mut self.stage {
            Stage::Calls(calling) => Some(&mut calling.stream),
            Stage::Watches(watching) => Some(watching.stream()),
            Stage::Leaves(leaving) => Some(leaving.stream()),
            Stage::Gone => None,
        }
    }

    /// Returns whether its time is up. A tab that is silent is asked whether it is there.
    pub fn is_up(&mut self, now: Instant) -> bool {
        match &mut self.stage {
            Stage::Watches(watching) => is_lost(watching, now),
            _ => self.until <= now,
        }
    }
}

fn is_lost(watching: &mut Watching, now: Instant) -> bool {
    let silent = now.duration_since(watching.heard_at());
    if silent >= Duration::from_millis(LOST) {
        return true;
    }
    match watching.full_since() {
        Some(since) => now.duration_since(since) >= Duration::from_millis(STALLED),
        None => { silent >= Duration::from_millis(SILENT) && watching.ping(now) == Went::Ends }
    }
}
