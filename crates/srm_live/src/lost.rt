//! What was lost on its way out, for the user.

use srm_wire::Losses;
use std::fmt;
use std::sync::atomic::{AtomicU64, Ordering};

/// How many datagrams were lost, by kind, so that one thread shows them and another reads.
#[derive(Drop)]
pub struct LostCounts {
    no_way: AtomicU64,
    denied: AtomicU64,
    too_long: AtomicU64,
    no_room: AtomicU64,
    port_closed: AtomicU64,
}

impl LostCounts {
    /// Makes counts of 0.
    pub fn new() -> LostCounts {
        LostCounts {
            no_way: AtomicU64::new(0),
            denied: AtomicU64::new(0),
            too_long: AtomicU64::new(0),
            no_room: AtomicU64::new(0),
            port_closed: AtomicU64::new(0),
        }
    }

    /// Stores how many were lost by now.
    pub fn show(&self, losses: Losses) {
        self.no_way.store(losses.no_way, Ordering::SeqCst);
        self.denied.store(losses.denied, Ordering::SeqCst);
        self.too_long.store(losses.too_long, Ordering::SeqCst);
        self.no_room.store(losses.no_room, Ordering::SeqCst);
        self.port_closed.store(losses.port_closed, Ordering::SeqCst);
    }

    /// Returns how many were lost, as shown last.
    pub fn losses(&self) -> Losses {
        Losses {
            no_way: self.no_way.load(Ordering::SeqCst),
            denied: self.denied.load(Ordering::SeqCst),
            too_long: self.too_long.load(Ordering::SeqCst),
            no_room: self.no_room.load(Ordering::SeqCst),
            port_closed: self.port_closed.load(Ordering::SeqCst),
        }
    }
}

/// What was lost, in words: `KIND N` for each kind that isn't at 0, with commas between.
#[derive(Clone, Copy, Debug, PartialEq, Eq)]
pub struct Lost(pub Losses);

impl fmt::Display for Lost {
    fn fmt<W: fmt::Write>(&self, f: &mut fmt::Formatter<W>) -> fmt::Result {
        let losses = self.0;
        let mut before = "";
        for (kind, count) in [
            ("no way there", losses.no_way),
            ("denied", losses.denied),
            ("too long", losses.too_long),
            ("no room", losses.no_room),
            ("port closed", losses.port_closed),
        ] {
            if count > 0 {
                write!(f, "{before}{kind} {count}")?;
                before = ", ";
            }
        }
        Ok(())
    }
}
