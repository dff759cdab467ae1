//! A wire that answers what it was made with.

ghost use Rattle.std.specs.Prelude.{None};
ghost use Rattle.srm_wire.specs.Counts.{only_failed};

use srm_names::Member;
use srm_node::{Wire, WireCounts, WireFault};

/// A wire that answers datagrams that it was made with, one after another, and loses what is sent. It never fails, and tells nothing.
#[derive(Drop)]
pub struct Replay {
    datagrams: Vec<Vec<u8>>,
    next: usize,
}

impl Replay {
    pub fn new(datagrams: Vec<Vec<u8>>) -> Replay {
        Replay { datagrams, next: 0 }
    }
}

impl Wire for Replay {
    ghost failure_count = { λ _. 0 };

    ghost told = { λ _. None };

    ghost counted = { λ _. only_failed 0 };

    fn send(&mut self, _to: Member, _datagram: &[u8]) -> Result<(), WireFault> {
        Ok(())
    }

    fn receive(&mut self, buffer: &mut [u8]) -> Result<Option<usize>, WireFault> {
        let Some(bytes) = self.datagrams.get(self.next) else {
            return Ok(None);
        };
        self.next = self.next.saturating_add(1);
        let count = bytes.len().min(buffer.len());
        buffer[..count].copy_from_slice(&bytes.as_slice()[..count]);
        Ok(Some(count))
    }

    fn pause(&mut self, _micros: u64) {}

    fn failures(&self) -> u64 {
        0
    }

    fn counts(&self) -> WireCounts {
        WireCounts::of_failures(0)
    }
}
