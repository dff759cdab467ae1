//! A wire that fails for ever.

ghost use Rattle.std.specs.Prelude.{None};
ghost use Rattle.srm_wire.specs.Counts.{only_failed};

use srm_names::Member;
use srm_node::{Wire, WireCounts, WireFault};

/// A wire whose calls all fail from one on, for ever. It tells nothing.
#[derive(Drop)]
pub struct FailingWire<X: Wire + Drop> {
    wire: X,
    // How many calls don't fail yet.
    left: u64,
    failures: u64,
}

impl<X: Wire + Drop> FailingWire<X> {
    /// A wire over this one, which fails behind so many calls, and whose calls failed so often before.
    pub fn new(wire: X, left: u64, failures: u64) -> FailingWire<X> {
        FailingWire {
            wire,
            left,
            failures,
        }
    }
}

/// Counts a call down. Whether it fails.
fn fails(left: &mut u64) -> bool {
    let before = *left;
    *left = before.saturating_sub(1);
    before == 0
}

impl<X: Wire + Drop> Wire for FailingWire<X> {
    ghost failure_count = { λ w. w.failures };

    ghost told = { λ _. None };

    ghost counted = { λ w. only_failed w.failures };

    fn send(&mut self, to: Member, datagram: &[u8]) -> Result<(), WireFault> {
        if !fails(&mut self.left) {
            if let Ok(()) = self.wire.send(to, datagram) {
                return Ok(());
            }
        }
        self.failures = self.failures.saturating_add(1);
        Err(WireFault)
    }

    fn receive(&mut self, buffer: &mut [u8]) -> Result<Option<usize>, WireFault> {
        if !fails(&mut self.left) {
            if let Ok(received) = self.wire.receive(buffer) {
                return Ok(received);
            }
        }
        self.failures = self.failures.saturating_add(1);
        Err(WireFault)
    }

    fn pause(&mut self, _micros: u64) {}

    fn failures(&self) -> u64 {
        self.failures
    }

    fn counts(&self) -> WireCounts {
        WireCounts::of_failures(self.failures)
    }
}
