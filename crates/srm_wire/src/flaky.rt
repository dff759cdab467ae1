//! A wire that fails one call, for tests.

ghost use Rattle.std.specs.Prelude.{◌≡◌, ◌-◌, ◌==◌};
ghost use Rattle.srm_wire.specs.Wires.{counted_with};

use crate::counts::WireCounts;
use crate::wire::{Wire, WireFault, count_failure};
use srm_names::Member;
use std::marker::Model;

/// A wire over another one that fails its k-th `send` or `receive`, k from 1, for tests.
///
/// The call that fails isn't passed on, and is counted. Every other call is that of the wire below, and the wire tells what that one tells.
#[derive(Drop)]
pub struct Flaky<X: Wire + Drop> {
    wire: X,
    // How many calls there are up to and with the one that fails; 0 after it.
    remaining: u64,
    own: u64,
}

impl<X: Wire + Drop> Model for Flaky<X> {
    ghost use Rattle.srm_wire.specs.Flakiness.{FlakyView};

    ghost Value = { FlakyView X };

    ghost view = { λ f. record { wire = f.wire; remaining = f.remaining; own = f.own } };
}

impl<X: Wire + Drop> Flaky<X> {
    /// Makes a wire that fails the k-th call, or none if `k` is 0. Takes no memory.
    pub fn new(wire: X, k: u64) -> Flaky<X>
        ensures { result ≡ record { wire = wire; remaining = k; own = 0 } }
    {
        Flaky {
            wire,
            remaining: k,
            own: 0,
        }
    }
}

// Counts a call down, and returns whether it is the one that fails.
fn fails(remaining: &mut u64) -> bool
    ensures next { result ≡ (remaining.old == 1) }
    ensures remaining { remaining.new ≡ remaining.old - 1 }
{
    let before = *remaining;
    *remaining = before.saturating_sub(1);
    before == 1
}

impl<X: Wire + Drop> Wire for Flaky<X> {
    ghost use Rattle.std.specs.Prelude.{◌≡◌};
    ghost use Rattle.srm_wire.specs.Wires.{is_failed};
    ghost use Rattle.srm_wire.specs.Counts.{with_failures};
    ghost use Rattle.srm_wire.specs.Flakiness.{FailsOnce};

    ghost failure_count = { λ f. counted_with (X.failure_count f.wire) f.own };

    ghost told = { λ f. X.told f.wire };

    ghost counted = { λ f. with_failures f.own (X.counted f.wire) };

    ghost sends = { λ f sent failed g. FailsOnce (λ v w. X.sends v sent failed w) failed f g };

    ghost receives = { λ f room answer g. FailsOnce (λ v w. X.receives v room answer w) (is_failed answer) f g };

    ghost pauses = { λ f micros g. (g ≡ record f { wire = g.wire }) × X.pauses f.wire micros g.wire };

    #[tactic(auto, using(crate::proofs::Telling::counts_below, crate::proofs::Telling::counts_own, crate::proofs::Telling::tells_nothing))]
    fn send(&mut self, to: Member, datagram: &[u8]) -> Result<(), WireFault> {
        if fails(&mut self.remaining) {
            return Err(count_failure(&mut self.own));
        }
        self.wire.send(to, datagram)
    }

    #[tactic(auto, using(crate::proofs::Telling::counts_below, crate::proofs::Telling::counts_own, crate::proofs::Telling::tells_nothing))]
    fn receive(&mut self, buffer: &mut [u8]) -> Result<Option<usize>, WireFault> {
        if fails(&mut self.remaining) {
            return Err(count_failure(&mut self.own));
        }
        self.wire.receive(buffer)
    }

    fn pause(&mut self, micros: u64) {
        self.wire.pause(micros);
    }

    fn failures(&self) -> u64 {
        self.wire.failures().saturating_add(self.own)
    }

    fn counts(&self) -> WireCounts {
        self.wire.counts().with_failures(self.own)
    }
}
