//! A wire that rests while datagrams come close together.

ghost use Rattle.std.specs.Prelude.{◌≡◌, ◌-◌};
ghost use Rattle.srm_udp.specs.Resting.{new_rested, rest_of};

use srm_names::Member;
use srm_wire::{Wire, WireCounts, WireFault};
use std::marker::Model;
use std::thread;
use std::time::{Clock, Duration};

/// How long a pause rests, in microseconds.
const REST: u64 = 100;

/// A wire over another one, which rests while datagrams come close together: if two or more came since the last pause that waited, a pause begins with 100 microseconds
/// in which neither a datagram nor a wake ends it. A node hears several in its next turn then, and this thread and each page worker wake once for all of them. A
/// datagram that comes by itself ends a pause at once. Everything else is as with the wire below. Contracts see that, how many datagrams came, and for how long the wire
/// below pauses.
#[derive(Drop)]
pub struct Rested<R: Clock + Drop, X: Wire + Drop> {
    rt: R,
    wire: X,
    // How many datagrams came since the last pause that waited.
    came: u64,
}

impl<R: Clock + Drop, X: Wire + Drop> Model for Rested<R, X> {
    ghost use Rattle.srm_udp.specs.Resting.{RestedView};

    ghost Value = { RestedView X };

    ghost view = { λ r. record { wire = r.wire; came = r.came } };
}

impl<R: Clock + Drop, X: Wire + Drop> Rested<R, X> {
    /// Returns a wire over this one.
    pub fn new(rt: R, wire: X) -> Rested<R, X>
        ensures { result ≡ new_rested wire }
    {
        Rested { rt, wire, came: 0 }
    }

    #[tactic(auto, using(crate::proofs::Resting::rests_none, crate::proofs::Resting::rests_some))]
    // Rests if datagrams come close together, but no longer than a pause may last. Returns how much of the pause is left.
    fn rest(&mut self, micros: u64) -> u64
        ensures left { result ≡ micros - rest_of self.old.came micros }
        ensures begins { self.new ≡ record self.old { came = 0 } }
    {
        let came = self.came;
        self.came = 0;
        if came < 2 {
            return micros;
        }
        let rest = micros.min(REST);
        thread::sleep(&self.rt, Duration::from_micros(rest));
        micros - rest
    }
}

impl<R: Clock + Drop, X: Wire + Drop> Wire for Rested<R, X> {
    ghost use Rattle.srm_udp.specs.Resting.{SendsRested, ReceivesRested, PausesRested};

    ghost failure_count = { λ r. X.failure_count r.wire };

    ghost told = { λ r. X.told r.wire };

    ghost counted = { λ r. X.counted r.wire };

    ghost sends = { λ r sent failed s. SendsRested X.sends r sent failed s };

    ghost receives = { λ r room answer s. ReceivesRested X.receives r room answer s };

    ghost pauses = { λ r micros s. PausesRested X.pauses r micros s };

    fn send(&mut self, to: Member, datagram: &[u8]) -> Result<(), WireFault> {
        self.wire.send(to, datagram)
    }

    fn receive(&mut self, buffer: &mut [u8]) -> Result<Option<usize>, WireFault> {
        let answer = self.wire.receive(buffer)?;
        if answer.is_some() {
            self.came = self.came.saturating_add(1);
        }
        Ok(answer)
    }

    #[tactic(auto, using(crate::proofs::Resting::pauses_nothing, crate::proofs::Resting::pauses_rest))]
    /// Rests, if it does, and pauses the wire below for what is left of `micros`. A pause of 0 microseconds doesn't rest.
    fn pause(&mut self, micros: u64) {
        if micros == 0 {
            self.wire.pause(0);
            return;
        }
        let left = self.rest(micros);
        self.wire.pause(left);
    }

    fn failures(&self) -> u64 {
        self.wire.failures()
    }

    fn counts(&self) -> WireCounts {
        self.wire.counts()
    }
}
