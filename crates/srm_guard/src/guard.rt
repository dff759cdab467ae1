//! A wire that drops what the node above it is not to hear.

ghost use Rattle.std.specs.Prelude.{◌≡◌, is_err, IfOk};
ghost use Rattle.srm_wire.specs.Wires.{CountsIf, counted_with};
ghost use Rattle.srm_guard.specs.Guards.{Judges, new_guard, one_dropped};

use crate::dropped::{Cause, Dropped};
use crate::seal::{Opened, Seal, TRAILER_BYTES};
use srm_names::Member;
use srm_wire::{Wire, WireCounts, WireFault, count_failure};
use std::alloc::{AllocError, Global};
use std::marker::Model;

/// Datagrams that one `receive` drops at most, so that a flood of noise doesn't keep a member from its turns.
const MOST_DROPPED: usize = 64;

/// Bytes of the longest datagram that gets a tag.
const LONGEST: usize = 65_535;

/// A wire around a wire. With a seal it sends each datagram with its number and tag behind it, drops what comes without its right tag, and drops what came before.
/// Without one it drops nothing.
///
/// A `receive` returns `None` after 64 dropped datagrams, though more may wait. With a seal a datagram is 25 bytes longer on the wire below: a `receive` needs so
/// many bytes more in its buffer, or the tag is cut off and the datagram dropped; and a `send` of more than 65,535 bytes fails, and is counted. Everything else is
/// as with the wire below.
#[derive(Drop)]
pub struct Guard<X: Wire + Drop> {
    wire: X,
    seal: Option<Seal>,
    dropped: Dropped,
    own: u64,
    // Where a datagram and its tag are put together.
    room: Vec<u8>,
}

impl<X: Wire + Drop> Model for Guard<X> {
    ghost use Rattle.std.specs.Prelude.{◌≡◌, length};
    ghost use Rattle.srm_guard.specs.Guards.{GuardView};

    ghost Value = { GuardView X };

    ghost view = { λ g. record { wire = g.wire; seal = g.seal; dropped = g.dropped; own = g.own } };

    ghost invariant = { λ g. length g.room.items ≡ 65560 };
}

impl<X: Wire + Drop> Guard<X> {
    /// Makes a guard over a wire. It allocates 64 KiB, and fails only if out of memory.
    pub fn new(wire: X, alloc: Global, seal: Option<Seal>) -> Result<Guard<X>, AllocError>
        ensures { IfOk result (λ g. g ≡ new_guard wire seal) }
    {
        let room = vec![in alloc; 0; LONGEST + TRAILER_BYTES]?;
        Ok(Guard {
            wire,
            seal,
            dropped: Dropped::none(),
            own: 0,
            room,
        })
    }

    /// Returns the wire below.
    pub fn wire(&self) -> &X
        ensures { result.now ≡ self.now.wire }
    {
        &self.wire
    }

    /// Returns how many datagrams were dropped so far, by cause.
    pub fn dropped(&self) -> Dropped
        ensures { result ≡ self.now.dropped }
    {
        self.dropped
    }

    // Returns how many of these bytes the node is to hear, or why they are dropped. Without a seal they are a datagram as they are.
    fn judge(&mut self, bytes: &[u8]) -> Result<usize, Cause>
        ensures { Judges bytes.now result self.old self.new }
    {
        let Some(seal) = &mut self.seal else {
            return Ok(bytes.len());
        };
        match seal.open(bytes) {
            Opened::Foreign => Err(Cause::Untagged),
            Opened::Older => Err(Cause::Older),
            Opened::Again => Err(Cause::Again),
            Opened::Datagram(count) => Ok(count),
        }
    }

    // Counts a datagram that is dropped.
    fn count(&mut self, cause: Cause)
        ensures { self.new ≡ record self.old { dropped = one_dropped cause self.old.dropped } }
    {
        self.dropped.count(cause);
    }
}

impl<X: Wire + Drop> Wire for Guard<X> {
    ghost use Rattle.std.specs.Prelude.{◌≡◌, None};
    ghost use Rattle.srm_wire.specs.Wires.{counted_with};
    ghost use Rattle.srm_guard.specs.Guards.{ReceivesTagged, SendsTagged, counted_behind};

    ghost failure_count = { λ g. counted_with (X.failure_count g.wire) g.own };

    ghost told = { λ g. None };

    ghost counted = { λ g. counted_behind g.own g.dropped (X.counted g.wire) };

    ghost sends = { SendsTagged X.sends };

    ghost receives = { λ g room answer h. ReceivesTagged X.receives room answer g h };

    ghost pauses = { λ g micros h. (h ≡ record g { wire = h.wire }) × X.pauses g.wire micros h.wire };

    fn send(&mut self, to: Member, datagram: &[u8]) -> Result<(), WireFault> {
        let Some(seal) = &mut self.seal else {
            return self.wire.send(to, datagram);
        };
        if datagram.len() > LONGEST {
            return Err(count_failure(&mut self.own));
        }
        if !seal.close(to, datagram, self.room.as_mut_slice()) {
            return Err(count_failure(&mut self.own));
        }
        self.wire
            .send(to, &self.room[..datagram.len() + TRAILER_BYTES])
    }

    fn receive(&mut self, buffer: &mut [u8]) -> Result<Option<usize>, WireFault> {
        for _ in 0..MOST_DROPPED {
            let Some(length) = self.wire.receive(buffer)? else {
                return Ok(None);
            };
            match self.judge(&buffer[..length]) {
                Ok(count) => return Ok(Some(count)),
                Err(cause) => self.count(cause),
            }
        }
        Ok(None)
    }

    fn pause(&mut self, micros: u64) {
        self.wire.pause(micros);
    }

    fn failures(&self) -> u64 {
        self.wire.failures().saturating_add(self.own)
    }

    /// Returns what the wire below has counted, and with it what was dropped here and the sends that failed here.
    fn counts(&self) -> WireCounts {
        let below = self.wire.counts();
        WireCounts {
            failures: below.failures.saturating_add(self.own),
            lost: below.lost,
            dropped: self.dropped.behind(below.dropped),
        }
    }
}
