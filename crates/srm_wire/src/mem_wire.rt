//! A wire of a network in memory.

ghost use Rattle.std.specs.Prelude.{◌≡◌, ◌≤◌, length, take, Some, IfOk};
ghost use Rattle.srm_wire.specs.Networks.{copies_at, new_wire_of};

use crate::counts::WireCounts;
use crate::fates::{Fate, arrivals_at};
use crate::inboxes::Network;
use crate::sent::{Sent, copy_of};
use crate::wire::{Wire, WireFault, count_failure};
use srm_names::{Items, Member};
use std::alloc::{AllocError, Global};
use std::marker::Model;
use std::sync::Wait;

/// A member's wire in a network in memory, for tests.
///
/// It tells what its calls returned and took, and keeps all of that, so it grows with each call. Once `send` returns, what comes of the copies
/// so far, by their fates, is in the inboxes. A longer datagram than the buffer is cut.
///
/// A call fails only if out of memory, which is counted; nothing else has changed then.
#[derive(Drop)]
pub struct MemWire<R: Wait + Drop> {
    rt: R,
    alloc: Global,
    me: usize,
    network: Network,
    fates: Vec<Fate>,
    failures: u64,
    came: Vec<Option<Items<u8>>>,
    went: Vec<Sent>,
    // The numbers of the copies in `went` that were put into the inboxes.
    put: Vec<usize>,
}

impl<R: Wait + Drop> Model for MemWire<R> {
    ghost use Rattle.srm_wire.specs.Networks.{MemWireView, PutsByFate};

    ghost Value = { MemWireView };

    ghost view = { λ w. record {
      me = w.me;
      failures = w.failures;
      came = w.came.items;
      went = w.went.items;
      fates = w.fates.items;
      put = w.put.items;
    } };

    ghost invariant = { λ w. PutsByFate (record {
      me = w.me;
      failures = w.failures;
      came = w.came.items;
      went = w.went.items;
      fates = w.fates.items;
      put = w.put.items;
    }) };
}

impl<R: Wait + Drop> Wire for MemWire<R> {
    ghost use Rattle.std.specs.Prelude.{◌≡◌};
    ghost use Rattle.srm_wire.specs.Counts.{only_failed};
    ghost use Rattle.srm_wire.specs.Networks.{SendsByFate, KeepsAnswer};

    ghost failure_count = { λ w. w.failures };

    ghost told = { λ w. Some (record { came = w.came; went = w.went }) };

    ghost counted = { λ w. only_failed w.failures };

    ghost sends = { SendsByFate };

    ghost receives = { λ w room answer v. KeepsAnswer w answer v };

    ghost pauses = { λ w micros v. v ≡ w };

    #[tactic(auto, using(crate::proofs::Fating::puts_more, crate::proofs::Fating::comes_more))]
    fn send(&mut self, to: Member, datagram: &[u8]) -> Result<(), WireFault> {
        let Ok(sent) = copy_of(self.alloc, to, datagram) else {
            return Err(count_failure(&mut self.failures));
        };
        let Ok(mut numbers) = arrivals_at(self.alloc, self.fates.as_slice(), self.went.len()) else {
            return Err(count_failure(&mut self.failures));
        };
        let Ok(copies) = copies_of(self.alloc, self.went.as_slice(), &sent, &numbers) else {
            return Err(count_failure(&mut self.failures));
        };
        if self.went.reserve(1).is_err() || self.put.reserve(numbers.len()).is_err() {
            return Err(count_failure(&mut self.failures));
        }
        if self.network.lock(&self.rt).put(copies).is_err() {
            return Err(count_failure(&mut self.failures));
        }
        let _ = self.went.push(sent);
        let _ = self.put.append(&mut numbers);
        Ok(())
    }

    fn receive(&mut self, buffer: &mut [u8]) -> Result<Option<usize>, WireFault> {
        if self.came.reserve(1).is_err() {
            return Err(count_failure(&mut self.failures));
        }
        let Some(bytes) = self.network.lock(&self.rt).take(self.me) else {
            let _ = self.came.push(None);
            return Ok(None);
        };
        let (count, told) = fill(buffer, bytes);
        let _ = self.came.push(Some(Items::new(told)));
        Ok(Some(count))
    }

    /// Returns at once: a test doesn't wait.
    fn pause(&mut self, _micros: u64) {}

    fn failures(&self) -> u64 {
        self.failures
    }

    fn counts(&self) -> WireCounts {
        WireCounts::of_failures(self.failures)
    }
}

impl<R: Wait + Drop> MemWire<R> {
    // Makes a new wire, whose copies get these fates in order.
    pub(crate) fn new(
        rt: R,
        alloc: Global,
        me: u8,
        network: Network,
        fates: Vec<Fate>,
    ) -> MemWire<R>
        ensures { result ≡ new_wire_of me fates.items }
    {
        MemWire {
            rt,
            alloc,
            me: usize::from(me),
            network,
            fates,
            failures: 0,
            came: Vec::new(alloc),
            went: Vec::new(alloc),
            put: Vec::new(alloc),
        }
    }
}

// Copies what these numbers name, of all that was sent before and then the last.
fn copies_of(
    alloc: Global,
    went: &[Sent],
    last: &Sent,
    numbers: &Vec<usize>,
) -> Result<Vec<Sent>, AllocError>
    ensures { IfOk result (λ copies. copies.items ≡ copies_at went.now last.now numbers.now.items) }
{
    let mut copies = Vec::new(alloc);
    for number in numbers.as_slice() {
        let Sent { to, bytes } = went.get(*number).unwrap_or(last);
        copies.push(copy_of(alloc, *to, bytes.as_slice())?)?;
    }
    Ok(copies)
}

// Fills the buffer from its front, and returns how many bytes these are, and which. A longer datagram is cut.
fn fill(buffer: &mut [u8], bytes: Vec<u8>) -> (usize, Vec<u8>)
    ensures within { result.0 ≤ length buffer.new }
    ensures same { result.1.items ≡ take result.0 buffer.new }
{
    let mut bytes = bytes;
    bytes.truncate(buffer.len());
    let count = bytes.len();
    buffer[..count].copy_from_slice(bytes.as_slice());
    (count, bytes)
}
