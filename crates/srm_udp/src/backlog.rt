//! Datagrams that came and wait to be received.

ghost use Rattle.std.specs.Prelude.{◌≡◌, ◌≤◌, ◌+◌, ◌-◌, ◌∷◌, ◌++◌, [], length, drop, vec_len, vec_capacity, IfOk, IfSome, IsTrue, MatchBool};
ghost use Rattle.srm_udp.specs.Waiting.{IsFull, Takes};

use std::alloc::{AllocError, Global};
use std::collections::VecDeque;
use std::marker::Model;

/// Bytes for what waits, made once.
const BYTES: usize = 4_194_304;

/// Bytes that were taken are given back once there are so many, or nothing waits. So a byte is moved 16 times at most.
const SLACK: usize = 262_144;

/// So many datagrams wait at most.
const DATAGRAMS: usize = 32_768;

/// Datagrams that came and wait to be received, oldest first. All its memory is allocated by `new`.
#[derive(Drop)]
pub(crate) struct Backlog {
    // The datagrams, one behind the other, and before them those that were taken.
    bytes: Vec<u8>,
    // How long each is that waits.
    lengths: VecDeque<usize>,
    // How many bytes were taken.
    taken: usize,
}

impl Model for Backlog {
    ghost use Rattle.std.specs.Prelude.{List, ℕ, drop, vec_capacity};
    ghost use Rattle.std.specs.VecDeque.{deque_capacity};
    ghost use Rattle.srm_udp.specs.Waiting.{cut, KeepsRoom};

    ghost Value = { List (List ℕ) };

    ghost view = { λ b. cut b.lengths.items (drop b.taken b.bytes.items) };

    ghost invariant = { λ b. KeepsRoom b.bytes.items b.lengths.items b.taken (vec_capacity b.bytes) (deque_capacity b.lengths) };
}

impl Backlog {
    /// Makes an empty queue with room for 4 MiB and 32,768 datagrams. Fails only if out of memory.
    pub(crate) fn new(alloc: Global) -> Result<Backlog, AllocError>
        ensures { IfOk result (λ b. b ≡ []) }
    {
        Ok(Backlog {
            bytes: Vec::with_capacity(alloc, BYTES)?,
            lengths: VecDeque::with_capacity(alloc, DATAGRAMS)?,
            taken: 0,
        })
    }

    /// Whether nothing waits.
    pub(crate) fn is_empty(&self) -> bool
        ensures { IsTrue result → self.now ≡ [] }
    {
        self.lengths.is_empty()
    }

    #[tactic(auto, using(crate::proofs::Cutting::pushed, crate::proofs::Cutting::pushed_all, crate::proofs::Cutting::kept_room, crate::proofs::Cutting::full_by_count, crate::proofs::Cutting::full_by_bytes))]
    /// Appends a datagram, and returns whether there was room: there is below 32,768 datagrams and 3.75 MiB.
    pub(crate) fn push(&mut self, datagram: &[u8]) -> bool
        ensures { MatchBool result (self.new ≡ self.old ++ datagram.now ∷ []) ((self.new ≡ self.old) × IsFull self.old datagram.now) }
    {
        if self.lengths.len() >= DATAGRAMS {
            return false;
        }
        if !make_room(&mut self.bytes, &mut self.taken, datagram.len()) {
            return false;
        }
        let Ok(()) = self.bytes.extend_from_slice(datagram) else {
            return false;
        };
        self.lengths.push_back_reserved(datagram.len());
        true
    }

    #[tactic(auto, using(crate::proofs::Cutting::popped))]
    /// Moves the oldest datagram into a buffer, cut to it, and returns how many bytes that are, or None if the queue is empty.
    pub(crate) fn pop(&mut self, buffer: &mut [u8]) -> Option<usize>
        ensures takes { Takes self.old buffer.new result self.new }
        ensures within { IfSome result (λ count. count ≤ length buffer.new) }
    {
        let length = self.lengths.pop_front()?;
        let count = length.min(buffer.len());
        buffer[..count].copy_from_slice(&self.bytes[self.taken..self.taken + count]);
        self.taken += length;
        Some(count)
    }
}

// Gives back the bytes that were taken, if nothing else is there, or these are many and so many more have no place behind the rest. Returns whether they have one now.
fn make_room(bytes: &mut Vec<u8>, taken: &mut usize, more: usize) -> bool
    requires { taken.old ≤ vec_len bytes.old }
    ensures same { drop taken.new bytes.new.items ≡ drop taken.old bytes.old.items }
    ensures bound { taken.new ≤ vec_len bytes.new }
    ensures capacity { vec_capacity bytes.old ≤ vec_capacity bytes.new }
    ensures room { MatchBool result (vec_len bytes.new + more ≤ 4194304) (3932160 ≤ vec_len bytes.old - taken.old + more) }
{
    // An empty queue begins with its first byte again, so that a member that keeps up touches little memory.
    if *taken == bytes.len() {
        bytes.clear();
        *taken = 0;
        return more <= BYTES;
    }
    if more <= BYTES && bytes.len() <= BYTES - more {
        return true;
    }
    if *taken < SLACK {
        return false;
    }
    bytes.rotate_left(*taken);
    bytes.truncate(bytes.len() - *taken);
    *taken = 0;
    more <= BYTES && bytes.len() <= BYTES - more
}
