//! The counters of one sender.

ghost use Rattle.std.specs.Prelude.{◌≡◌, List, ℕ, [], ◌∷◌, ◌++◌, IfOk};
ghost use Rattle.srm_window.specs.Freshness.{is_fresh};
ghost use Rattle.srm_window.specs.Windows.{WindowFits, admits, after, known_at, new_window, noted, remembers, slot_of};

use std::alloc::{AllocError, Global};
use std::marker::Model;

/// A counter that is so far below the greatest, or farther, is behind the window.
pub const WINDOW: u64 = 4_096;

/// Counters for which a word has a bit.
const WORD: u64 = 64;

/// Words of a window: more than twice as many as it needs, so that a slot is found by a mask.
const SLOTS: u64 = 128;

/// Remembers which of the last 4,096 counters up to the greatest came. It takes 2 KiB.
#[derive(Drop)]
pub struct Window {
    greatest: u64,
    // For each slot, which 64 counters its word speaks of: the block, a counter divided by 64.
    blocks: Vec<u64>,
    // For each slot, a bit for each counter of its block that came.
    bits: Vec<u64>,
}

impl Model for Window {
    ghost use Rattle.std.specs.Prelude.{◌≡◌, length};
    ghost use Rattle.srm_window.specs.Windows.{WindowView};

    ghost Value = { WindowView };

    ghost view = { λ w. record { greatest = w.greatest; blocks = w.blocks.items; bits = w.bits.items } };

    ghost invariant = { λ w. (length w.blocks.items ≡ 128) × (length w.bits.items ≡ 128) };
}

impl Window {
    /// Makes the window of a sender that was not heard yet. Fails only if out of memory.
    pub fn new(alloc: Global) -> Result<Window, AllocError>
        ensures { IfOk result (λ w. WindowFits w []) }
    {
        let window = Window::empty(alloc)?;
        Ok(window)
    }

    fn empty(alloc: Global) -> Result<Window, AllocError>
        ensures { IfOk result (λ w. w ≡ new_window) }
    {
        Ok(Window {
            greatest: 0,
            blocks: vec![in alloc; 0; SLOTS as usize]?,
            bits: vec![in alloc; 0; SLOTS as usize]?,
        })
    }

    #[tactic(auto, using(crate::proofs::Admitting::admitted, crate::proofs::Admitting::refused, crate::proofs::Admitting::admits_fresh))]
    /// Returns whether a counter is fresh behind all that came, and notes that it came. Costs a handful of instructions, and takes no memory.
    pub fn admit(&mut self, counter: u64) -> bool
        ensures fresh { (came : List ℕ) → WindowFits self.old came → result ≡ is_fresh came counter }
        ensures admits { result ≡ admits self.old counter }
        ensures after { self.new ≡ after counter self.old }
        ensures fits { (came : List ℕ) → WindowFits self.old came → WindowFits self.new (came ++ counter ∷ []) }
    {
        if !self.admits(counter) {
            return false;
        }
        self.note(counter);
        true
    }

    // Returns whether a counter is in the window or above it, and isn't remembered.
    fn admits(&self, counter: u64) -> bool
        ensures { result ≡ admits self.now counter }
    {
        self.greatest.saturating_sub(counter) < WINDOW && !self.remembers(counter)
    }

    // Returns whether the bit of a counter is set.
    fn remembers(&self, counter: u64) -> bool
        ensures { result ≡ remembers self.now counter }
    {
        self.known_at(counter) >> (counter % WORD) & 1 == 1
    }

    // Returns the word of a counter's block, or 0 if its slot has another one's.
    fn known_at(&self, counter: u64) -> u64
        ensures { result ≡ known_at self.now counter }
    {
        let slot = slot_of(counter);
        if self.blocks[slot] == counter / WORD {
            self.bits[slot]
        } else {
            0
        }
    }

    // Sets the bit of a counter.
    fn note(&mut self, counter: u64)
        ensures { self.new ≡ noted counter self.old }
    {
        let known = self.known_at(counter);
        let slot = slot_of(counter);
        self.blocks[slot] = counter / WORD;
        self.bits[slot] = known | 1 << (counter % WORD);
        self.greatest = self.greatest.max(counter);
    }
}

// Returns the slot of a counter's block.
fn slot_of(counter: u64) -> usize
    ensures { result ≡ slot_of counter }
{
    (counter / WORD % SLOTS) as usize
}
