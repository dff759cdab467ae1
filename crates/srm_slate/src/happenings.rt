//! What befell a member last.

ghost use Rattle.std.specs.Prelude.{◌≡◌, ◌-◌, ◌++◌, [], ◌∷◌, drop, length, IfOk, OnOk, OnErr};
ghost use Rattle.srm_slate.specs.declared.happenings.TheConstants.{KEPT};
ghost use Rattle.srm_slate.specs.Happenings.{newest, one_more};

use crate::happening::{Happening, copies};
use std::alloc::{AllocError, Global};
use std::marker::Model;

/// The happenings that are kept, at most.
pub const KEPT: usize = 256;

/// The last 256 happenings, and how many there were. The count stops at 2^64 - 1.
#[derive(Drop)]
pub struct Happenings {
    alloc: Global,
    // The oldest first.
    kept: Vec<Happening>,
    count: u64,
}

impl Model for Happenings {
    ghost use Rattle.std.specs.Prelude.{◌≤◌, length};
    ghost use Rattle.srm_slate.specs.declared.happenings.TheConstants.{KEPT};
    ghost use Rattle.srm_slate.specs.HappeningsView.{HappeningsView};

    ghost Value = { HappeningsView };

    ghost view = { λ h. record { kept = h.kept.items; count = h.count } };

    ghost invariant = { λ h. length h.kept.items ≤ KEPT };
}

impl Happenings {
    /// Makes a list of none. Takes no memory.
    pub fn new(alloc: Global) -> Happenings
        ensures { result ≡ record { kept = []; count = 0 } }
    {
        Happenings {
            alloc,
            kept: Vec::new(alloc),
            count: 0,
        }
    }

    /// Adds what befell the member, and drops the oldest beyond 256. Fails only if out of memory, and then nothing has changed.
    #[tactic(auto, using(crate::proofs::Newest::newest_all, crate::proofs::Newest::newest_but_one))]
    pub fn push(&mut self, happening: Happening) -> Result<(), AllocError>
        ensures ok { OnOk result (self.new ≡ record { kept = newest KEPT (self.old.kept ++ happening ∷ []); count = one_more self.old.count }) }
        ensures err { OnErr result (self.new ≡ self.old) }
    {
        self.kept.push(happening)?;
        if self.kept.len() > KEPT {
            let _ = self.kept.remove(0);
        }
        self.count = self.count.saturating_add(1);
        Ok(())
    }

    /// Returns how many there were.
    pub fn count(&self) -> u64
        ensures { result ≡ self.now.count }
    {
        self.count
    }

    /// Returns copies of those behind the first `seen`, as far as they are kept, in order. Fails only if out of memory.
    pub fn behind(&self, seen: u64) -> Result<Vec<Happening>, AllocError>
        ensures { IfOk result (λ behind. behind.items ≡ newest (self.now.count - seen) self.now.kept) }
    {
        let unseen = self.count.saturating_sub(seen);
        copies(self.alloc, last(self.kept.as_slice(), unseen as usize))
    }
}

// The last so many, or all.
fn last(all: &[Happening], count: usize) -> &[Happening]
    ensures { result.now ≡ newest count all.now }
{
    let (_, last) = all.split_at(all.len().saturating_sub(count));
    last
}
