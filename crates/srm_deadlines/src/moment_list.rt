//! Moments in a list.

ghost use Rattle.std.specs.Prelude.{◌≡◌, ℕ, ◌≤◌, ◌<◌, ◌+◌, List, [], Option, nat_eq, length, if◌then◌else◌, OnOk, OnErr};
ghost use Rattle.srm_deadlines.specs.MomentLists.{item_at, IsLeastIn, IsFirstIn};

use crate::scanned::lesser;
use srm_names::has_come;
use std::alloc::{AllocError, Global};
use std::marker::Model;

/// Deadlines in a list, each perhaps none: which is the first, and which have expired.
///
/// Only [`push`](MomentList::push) takes memory.
pub(crate) trait MomentList {
    // the moments, however they are kept
    ghost moments: { Self → List (Option ℕ) };

    /// How many there are.
    fn len(&self) -> usize
        ensures { result ≡ length (moments self.now) };

    /// Makes the list longer by one, with no moment there. Fails only if out of memory.
    fn push(&mut self) -> Result<(), AllocError>
        ensures each { (i : ℕ) → item_at (moments self.new) i ≡ item_at (moments self.old) i }
        ensures ok { OnOk result (length (moments self.new) ≡ length (moments self.old) + 1) }
        ensures err { OnErr result (length (moments self.new) ≡ length (moments self.old)) };

    /// The moment at an index.
    fn get(&self, index: usize) -> Option<u64>
        requires { index < length (moments self.now) }
        ensures { result ≡ item_at (moments self.now) index };

    /// Sets the moment at an index, or takes it away.
    fn set(&mut self, index: usize, moment: Option<u64>)
        requires { index < length (moments self.old) }
        ensures each { (i : ℕ) → item_at (moments self.new) i ≡ (if nat_eq i index then moment else item_at (moments self.old) i) }
        ensures length { length (moments self.new) ≡ length (moments self.old) };

    /// The least of all.
    fn least(&self) -> Option<u64>
        ensures { IsLeastIn (moments self.now) 0 (length (moments self.now)) result };

    /// The first index, from one on, whose deadline has expired.
    fn first(&self, from: usize, now: u64) -> Option<usize>
        ensures { IsFirstIn now (moments self.now) from (length (moments self.now)) result };
}

/// A list that is looked through.
#[derive(Drop)]
pub(crate) struct Flat {
    moments: Vec<Option<u64>>,
}

impl Model for Flat {
    ghost use Rattle.std.specs.Prelude.{ℕ, List, Option};

    ghost Value = { List (Option ℕ) };

    ghost view = { λ f. f.moments.items };
}

impl Flat {
    /// Nothing stands there.
    pub(crate) fn new(alloc: Global) -> Flat
        ensures { result ≡ [] }
    {
        Flat {
            moments: Vec::new(alloc),
        }
    }
}

impl MomentList for Flat {
    ghost moments = { λ f. f };

    fn len(&self) -> usize {
        self.moments.len()
    }

    fn push(&mut self) -> Result<(), AllocError> {
        self.moments.push(None)?;
        Ok(())
    }

    fn get(&self, index: usize) -> Option<u64> {
        self.moments[index]
    }

    fn set(&mut self, index: usize, moment: Option<u64>) {
        self.moments[index] = moment;
    }

    fn least(&self) -> Option<u64> {
        least_in(&self.moments, 0, self.moments.len())
    }

    fn first(&self, from: usize, now: u64) -> Option<usize> {
        if from >= self.moments.len() {
            return None;
        }
        first_in(&self.moments, from, self.moments.len(), now)
    }
}

/// The least of the moments from one index up to another.
pub(crate) fn least_in(moments: &[Option<u64>], low: usize, high: usize) -> Option<u64>
    requires order { low ≤ high }
    requires within { high ≤ length moments.now }
    ensures { IsLeastIn moments.now low high result }
{
    let mut least = None;
    for i in low..high {
        least = lesser(least, moments[i]);
    }
    least
}

/// The first index whose deadline has expired, from one index up to another.
pub(crate) fn first_in(moments: &[Option<u64>], low: usize, high: usize, now: u64) -> Option<usize>
    requires order { low ≤ high }
    requires within { high ≤ length moments.now }
    ensures { IsFirstIn now moments.now low high result }
{
    for i in low..high {
        if has_come(moments[i], now) {
            return Some(i);
        }
    }
    None
}
