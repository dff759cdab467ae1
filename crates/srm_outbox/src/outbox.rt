//! What is handed in to the bucket, and what goes under the rate.

ghost use Rattle.std.specs.Prelude.{◌≡◌, ◌≤◌, ◌<◌, ◌+◌, ◌++◌, [], ◌∷◌, length, IfOk};
ghost use Rattle.std.specs.List.{AllByRecursion};
ghost use Rattle.srm_names.specs.declared.limits.TheConstants.{LATEST_MOMENT};
ghost use Rattle.srm_bucket.specs.Waiting.{HasLength, count_of};
ghost use Rattle.srm_outbox.specs.Outbox.{HandsIn, LetsGo, NothingWent, Passes};

use crate::due_items::DueItem;
use crate::out::{Out, Outgoing};
use srm_bucket::Bucket;
use srm_codec::Datagram;
use srm_names::Items;
use std::alloc::{AllocError, Global};
use std::collections::VecDeque;
use std::marker::Model;

/// What goes in a tick, in order: with bytes for the caller, and as copies for the entry.
#[derive(Drop)]
pub struct Went {
    outs: Vec<Out>,
    noted: Vec<Datagram>,
}

impl Model for Went {
    ghost use Rattle.std.specs.Prelude.{min, ◌-◌, vec_capacity, vec_len};
    ghost use Rattle.srm_outbox.specs.Outbox.{WentContent};

    ghost Value = { WentContent };

    ghost view = { λ w. record {
      outs = w.outs.items;
      noted = w.noted.items;
      room = min (vec_capacity w.outs - vec_len w.outs) (vec_capacity w.noted - vec_len w.noted);
    } };
}

impl Went {
    /// Makes room for so many datagrams. Nothing went yet. Fails only if out of memory.
    pub fn with_room(alloc: Global, count: usize) -> Result<Went, AllocError>
        ensures empty { IfOk result NothingWent }
        ensures room { IfOk result (λ went. count ≤ went.room) }
    {
        Ok(Went {
            outs: Vec::with_capacity(alloc, count)?,
            noted: Vec::with_capacity(alloc, count)?,
        })
    }

    /// Adds a datagram that goes. The caller has made room. Takes no memory.
    pub fn add(&mut self, outgoing: Outgoing)
        requires { 0 < self.old.room }
        ensures outs { self.new.outs ≡ self.old.outs ++ outgoing.out ∷ [] }
        ensures noted { self.new.noted ≡ self.old.noted ++ outgoing.noted ∷ [] }
        ensures room { self.old.room ≤ self.new.room + 1 }
    {
        let Outgoing { out, noted } = outgoing;
        self.outs.push(out).unwrap();
        self.noted.push(noted).unwrap();
    }

    /// Returns what went: with bytes for the caller, and as copies for the entry. Takes no memory.
    pub fn into_items(self) -> (Items<Out>, Items<Datagram>)
        ensures outs { result.0 ≡ self.outs }
        ensures noted { result.1 ≡ self.noted }
    {
        (Items::new(self.outs), Items::new(self.noted))
    }
}

/// Hands in requests and repairs, in order. The caller has made room in the bucket. Takes no memory.
pub fn hand_in(bucket: &mut Bucket<Outgoing>, mut due_items: VecDeque<DueItem>)
    requires room { length due_items.items ≤ bucket.old.waiting.room }
    requires lengths { AllByRecursion (λ due_item. HasLength due_item.item) due_items.items }
    ensures { HandsIn due_items.items bucket.old bucket.new }
{
    while let Some(due_item) = due_items.pop_front() {
        bucket.hand(due_item.class, due_item.item).unwrap();
    }
}

/// Lets all go that the rate allows at `now`, in microseconds, at most 2^48, and returns it in order.
///
/// `went` is empty, and has room for all that waits and one more. So it takes no memory.
pub fn let_go(bucket: &mut Bucket<Outgoing>, now: u64, mut went: Went) -> Went
    requires now { now ≤ LATEST_MOMENT }
    requires empty { NothingWent went }
    requires room { count_of bucket.old.waiting < went.room }
    ensures { LetsGo now bucket.old bucket.new result }
{
    while let Some(item) = bucket.pop(now) {
        went.add(item.value);
    }
    went
}

/// Lets time pass up to `now`, in microseconds, at most 2^48. Call it only if nothing may go by then: an item that may go would be dropped. Takes no memory.
#[tactic(auto, using(crate::proofs::Handing::pop_passes))]
pub fn let_time_pass(bucket: &mut Bucket<Outgoing>, now: u64)
    requires { now ≤ LATEST_MOMENT }
    ensures { Passes now bucket.old bucket.new }
{
    let _ = bucket.pop(now);
}
