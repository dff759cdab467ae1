//! The bucket: what is handed in waits until the rate lets it go.

ghost use Rattle.std.specs.Prelude.{◌≡◌, ◌≤◌, ◌<◌, ◌+◌, ℕ, List, [], length, OnOk, OnErr, IsOk, OnSome, IfSome};
ghost use Rattle.srm_bucket.specs.Calls.{BucketCall, Handed, Refilled};
ghost use Rattle.srm_bucket.specs.Classes.{queued};
ghost use Rattle.srm_bucket.specs.Waiting.{HasLength, Gains, SameQueues, TakesNext, queue, count_of};
ghost use Rattle.srm_bucket.specs.Fits.{BucketFits, BucketStays, BucketAdds, Pops, IsNextDeparture};
ghost use Rattle.srm_bucket.specs.Admitting.{Admits, AdmitsFrom};

use crate::class::Class;
use crate::item::Item;
use crate::limits::{
    GREATEST_DEPTH, GREATEST_LENGTH, GREATEST_RATE, LEAST_DEPTH, LEAST_LENGTH, LEAST_RATE,
};
use crate::queues::Queues;
use crate::tokens::{Tokens, cost};
use srm_names::LATEST_MOMENT;
use std::alloc::{AllocError, Global};
use std::marker::Model;

/// A token bucket with three classes of waiting items.
///
/// Moments are microseconds, at most [`LATEST_MOMENT`]; one below the last of [`refill`](Bucket::refill) and [`pop`](Bucket::pop)
/// counts as the last.
#[derive(Debug, Drop)]
pub struct Bucket<T> {
    tokens: Tokens,
    queues: Queues<T>,
}

impl<T> Model for Bucket<T> {
    ghost use Rattle.srm_bucket.specs.Content.{BucketContent, content_of, IsBucketInRange};

    ghost Value = { BucketContent T };

    ghost view = { content_of };

    ghost invariant = { IsBucketInRange };
}

impl<T> Bucket<T> {
    /// Makes a bucket that is full at moment 0, with nothing waiting. `rate` is in bytes a second, 1 to 100,000,000, `depth` in bytes,
    /// 1,051 to 1,000,000. Takes no memory.
    pub fn new(alloc: Global, rate: u32, depth: u32) -> Bucket<T>
        requires least_rate { LEAST_RATE ≤ rate }
        requires greatest_rate { rate ≤ GREATEST_RATE }
        requires least_depth { LEAST_DEPTH ≤ depth }
        requires greatest_depth { depth ≤ GREATEST_DEPTH }
        ensures { let calls : List (BucketCall T) = [] in BucketFits rate depth calls result }
    {
        Bucket {
            tokens: Tokens::full(rate, depth),
            queues: Queues::new(alloc),
        }
    }

    /// Makes room: afterwards so many calls of [`hand`](Bucket::hand) succeed, of whatever classes. What waits stays.
    ///
    /// Fails only if out of memory, and not if there is room already.
    pub fn room(&mut self, items: usize) -> Result<(), AllocError>
        ensures stays { BucketStays self.old self.new }
        ensures queues { SameQueues self.old.waiting self.new.waiting }
        ensures ok { OnOk result (items ≤ self.new.waiting.room) }
        ensures not_refused { items ≤ self.old.waiting.room → IsOk result }
        ensures room { self.old.waiting.room ≤ self.new.waiting.room }
    {
        self.queues.reserve(items)
    }

    /// Adds an item of 1 to 1,051 bytes behind those of its class.
    ///
    /// Fails only if out of memory: what waits stays, and the item is dropped.
    pub fn hand(&mut self, class: Class, item: Item<T>) -> Result<(), AllocError>
    where
        T: Drop,
        requires least { LEAST_LENGTH ≤ item.length }
        requires greatest { item.length ≤ GREATEST_LENGTH }
        ensures ok { OnOk result (BucketAdds (Handed (record { class = class; item = item })) self.old self.new) }
        ensures err { OnErr result (BucketStays self.old self.new) }
        ensures gains { OnOk result (Gains (record { class = class; item = item }) self.old.waiting self.new.waiting) }
        ensures same { OnErr result (SameQueues self.old.waiting self.new.waiting) }
        ensures not_refused { 0 < self.old.waiting.room → IsOk result }
        ensures room { self.old.waiting.room ≤ self.new.waiting.room + 1 }
    {
        self.queues.push(class, item)
    }

    /// Adds the tokens of the time since the last moment, up to the depth.
    pub fn refill(&mut self, now: u64)
        requires { now ≤ LATEST_MOMENT }
        ensures adds { BucketAdds (Refilled now) self.old self.new }
        ensures room { self.old.waiting.room ≤ self.new.waiting.room }
    {
        self.tokens.refill(now);
    }

    /// Refills, and returns the first item of the highest class that waits, if the tokens cover its length, which it costs. Otherwise
    /// returns `None`, even if an item of a lower class would fit.
    pub fn pop(&mut self, now: u64) -> Option<Item<T>>
        requires { now ≤ LATEST_MOMENT }
        ensures pops { Pops now self.old result self.new }
        ensures takes { TakesNext self.old.waiting result self.new.waiting }
        ensures range { IfSome result HasLength }
        ensures fewer { OnSome result (count_of self.new.waiting + 1 ≡ count_of self.old.waiting) }
        ensures room { self.old.waiting.room ≤ self.new.waiting.room }
    {
        self.tokens.refill(now);
        let length = self.queues.next_length()?;
        if !self.tokens.spend(length) {
            return None;
        }
        self.queues.pop()
    }

    /// Returns the first moment, not before the last one, when the next item can go, in microseconds; it may be past 2^48. `None` if nothing waits.
    pub fn wait_until(&self) -> Option<u64>
        ensures { IsNextDeparture self.now result }
    {
        let length = self.queues.next_length()?;
        Some(self.tokens.first_moment(length))
    }

    /// Returns whether one more item of a class and so many bytes would go at once if it were handed in at `now`: nothing waits of its class and higher ones, or the
    /// tokens cover all of these and the item.
    ///
    /// Takes no memory, and looks at no more items than there are tokens for.
    #[tactic(auto, using(crate::proofs::Admitting::admits_clear, crate::proofs::Admitting::admits_paid, crate::proofs::Admitting::admits_short))]
    pub fn admits(&self, class: Class, bytes: u32, now: u64) -> bool
        ensures { Admits class bytes now self.now result }
    {
        if self.queues.is_clear(class) {
            return true;
        }
        match self.queues.rest_behind(class, self.tokens.level_at(now)) {
            Some(rest) => cost(bytes) <= rest,
            None => false,
        }
    }

    /// Returns when [`admits`](Bucket::admits) begins to return true for an item of a class and so many bytes, in microseconds, if nothing is handed in or goes
    /// before. It may be past 2^48. `None` if the item and what waits before it are more than the depth.
    ///
    /// Takes no memory, and looks at no more items than a full bucket has tokens for.
    #[tactic(auto, using(crate::proofs::Admitting::from_clear, crate::proofs::Admitting::from_never, crate::proofs::Admitting::from_too_much, crate::proofs::Admitting::from_first))]
    pub fn admits_from(&self, class: Class, bytes: u32) -> Option<u64>
        ensures { AdmitsFrom class bytes self.now result }
    {
        if self.queues.is_clear(class) {
            return Some(self.tokens.last());
        }
        let full = self.tokens.full_level();
        let rest = self.queues.rest_behind(class, full)?;
        let price = cost(bytes);
        if rest < price {
            return None;
        }
        Some(self.tokens.moment_of(full - (rest - price)))
    }

    /// Returns how many items of a class wait.
    pub fn waiting(&self, class: Class) -> usize
        ensures value { (rate depth : ℕ) (calls : List (BucketCall T)) → BucketFits rate depth calls self.now → result ≡ length (queued calls class) }
        ensures counts { result ≡ length (queue self.now.waiting class) }
    {
        self.queues.len(class)
    }
}
