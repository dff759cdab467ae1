//! The items that wait, by class.

ghost use Rattle.std.specs.Prelude.{◌≡◌, ◌≤◌, ◌<◌, ◌+◌, ◌==◌, [], OnOk, OnErr, IsOk, option_map, length};
ghost use Rattle.srm_bucket.specs.Admitting.{ahead_of};
ghost use Rattle.srm_bucket.specs.Paying.{rest_after};
ghost use Rattle.srm_bucket.specs.Waiting.{Gains, Loses, SameQueues, queue, next_in};

use crate::class::Class;
use crate::item::Item;
use crate::tokens::cost;
use std::alloc::{AllocError, Global};
use std::collections::VecDeque;
use std::marker::Model;

/// A queue for each class.
#[derive(Debug, Drop)]
pub(crate) struct Queues<T> {
    shown: VecDeque<Item<T>>,
    new_data: VecDeque<Item<T>>,
    other: VecDeque<Item<T>>,
}

impl<T> Model for Queues<T> {
    ghost use Rattle.std.specs.Prelude.{◌-◌, min};
    ghost use Rattle.std.specs.VecDeque.{deque_len, deque_capacity};
    ghost use Rattle.srm_bucket.specs.Waiting.{Waiting};

    ghost Value = { Waiting T };

    ghost view = { λ q. record {
      shown = q.shown.items;
      new_data = q.new_data.items;
      other = q.other.items;
      room = min (deque_capacity q.shown - deque_len q.shown)
          (min (deque_capacity q.new_data - deque_len q.new_data) (deque_capacity q.other - deque_len q.other));
    } };
}

impl<T> Queues<T> {
    /// Nothing waits.
    pub(crate) fn new(alloc: Global) -> Queues<T>
        ensures { (class : Class) → queue result class ≡ [] }
    {
        Queues {
            shown: VecDeque::new(alloc),
            new_data: VecDeque::new(alloc),
            other: VecDeque::new(alloc),
        }
    }

    /// Makes room for more items, of whatever class.
    pub(crate) fn reserve(&mut self, items: usize) -> Result<(), AllocError>
        ensures queues { SameQueues self.old self.new }
        ensures ok { OnOk result (items ≤ self.new.room) }
        ensures not_refused { items ≤ self.old.room → IsOk result }
        ensures room { self.old.room ≤ self.new.room }
    {
        self.shown.reserve(items)?;
        self.new_data.reserve(items)?;
        self.other.reserve(items)?;
        Ok(())
    }

    /// Adds an item behind those of its class.
    pub(crate) fn push(&mut self, class: Class, item: Item<T>) -> Result<(), AllocError>
    where
        T: Drop,
        ensures ok { OnOk result (Gains (record { class = class; item = item }) self.old self.new) }
        ensures err { OnErr result (SameQueues self.old self.new) }
        ensures not_refused { 0 < self.old.room → IsOk result }
        ensures room { self.old.room ≤ self.new.room + 1 }
    {
        match class {
            Class::Shown => self.shown.push_back(item)?,
            Class::New => self.new_data.push_back(item)?,
            Class::Other => self.other.push_back(item)?,
        }
        Ok(())
    }

    /// How many items of a class wait.
    pub(crate) fn len(&self, class: Class) -> usize
        ensures { result ≡ length (queue self.now class) }
    {
        match class {
            Class::Shown => self.shown.len(),
            Class::New => self.new_data.len(),
            Class::Other => self.other.len(),
        }
    }

    /// The length of the item that goes next.
    pub(crate) fn next_length(&self) -> Option<u32>
        ensures { result ≡ option_map (λ c. c.item.length) (next_in self.now) }
    {
        if let Some(item) = self.shown.front() {
            return Some(item.length);
        }
        if let Some(item) = self.new_data.front() {
            return Some(item.length);
        }
        Some(self.other.front()?.length)
    }

    /// Whether nothing waits of a class and of higher ones.
    pub(crate) fn is_clear(&self, class: Class) -> bool
        ensures { result ≡ (length (ahead_of class (queue self.now)) == 0) }
    {
        let higher = match class {
            Class::Shown => true,
            Class::New => self.shown.is_empty(),
            Class::Other => self.shown.is_empty() && self.new_data.is_empty(),
        };
        higher && self.len(class) == 0
    }

    /// What is left of so many tokens once all that waits of a class and of higher ones is paid for; `None` where they don't
    /// cover it.
    #[tactic(auto, using(crate::proofs::Paying::rest_both, crate::proofs::Paying::rest_neither, crate::proofs::Paying::rest_third, crate::proofs::Paying::rest_not_third))]
    pub(crate) fn rest_behind(&self, class: Class, tokens: u64) -> Option<u64>
        ensures { result ≡ rest_after tokens (ahead_of class (queue self.now)) }
    {
        match class {
            Class::Shown => rest_after(&self.shown, tokens),
            Class::New => rest_after(&self.new_data, rest_after(&self.shown, tokens)?),
            Class::Other => {
                let rest = rest_after(&self.shown, tokens)?;
                rest_after(&self.other, rest_after(&self.new_data, rest)?)
            }
        }
    }

    /// Takes the item that goes next: the first of the highest class.
    pub(crate) fn pop(&mut self) -> Option<Item<T>>
        ensures value { result ≡ option_map (λ c. c.item) (next_in self.old) }
        ensures queues { Loses (next_in self.old) self.old self.new }
        ensures room { self.old.room ≤ self.new.room }
    {
        if let Some(item) = self.shown.pop_front() {
            return Some(item);
        }
        if let Some(item) = self.new_data.pop_front() {
            return Some(item);
        }
        self.other.pop_front()
    }
}

/// What is left of so many tokens once these items are paid for; `None` where they don't cover them.
fn rest_after<T>(items: &VecDeque<Item<T>>, tokens: u64) -> Option<u64>
    ensures { result ≡ rest_after tokens items.now.items }
{
    let mut rest = tokens;
    for item in items.iter() {
        rest = rest.checked_sub(cost(item.length))?;
    }
    Some(rest)
}
