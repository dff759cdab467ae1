//! What goes in a tick.

ghost use Rattle.std.specs.Prelude.{◌≡◌, ◌≤◌, ◌<◌, ◌+◌, ◌++◌, length, option_map, option_to_list, IfOk, IfSome, OnOk};
ghost use Rattle.std.specs.List.{AllByRecursion};
ghost use Rattle.srm_names.specs.declared.limits.TheConstants.{LATEST_MOMENT};
ghost use Rattle.srm_bucket.specs.Fits.{BucketStays};
ghost use Rattle.srm_bucket.specs.Waiting.{HasLength, SameQueues, count_of};
ghost use Rattle.srm_outbox.specs.Outs.{IsOwn, AreOwn};
ghost use Rattle.srm_outbox.specs.Outbox.{NothingWent};
ghost use Rattle.srm_agent.specs.Ticking.{SendsAll, data_waits, session_message_at_end, state_after, due_then};

use super::Agent;
use super::due::DueSessionMessage;
use srm_bucket::{Bucket, Class};
use srm_entries::AgentState;
use srm_outbox::{DueItem, Outgoing, Went, hand_in, let_go};
use srm_timers::Words;
use std::alloc::AllocError;
use std::collections::VecDeque;

impl<W: Words + Drop> Agent<W> {
    /// Makes room for so many requests and repairs, for all that may go after them, and for the message that ends the tick. What waits
    /// stays. Fails only if out of memory.
    pub(super) fn room_to_go(&mut self, due_items: usize) -> Result<Went, AllocError>
        ensures rest { self.new ≡ record self.old { bucket = self.new.bucket } }
        ensures bucket { BucketStays self.old.bucket self.new.bucket }
        ensures queues { SameQueues self.old.bucket.waiting self.new.bucket.waiting }
        ensures empty { IfOk result NothingWent }
        ensures room { IfOk result (λ went. count_of self.old.bucket.waiting + due_items < went.room) }
        ensures waiting { OnOk result (due_items ≤ self.new.bucket.waiting.room) }
    {
        let count = most_to_go(&self.bucket, due_items).ok_or(AllocError)?;
        let went = Went::with_room(self.alloc, count)?;
        self.bucket.room(due_items)?;
        Ok(went)
    }

    /// Adds requests and repairs to the bucket, and lets go what may go at a moment. Takes no memory.
    pub(super) fn send(&mut self, due_items: VecDeque<DueItem>, went: Went, moment: u64) -> Went
        requires moment { moment ≤ LATEST_MOMENT }
        requires empty { NothingWent went }
        requires room { count_of self.old.bucket.waiting + length due_items.items < went.room }
        requires waiting { length due_items.items ≤ self.old.bucket.waiting.room }
        requires lengths { AllByRecursion (λ due_item. HasLength due_item.item) due_items.items }
        requires own { AllByRecursion (λ due_item. IsOwn self.old.config.me self.old.config.session due_item.item.value) due_items.items }
        ensures rest { self.new ≡ record self.old { bucket = self.new.bucket } }
        ensures waited { AreOwn self.old.config.me self.old.config.session self.old.bucket.waiting }
        ensures sends { SendsAll moment due_items.items self.old.bucket self.new.bucket result }
    {
        hand_in(&mut self.bucket, due_items);
        let_go(&mut self.bucket, moment, went)
    }

    /// Ends a tick: a leaving member is gone once no new data waits. Returns the message that goes last, which the rate doesn't limit.
    pub(super) fn end(
        &mut self,
        farewell: Option<DueSessionMessage>,
        message: Option<DueSessionMessage>,
        moment: u64,
    ) -> Option<DueSessionMessage>
        requires { moment ≤ LATEST_MOMENT }
        ensures value { result ≡ session_message_at_end (data_waits self.old.bucket) farewell message }
        ensures new { self.new ≡ record self.old { state = state_after (data_waits self.old.bucket) farewell self.old.state; last = moment; due = due_then result self.old.due } }
    {
        let waits = self.bucket.waiting(Class::New) > 0;
        if farewell.is_some() && !waits {
            self.state = AgentState::Gone;
        }
        let last = session_message_at_end(waits, farewell, message);
        if let Some(message) = &last {
            self.due = message.next;
        }
        self.last = moment;
        last
    }
}

/// What went, with the message that ends the tick. Takes no memory.
pub(super) fn with_last(mut went: Went, last: Option<DueSessionMessage>) -> Went
    requires { 0 < went.room }
    ensures outs { result.outs ≡ went.outs ++ option_to_list (option_map (λ r. r.outgoing.out) last) }
    ensures noted { result.noted ≡ went.noted ++ option_to_list (option_map (λ r. r.outgoing.noted) last) }
{
    if let Some(message) = last {
        went.add(message.outgoing);
    }
    went
}

/// The message that ends a tick: no farewell goes while new data waits.
fn session_message_at_end(
    waits: bool,
    farewell: Option<DueSessionMessage>,
    message: Option<DueSessionMessage>,
) -> Option<DueSessionMessage>
    ensures { result ≡ session_message_at_end waits farewell message }
{
    if waits { message } else { farewell.or(message) }
}

/// How many datagrams go in a tick at most, with so many requests and repairs and the message that ends it; `None` if the count would
/// overflow.
fn most_to_go(bucket: &Bucket<Outgoing>, due_items: usize) -> Option<usize>
    ensures { IfSome result (λ count. count ≡ count_of bucket.now.waiting + due_items + 1) }
{
    let shown = bucket.waiting(Class::Shown);
    let fresh = bucket.waiting(Class::New);
    let other = bucket.waiting(Class::Other);
    shown
        .checked_add(fresh)?
        .checked_add(other)?
        .checked_add(due_items)?
        .checked_add(1)
}
