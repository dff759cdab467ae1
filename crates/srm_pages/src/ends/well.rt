//! The node's end of the stroke queue, which receives.

ghost use Rattle.std.specs.Prelude.{◌≡◌, ◌+◌, [], ◌∷◌, ◌++◌, true, MatchOption};
ghost use Rattle.std.specs.Bool.{OnTrue};
ghost use Rattle.srm_pages.specs.Ends.{is_drained, looked_at};
ghost use Rattle.srm_pages.specs.Ink.{HasSameParts, ReceivedAll, strokes_of};
ghost use Rattle.crossbeam_queue.specs.Passes.{view as knows, IsPassOf, IsSamePass};

use crate::ink::{Beside, Emptied, Ink, InkPass, Reading, StrokeQueue};
use crate::pen::Inked;
use crate::stroke::Stroke;
use std::alloc::Global;
use std::marker::Model;
use std::sync::atomic::Ordering;
use std::sync::{Arc, Wait};

/// The node's end of the stroke queue, which receives.
///
/// Contracts see what was received, how often it found none, how often it had when it last saw all producers done, which queue it is, and
/// how many strokes that holds.
#[derive(Drop)]
pub struct Well {
    pub(crate) ink: Arc<Ink, Global>,
    pub(crate) pass: InkPass,
    pub(crate) nones: u64,
    pub(crate) done_at: Option<u64>,
}

impl Model for Well {
    ghost use Rattle.srm_pages.specs.Ends.{WellView};

    ghost Value = { WellView };

    ghost use Rattle.std.specs.Prelude.{◌≡◌, true};
    ghost use Rattle.std.specs.Arc.{arc_value};
    ghost use Rattle.crossbeam_queue.specs.Passes.{view as knows, ruled_capacity, IsPassOf};

    ghost view = { λ w. record { received = (knows w.pass).received; nones = w.nones; done_at = w.done_at; well = w.pass.table_id; capacity = ruled_capacity (arc_value w.ink).queue } };

    ghost invariant = { λ w. IsPassOf (arc_value w.ink).queue w.pass × ((knows w.pass).reads ≡ true) };
}

impl Well {
    /// Receives the front stroke. Takes no memory.
    ///
    /// Returns `None` only if the queue was empty, which is counted; nothing else has changed then.
    #[tactic(auto, using(crate::proofs::InkSteps::reads))]
    pub fn next<R: Wait>(&mut self, rt: &R) -> Option<Stroke>
        ensures { MatchOption result (self.new ≡ record self.old { nones = self.old.nones + 1 }) (λ x. self.new ≡ record self.old { received = self.old.received ++ x ∷ [] }) }
    {
        let front = self.ink.queue.pop_as::<Reading, R>(rt, &mut self.pass);
        if front.is_none() {
            self.nones = next_count(rt, self.nones);
        }
        front
    }

    /// Compares a finished producer of this queue with what was received. Returns the producer, and whether each stroke that it sent was received, once and in order. It
    /// was unless the queue still holds a stroke, of any producer, which is dropped then: what a producer sent is its part of what was received, and then of what the
    /// queue holds. Join the producers once all of them are done.
    ///
    /// It takes no memory. Like [`next`](Well::next) it waits for a producer that is in the middle of a send.
    #[tactic(auto, using(crate::proofs::InkSteps::joins, crate::proofs::InkSteps::parts))]
    pub fn join_pen<R: Wait>(&mut self, rt: &R, inked: Inked) -> (Inked, bool)
        requires { inked.well ≡ self.old.well }
        ensures pen { result.0 ≡ inked }
        ensures same { OnTrue result.1 (self.new ≡ self.old) }
        ensures all { OnTrue result.1 (strokes_of inked.number self.old.received ≡ inked.sent) }
    {
        let Inked { pass, number } = inked;
        self.ink.queue.absorb::<Beside>(&mut self.pass, pass);
        let is_empty = is_empty(rt, &self.ink.queue, &mut self.pass);
        let pass = self.ink.queue.another::<Beside>(&mut self.pass);
        (Inked { pass, number }, is_empty)
    }

    /// Returns whether all producers have said that they are done. It notes this look for [`is_drained`](Well::is_drained). Costs one load.
    ///
    /// The producers say so by a plain count. No contract rests on it. A producer sends nothing once it is done: nothing follows once
    /// [`next`](Well::next) finds none after a look that found all of them done.
    pub fn is_done(&mut self) -> bool
        ensures { self.new ≡ record self.old { done_at = looked_at result self.old.nones } }
    {
        let done = self.ink.open.load(Ordering::SeqCst) == 0;
        self.done_at = if done { Some(self.nones) } else { None };
        done
    }

    /// Returns whether the last look found all producers done and [`next`](Well::next) has found none since: no stroke follows then.
    pub fn is_drained(&self) -> bool
        ensures { result ≡ is_drained self.now }
    {
        match self.done_at {
            Some(before) => before < self.nones,
            None => false,
        }
    }
}

// The count after one more None. It waits for ever if that is past 2^64 - 1: nobody asks so often.
fn next_count<R: Wait>(rt: &R, count: u64) -> u64
    ensures { result ≡ count + 1 }
{
    match count.checked_add(1) {
        Some(next) => next,
        None => {
            for _ in rt.forever() {}
            unreachable!()
        }
    }
}

// Returns whether the queue is empty: then all was received that the producer sent whose pass is joined to the reader's. Else its front stroke is dropped.
#[tactic(auto, using(crate::proofs::InkSteps::reads))]
fn is_empty<R: Wait>(rt: &R, queue: &StrokeQueue, pass: &mut InkPass) -> bool
    requires pass { IsPassOf queue.now pass.old }
    requires both { ((knows pass.old).reads ≡ true) × ((knows pass.old).writes ≡ true) }
    ensures same { IsSamePass pass.old pass.new }
    ensures keeps { HasSameParts (knows pass.old) (knows pass.new) }
    ensures all { OnTrue result ((knows pass.new ≡ knows pass.old) × ReceivedAll (knows pass.old)) }
{
    queue.pop_as::<Emptied, R>(rt, pass).is_none()
}
