//! The producers' ends of the stroke queue, which send.

ghost use Rattle.std.specs.Prelude.{◌≡◌, [], ◌∷◌, ◌++◌, true, OnOk, IfErr};
ghost use Rattle.crossbeam_queue.specs.Passes.{view as knows, IsPassOf, IsSamePass};
ghost use Rattle.srm_pages.specs.Ink.{PenSends};

use crate::ink::{Ink, InkPass, StrokeQueue, Writing};
use crate::stroke::Stroke;
use std::alloc::Global;
use std::marker::Model;
use std::sync::atomic::Ordering;
use std::sync::{Arc, Wait};

/// A producer: an end of the stroke queue that sends. Contracts see its number, what it sent, and into which queue.
#[derive(Drop)]
pub struct Pen {
    pub(crate) ink: Arc<Ink, Global>,
    pub(crate) pass: InkPass,
    pub(crate) number: u8,
}

impl Model for Pen {
    ghost use Rattle.srm_pages.specs.Ends.{PenView};

    ghost Value = { PenView };

    ghost use Rattle.std.specs.Prelude.{◌≡◌, true};
    ghost use Rattle.std.specs.Arc.{arc_value};
    ghost use Rattle.crossbeam_queue.specs.Passes.{view as knows, IsPassOf};

    ghost view = { λ p. record { number = p.number; sent = (knows p.pass).sent; well = p.pass.table_id } };

    ghost invariant = { λ p. IsPassOf (arc_value p.ink).queue p.pass × ((knows p.pass).writes ≡ true) × ((knows p.pass).pen ≡ p.number) };
}

/// A producer that is done. Contracts see it as the [`Pen`] that it was, with what it sent; that list takes no bytes.
#[derive(Drop)]
pub struct Inked {
    pub(crate) pass: InkPass,
    pub(crate) number: u8,
}

impl Model for Inked {
    ghost use Rattle.srm_pages.specs.Ends.{PenView};

    ghost Value = { PenView };

    ghost use Rattle.std.specs.Prelude.{◌≡◌, [], true};
    ghost use Rattle.crossbeam_queue.specs.Passes.{view as knows};

    ghost view = { λ i. record { number = i.number; sent = (knows i.pass).sent; well = i.pass.table_id } };

    ghost invariant = { λ i. (i.pass.me.1 ≡ []) × ((knows i.pass).writes ≡ true) × ((knows i.pass).pen ≡ i.number) };
}

impl Pen {
    /// Returns its number among the producers, 0 to 3.
    pub fn number(&self) -> u8
        ensures { result ≡ self.now.number }
    {
        self.number
    }

    /// Sends a stroke, whose `pen` is this producer's number, behind those that it sent before. Takes no memory.
    ///
    /// Returns the stroke if 64 strokes wait; nothing has changed then. Strokes that are sent once the [`Well`](crate::ends::Well) is gone are taken until the queue
    /// is full, and lost.
    pub fn stroke<R: Wait>(&mut self, rt: &R, stroke: Stroke) -> Result<(), Stroke>
        requires { stroke.pen ≡ self.old.number }
        ensures ok { OnOk result (self.new ≡ record self.old { sent = self.old.sent ++ stroke ∷ [] }) }
        ensures err { IfErr result (λ back. (back ≡ stroke) × (self.new ≡ self.old)) }
    {
        push(rt, &self.ink.queue, &mut self.pass, stroke)
    }

    /// Ends the producer, and returns it with what it sent. The node leaves only once all four producers are done: one that is dropped without this call never is.
    /// Call it at once for those that nobody uses.
    pub fn done(self) -> Inked
        ensures { result ≡ self }
    {
        let Pen { ink, pass, number } = self;
        ink.open.fetch_sub(1, Ordering::SeqCst);
        Inked { pass, number }
    }
}

// Pushes a stroke with the pass of its producer.
#[tactic(auto, using(crate::proofs::InkSteps::writes))]
fn push<R: Wait>(
    rt: &R,
    queue: &StrokeQueue,
    pass: &mut InkPass,
    stroke: Stroke,
) -> Result<(), Stroke>
    requires pass { IsPassOf queue.now pass.old × ((knows pass.old).writes ≡ true) }
    requires own { stroke.pen ≡ (knows pass.old).pen }
    ensures same { IsSamePass pass.old pass.new }
    ensures ok { OnOk result (PenSends (knows pass.old) stroke (knows pass.new)) }
    ensures err { IfErr result (λ back. (back ≡ stroke) × (knows pass.new ≡ knows pass.old)) }
{
    queue.push_as::<Writing, R>(rt, pass, stroke)
}
