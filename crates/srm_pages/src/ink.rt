//! The rule of the stroke queue: what a producer sent is its part of what was received, and then of what the queue holds.

use crate::stroke::Stroke;
use crossbeam_queue::protocol::{Join, Lesson, Outcome, Protocol, Split};
use crossbeam_queue::{Pass, RuledArrayQueue};
use std::collections::LinkedList;
use std::sync::atomic::AtomicU64;

/// What a pass knows: the reader's what was received and how many producers were made, a producer's its number and what it sent. It is for
/// contracts: no value of it is made.
pub struct InkView {
    /// Whether it is the reader's pass.
    pub reads: bool,
    /// What the reader received.
    pub received: LinkedList<Stroke>,
    /// How many producers were made.
    pub made: u64,
    /// Whether it is a producer's pass.
    pub writes: bool,
    /// The number of that producer.
    pub pen: u64,
    /// What that producer sent.
    pub sent: LinkedList<Stroke>,
}

/// The rule of the stroke queue.
pub struct WellRule;

impl Protocol<Stroke, InkView> for WellRule {
    ghost use Rattle.srm_pages.specs.Ink.{IsWellState, reader};

    ghost holds = { IsWellState };

    ghost first = { reader };
}

/// Splits off the next producer's pass.
pub struct NextPen;

impl Split<InkView> for NextPen {
    ghost use Rattle.srm_pages.specs.Ink.{with_one_pen_more, new_pen};

    ghost left = { with_one_pen_more };

    ghost right = { λ v. new_pen v.made };
}

/// Joins the pass of a finished producer to the reader's, and splits them again.
pub struct Beside;

impl Join<InkView> for Beside {
    ghost use Rattle.srm_pages.specs.Ink.{with_pen, joined_pass};

    ghost both = { with_pen };

    ghost spent = { joined_pass };
}

impl Split<InkView> for Beside {
    ghost use Rattle.srm_pages.specs.Ink.{reader_of, pen_of};

    ghost left = { reader_of };

    ghost right = { pen_of };
}

/// What a push does to its pass: the stroke stands behind those sent before.
pub struct Writing;

impl Outcome<Stroke, InkView> for Writing {
    ghost use Rattle.srm_pages.specs.Ink.{PenSends};

    ghost then = { PenSends };
}

impl Lesson<Stroke, InkView> for Writing {
    ghost fact = { λ v items. Unit {0} };
}

/// What a pop does to its pass: the stroke stands behind those received before.
pub struct Reading;

impl Outcome<Stroke, InkView> for Reading {
    ghost use Rattle.srm_pages.specs.Ink.{ReaderReceives};

    ghost then = { ReaderReceives };
}

impl Lesson<Stroke, InkView> for Reading {
    ghost fact = { λ v items. Unit {0} };
}

/// What a pop does with a producer's pass beside the reader's. Where it finds none, what the producer sent is its part of what was received, and of nothing else.
pub struct Emptied;

impl Outcome<Stroke, InkView> for Emptied {
    ghost use Rattle.srm_pages.specs.Ink.{ReaderReceives};

    ghost then = { ReaderReceives };
}

impl Lesson<Stroke, InkView> for Emptied {
    ghost use Rattle.srm_pages.specs.Ink.{KnowsPart};

    ghost fact = { KnowsPart };
}

pub(crate) type StrokeQueue = RuledArrayQueue<Stroke, InkView, WellRule>;

pub(crate) type InkPass = Pass<Stroke, InkView>;

/// What the ends of the stroke queue share: the strokes under way, and how many producers aren't done.
#[derive(Drop)]
pub struct Ink {
    pub(crate) queue: StrokeQueue,
    pub(crate) open: AtomicU64,
}
