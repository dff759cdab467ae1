//! The producers, each in a thread.

ghost use Rattle.std.specs.Prelude.{◌≡◌, ◌+◌, ◌<◌, ◌≤◌, true, [], ◌∷◌, ◌++◌, map, length, vec_len, vec_capacity, IfOk, IfSome};
ghost use Rattle.std.specs.Bool.{OnTrue, OnFalse};
ghost use Rattle.srm_member.specs.Strokes.{stroke_on, PenSent, PensDrew, pens_with, pen_and_bodies};

use bytes::Bytes;
use srm_names::Page;
use srm_pages::{Inked, Pen, Stroke};
use srm_udp::WireWaker;
use std::alloc::{AllocError, Global};
use std::collections::VecDeque;
use std::marker::Model;
use std::snapshot::Snapshot;
use std::sync::atomic::{AtomicBool, Ordering};
use std::sync::{Arc, Wait};
use std::thread::{Promise, PromisedHandle, Threads};
use std::time::Duration;
use std::{thread, time};

/// How long a producer waits before it tries a full queue again, in microseconds: at first so briefly that a node at full speed isn't kept waiting, then twice as
/// long each time, so that a producer that the rate keeps back takes no processor.
const FIRST_WAIT: u64 = 50;

const LONGEST_WAIT: u64 = 6_400;

/// A producer that is done, and whether it sent all of its bodies.
#[derive(Drop)]
pub struct Drew {
    inked: Inked,
    all: bool,
}

/// A producer's promise: it sends a prefix of these bodies, and says whether it is all of them.
#[derive(Drop)]
pub struct Draws(Snapshot<Pen>, Snapshot<Vec<Bytes>>);

impl Promise<Drew> for Draws {
    ghost use Rattle.srm_member.specs.Strokes.{PenSent};

    ghost kept_by = { λ p drew. PenSent drew.all p.1.value.items p.0.value drew.inked };
}

/// A producer in its thread.
#[derive(Drop)]
pub struct PenThread {
    handle: PromisedHandle<Drew, Draws>,
}

/// Producers that are done, and whether each sent all of its bodies.
#[derive(Drop)]
pub struct DonePens {
    /// The producers.
    pub inked: Vec<Inked>,
    /// Whether each sent all of its bodies. One does unless the node ended before.
    pub all: bool,
}

/// The threads of the producers, and the flag that tells them that the node has ended. Contracts see the producers, each with the bodies that it is to draw.
#[derive(Drop)]
pub struct PenThreads {
    threads: VecDeque<PenThread>,
    // Room for the producer of each thread, once it is done.
    inked: Vec<Inked>,
    ended: Arc<AtomicBool, Global>,
    waker: Waking,
}

impl Model for PenThreads {
    ghost use Rattle.std.specs.Prelude.{◌≡◌, ◌+◌, ◌≤◌, List, [], map, length, vec_len, vec_capacity};
    ghost use Rattle.srm_pages.specs.Ends.{PenView};
    ghost use Rattle.srm_member.specs.Strokes.{PenAndBodies, pen_and_bodies};

    ghost Value = { List PenAndBodies };

    ghost view = { λ t. map pen_and_bodies t.threads.items };

    ghost invariant = { λ t. (t.inked.items ≡ []) × (vec_len t.inked + length t.threads.items ≤ vec_capacity t.inked) };
}

/// The handle that ends a pause of the node's wire; `None` if the wire has none.
pub type Waking = Option<Arc<WireWaker, Global>>;

/// Returns the handle for one more thread; `None` if there is none, or if out of memory: then a pause of the node lasts to its end, 10 ms at most.
pub fn share_waker(waker: &Waking) -> Waking {
    match waker {
        Some(waker) => Arc::try_clone(waker).ok(),
        None => None,
    }
}

impl PenThreads {
    /// Makes the threads; none is started. Fails only if out of memory.
    pub fn new(alloc: Global, waker: Waking) -> Result<PenThreads, AllocError>
        ensures { IfOk result (λ threads. threads ≡ []) }
    {
        Ok(PenThreads {
            threads: VecDeque::new(alloc),
            inked: Vec::new(alloc),
            ended: Arc::new(alloc, AtomicBool::new(false))?,
            waker,
        })
    }

    /// Starts a thread for each producer, which draws the bodies at its place, until one can't be started. Returns whether all were.
    pub fn start<R: time::Clock + Threads + Wait + Copy + Send + 'static>(
        &mut self,
        rt: &R,
        pens: Vec<Pen>,
        dealt: Vec<Vec<Bytes>>,
    ) -> bool
        ensures { OnTrue result (self.new ≡ self.old ++ pens_with pens.items (map (λ bodies. bodies.items) dealt.items)) }
    {
        let mut pens = VecDeque::from(pens);
        let mut dealt = VecDeque::from(dealt);
        for _ in 0..pens.len() {
            let Some(pen) = pens.pop_front() else {
                return false;
            };
            let Some(bodies) = dealt.pop_front() else {
                return false;
            };
            if !self.start_one(rt, pen, bodies) {
                return false;
            }
        }
        true
    }

    /// Starts the thread of a producer, once there is room for it when it is done. Returns whether it did.
    fn start_one<R: time::Clock + Threads + Wait + Copy + Send + 'static>(
        &mut self,
        rt: &R,
        pen: Pen,
        bodies: Vec<Bytes>,
    ) -> bool
        ensures started { OnTrue result (self.new ≡ self.old ++ (pen, bodies.items) ∷ []) }
        ensures same { OnFalse result (self.new ≡ self.old) }
    {
        if self.threads.reserve(1).is_err() {
            return false;
        }
        if self
            .inked
            .reserve(self.threads.len().saturating_add(1))
            .is_err()
        {
            return false;
        }
        let Ok(ended) = Arc::try_clone(&self.ended) else {
            return false;
        };
        let waker = share_waker(&self.waker);
        match spawn_pen(rt, pen, bodies, ended, waker) {
            Some(thread) => self.threads.push_back(thread).is_ok(),
            None => false,
        }
    }

    /// Tells the threads that the node has ended, waits for them, and returns the producers, in their order.
    pub fn end<R: Threads>(self, rt: &R) -> DonePens
        ensures { PensDrew result.all self result.inked.items }
    {
        let PenThreads {
            threads,
            inked,
            ended,
            ..
        } = self;
        ended.store(true, Ordering::SeqCst);
        join_all(rt, threads, inked)
    }
}

/// Starts the thread of a producer. Returns `None` if none can be started.
fn spawn_pen<R: time::Clock + Threads + Wait + Copy + Send + 'static>(
    rt: &R,
    pen: Pen,
    bodies: Vec<Bytes>,
    ended: Arc<AtomicBool, Global>,
    waker: Waking,
) -> Option<PenThread>
    ensures { IfSome result (λ t. pen_and_bodies t ≡ (pen, bodies.items)) }
{
    let own = *rt;
    let promise = Draws(Snapshot::of(&pen), Snapshot::of(&bodies));
    let spawned = thread::spawn_with(rt, promise, move || {
        draw_all(&own, pen, bodies, &ended, &waker)
    });
    match spawned {
        Ok(handle) => Some(PenThread { handle }),
        Err(_) => None,
    }
}

/// Waits for the threads, and puts their producers into this list, which has room for them.
fn join_all<R: Threads>(rt: &R, threads: VecDeque<PenThread>, inked: Vec<Inked>) -> DonePens
    requires none { inked.items ≡ [] }
    requires room { vec_len inked + length threads.items ≤ vec_capacity inked }
    ensures { PensDrew result.all (map pen_and_bodies threads.items) result.inked.items }
{
    let mut left = threads;
    let mut inked = inked;
    let mut all = true;
    for _ in 0..left.len() {
        let Some(thread) = left.pop_front() else {
            unreachable!()
        };
        let one = join_one(rt, thread);
        all = are_both(all, one.all);
        put(&mut inked, one.inked);
    }
    DonePens { inked, all }
}

fn are_both(one: bool, other: bool) -> bool
    ensures { result ≡ true → (one ≡ true) × (other ≡ true) }
{
    one && other
}

fn join_one<R: Threads>(rt: &R, thread: PenThread) -> Drew
    ensures { PenSent result.all (pen_and_bodies thread).1 (pen_and_bodies thread).0 result.inked }
{
    let PenThread { handle } = thread;
    handle.join(rt)
}

/// Puts one where there is a place for it.
fn put(inked: &mut Vec<Inked>, one: Inked)
    requires { vec_len inked.old < vec_capacity inked.old }
    ensures items { inked.new.items ≡ inked.old.items ++ one ∷ [] }
    ensures room { (vec_len inked.new ≡ vec_len inked.old + 1) × (vec_capacity inked.old ≤ vec_capacity inked.new) }
{
    let _ = inked.push(one);
}

/// Draws these bodies on the first page, in order, until the node has ended. Returns the producer, which is done, and whether it sent all of them.
#[tactic(auto, using(crate::proofs::Strokes::drew_none, crate::proofs::Strokes::drew_more, crate::proofs::Strokes::drew_some, crate::proofs::Strokes::drew_all))]
fn draw_all<R: time::Clock + Wait>(
    rt: &R,
    pen: Pen,
    bodies: Vec<Bytes>,
    ended: &AtomicBool,
    waker: &Waking,
) -> Drew
    ensures { PenSent result.all bodies.items pen result.inked }
{
    let mut pen = pen;
    for body in bodies {
        if !send_stroke(rt, &mut pen, Page::first(), body, ended, waker) {
            return end_pen(pen, false, waker);
        }
    }
    end_pen(pen, true, waker)
}

// Ends a producer, and the node's pause: one that leaves once its producers are done needn't wait for it.
fn end_pen(pen: Pen, all: bool, waker: &Waking) -> Drew
    ensures inked { result.inked ≡ pen }
    ensures all { result.all ≡ all }
{
    let inked = pen.done();
    wake(waker);
    Drew { inked, all }
}

/// Sends a stroke with this body on a page, and returns whether it was sent.
///
/// While the queue is full it tries again, after 50 microseconds at first and 6,400 at most, until `ended` is set; then nothing was sent. So it waits as long as the
/// rate keeps strokes back, and for ever if the node ended and nobody sets `ended`. It ends a pause of the node. The node drops a body of more than 1,024 bytes.
pub fn send_stroke<R: time::Clock + Wait>(
    rt: &R,
    pen: &mut Pen,
    page: Page,
    body: Bytes,
    ended: &AtomicBool,
    waker: &Waking,
) -> bool
    ensures sent { OnTrue result (pen.new ≡ record pen.old { sent = pen.old.sent ++ stroke_on page pen.old.number body ∷ [] }) }
    ensures ended { OnFalse result (pen.new ≡ pen.old) }
{
    let mut stroke = Stroke {
        pen: pen.number(),
        page,
        body,
    };
    let mut wait = FIRST_WAIT;
    for _ in rt.forever() {
        let Err(back) = pen.stroke(rt, stroke) else {
            wake(waker);
            return true;
        };
        if ended.load(Ordering::SeqCst) {
            return false;
        }
        stroke = back;
        thread::sleep(rt, Duration::from_micros(wait));
        wait = wait.saturating_mul(2).min(LONGEST_WAIT);
    }
    unreachable!()
}

/// Ends the node's pause, if its wire has a handle for it. Takes no memory.
pub fn wake(waker: &Waking) {
    if let Some(waker) = waker {
        waker.wake();
    }
}
