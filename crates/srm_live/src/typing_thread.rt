//! The thread that draws what is typed, and the producers that nobody uses.

ghost use Rattle.std.specs.Prelude.{◌≡◌, ◌∷◌, true, None, IfSome, IsSome};
ghost use Rattle.std.specs.Bool.{OnTrue};
ghost use Rattle.srm_live.specs.LiveRuns.{HaveTyped};

use crate::desk::Desk;
use crate::lingering::Staying;
use crate::shown_pages::ShownPages;
use crate::typing::draw_typed;
use crate::typist::{Finished, Typist};
use srm_control::PageControl;
use srm_member::Waking;
use srm_pages::{Inked, Pen};
use std::alloc::Global;
use std::collections::VecDeque;
use std::io::{Read, Write};
use std::snapshot::Snapshot;
use std::sync::{Arc, Wait};
use std::thread::{Promise, PromisedHandle, Threads};
use std::{thread, time};

/// A promise: this typist sends a prefix of the strokes that are typed in what this reader has, by answers that come to the control, and says whether it is all of them.
#[derive(Drop)]
pub struct DrawsLines<I: Read>(Snapshot<Typist>, Snapshot<I>);

impl<I: Read> Promise<Finished> for DrawsLines<I> {
    ghost use Rattle.std.specs.Bool.{OnTrue};
    ghost use Rattle.srm_live.specs.Typing.{SameTypist, SentAllOf, SentPrefixOf};
    ghost use Rattle.srm_live.specs.LiveRuns.{typist};

    ghost kept_by = { λ p f. SameTypist p.0.value (typist f.inked f.control) × SentPrefixOf (I.remaining p.1.value) p.0.value (typist f.inked f.control) × OnTrue f.all (SentAllOf (I.remaining p.1.value) p.0.value (typist f.inked f.control)) };
}

/// The thread of the first producer, which draws what is typed, and the others, which are done.
#[derive(Drop)]
pub struct Typing<I: Read> {
    first: PromisedHandle<Finished, DrawsLines<I>>,
    others: Vec<Inked>,
}

/// All producers, which are done, and the control: the one that drew what was typed, and the others.
#[derive(Drop)]
pub struct TypedPens {
    /// Whether all that was typed was drawn.
    pub all: bool,
    /// The one that drew what was typed.
    pub first: Inked,
    /// The others, which drew nothing.
    pub others: Vec<Inked>,
    /// The control that asked for pages.
    pub control: PageControl,
}

/// Starts the thread of the first producer, which draws what is typed; the others are done. Returns `None` if memory ran out or no thread can be started.
pub fn start_typing<R, I, O, E>(
    rt: &R,
    alloc: Global,
    pens: Vec<Pen>,
    pages: ShownPages,
    reader: I,
    staying: Staying,
    desk: &Arc<Desk<O, E>, Global>,
    waker: Waking,
) -> Option<Typing<I>>
where
    R: time::Clock + Threads + Wait + Copy + Send + Drop + 'static,
    I: Read + Send + Drop + 'static,
    O: Write + Send + Drop + 'static,
    E: Write + Send + Drop + 'static,
    ensures reader { IfSome result (λ t. t.first.promise.1.value ≡ reader) }
    ensures pens { IfSome result (λ t. (pens.items ≡ t.first.promise.0.value.pen ∷ t.others.items) × (pages ≡ t.first.promise.0.value.control)) }
{
    let Some((pen, others)) = split_pens(alloc, pens) else {
        return None;
    };
    let Ok(desk) = Arc::try_clone(desk) else {
        return None;
    };
    let typist = Typist::new(pen, pages);
    match spawn_typing(rt, alloc, typist, reader, staying, desk, waker) {
        Some(first) => Some(Typing { first, others }),
        None => None,
    }
}

fn spawn_typing<R, I, O, E>(
    rt: &R,
    alloc: Global,
    typist: Typist,
    reader: I,
    staying: Staying,
    desk: Arc<Desk<O, E>, Global>,
    waker: Waking,
) -> Option<PromisedHandle<Finished, DrawsLines<I>>>
where
    R: time::Clock + Threads + Wait + Copy + Send + Drop + 'static,
    I: Read + Send + Drop + 'static,
    O: Write + Send + Drop + 'static,
    E: Write + Send + Drop + 'static,
    ensures { IfSome result (λ h. (h.promise.0.value ≡ typist) × (h.promise.1.value ≡ reader)) }
{
    let own = *rt;
    let promise = DrawsLines(Snapshot::of(&typist), Snapshot::of(&reader));
    let spawned = thread::spawn_with(rt, promise, move || {
        draw_typed(&own, alloc, reader, typist, &staying, &desk, &waker)
    });
    spawned.ok()
}

// The first of these producers, and the others, which are done. `None` if out of memory.
fn split_pens(alloc: Global, pens: Vec<Pen>) -> Option<(Pen, Vec<Inked>)>
    ensures { IfSome result (λ split. pens.items ≡ split.0 ∷ split.1.items) }
{
    let mut pens = VecDeque::from(pens);
    let first = pens.pop_front()?;
    let others = all_done(alloc, pens)?;
    Some((first, others))
}

// These producers, which are done. `None` if out of memory.
fn all_done(alloc: Global, pens: VecDeque<Pen>) -> Option<Vec<Inked>>
    ensures { IfSome result (λ inked. inked.items ≡ pens.items) }
{
    let mut left = pens;
    let mut inked = Vec::new(alloc);
    while let Some(pen) = left.pop_front() {
        inked.push(pen.done()).ok()?;
    }
    Some(inked)
}

/// Returns whether all that was typed was drawn. It wasn't if the thread wasn't started.
pub fn drew_all(typed: &Option<TypedPens>) -> bool
    ensures { OnTrue result (IfSome typed.now (λ t. t.all ≡ true)) }
{
    match typed {
        Some(typed) => typed.all,
        None => false,
    }
}

/// Waits for the thread, if there is one, and returns all producers and the control.
pub fn join_typing<R: Threads, I: Read>(rt: &R, typing: Option<Typing<I>>) -> Option<TypedPens>
    ensures typed { IfSome result (λ p. IfSome typing (λ t. HaveTyped p.all (I.remaining t.first.promise.1.value) (t.first.promise.0.value.pen ∷ t.others.items) t.first.promise.0.value.control p.first p.others.items p.control)) }
    ensures none { typing ≡ None → result ≡ None }
    ensures some { IsSome typing → IsSome result }
{
    match typing {
        Some(typing) => Some(join_pens_of(rt, typing)),
        None => None,
    }
}

fn join_pens_of<R: Threads, I: Read>(rt: &R, typing: Typing<I>) -> TypedPens
    ensures { HaveTyped result.all (I.remaining typing.first.promise.1.value) (typing.first.promise.0.value.pen ∷ typing.others.items) typing.first.promise.0.value.control result.first result.others.items result.control }
{
    let Typing { first, others } = typing;
    let Finished {
        all,
        inked,
        control,
    } = first.join(rt);
    TypedPens {
        all,
        first: inked,
        others,
        control,
    }
}
