//! What one tab drew.

ghost use Rattle.std.specs.Prelude.{◌≡◌, ◌+◌, ◌<◌, ◌≤◌, IfOk, OnErr};
ghost use Rattle.srm_slate.specs.Hands.{after_drawn, after_passed, idle, place_of, IsOnce};

use crate::easel::{Drawn, Easel};
use crate::noted::Noted;
use bytes::Bytes;
use srm_names::Page;
use std::alloc::AllocError;
use std::marker::Model;
use std::snapshot::Snapshot;
use std::sync::Wait;

/// Where the number of a stroke stands.
#[derive(Clone, Copy, Debug, PartialEq, Eq)]
pub enum Place {
    /// It was taken, or told as not taken.
    Before,
    /// It is the next.
    Next,
    /// One before it is missing.
    Ahead,
}

/// A stroke that the member took, for contracts alone.
#[derive(Drop)]
struct Given {
    number: u64,
    page: Page,
    body: Snapshot<Bytes>,
}

impl Model for Given {
    ghost use Rattle.srm_slate.specs.Hands.{GivenView};

    ghost Value = { GivenView };

    ghost view = { λ g. record { number = g.number; page = g.page; body = g.body.value } };
}

/// What one tab drew, by whichever connection. It numbers its strokes from 1 on: each is taken once at most, and in order.
#[derive(Drop)]
pub struct Hand {
    settled: u64,
    // For contracts alone.
    given: Noted<Given>,
}

impl Model for Hand {
    ghost use Rattle.srm_slate.specs.Hands.{HandView, IsOnce};

    ghost Value = { HandView };

    ghost view = { λ h. record { settled = h.settled; given = h.given } };

    ghost invariant = { λ h. IsOnce (record { settled = h.settled; given = h.given }) };
}

impl Hand {
    /// Begins with a tab that drew nothing.
    #[tactic(auto, using(crate::proofs::Drawing::once_at_first))]
    pub fn new() -> Hand
        ensures { result ≡ idle }
    {
        Hand {
            settled: 0,
            given: Noted::new(),
        }
    }

    /// Returns up to which number its strokes were taken, or told as not taken. Each was taken once at most, and in order.
    pub fn settled(&self) -> u64
        ensures settled { result ≡ self.now.settled }
        ensures once { IsOnce self.now }
    {
        self.settled
    }

    /// Returns where a number stands.
    pub fn place(&self, number: u64) -> Place
        ensures place { result ≡ place_of self.now.settled number }
        ensures before { result ≡ Place.Before → number ≤ self.now.settled }
        ensures next { result ≡ Place.Next → number ≡ self.now.settled + 1 }
        ensures ahead { result ≡ Place.Ahead → self.now.settled + 1 < number }
    {
        if number <= self.settled {
            return Place::Before;
        }
        if number == self.settled + 1 {
            Place::Next
        } else {
            Place::Ahead
        }
    }

    /// Hands the member the stroke with the next number, once, and returns what became of it. Precondition: it is the next one. Fails only if out of memory; then the member
    /// wasn't asked, and nothing has changed.
    pub fn draw<R: Wait, K: Easel>(
        &mut self,
        rt: &R,
        easel: &mut K,
        number: u64,
        page: &Page,
        body: &Bytes,
    ) -> Result<Drawn, AllocError>
        requires { number ≡ self.old.settled + 1 }
        ensures drawn { IfOk result (λ drawn. K.draws easel.old page.now body.now drawn easel.new) }
        ensures given { IfOk result (λ drawn. self.new ≡ after_drawn number page.now body.now drawn self.old) }
        ensures err { OnErr result (self.new ≡ self.old) }
        ensures unasked { OnErr result (easel.new ≡ easel.old) }
    {
        let drawn = hand_over(rt, easel, page, body)?;
        match drawn {
            Drawn::Taken => {
                self.take(number, page, body);
                Ok(Drawn::Taken)
            }
            Drawn::Full => Ok(Drawn::Full),
            Drawn::Over => Ok(Drawn::Over),
        }
    }

    // Notes that the member took the next stroke.
    #[tactic(auto, using(crate::proofs::Drawing::once_more))]
    fn take(&mut self, number: u64, page: &Page, body: &Bytes)
        requires { number ≡ self.old.settled + 1 }
        ensures { self.new ≡ after_drawn number page.now body.now Drawn.Taken self.old }
    {
        let given = Given {
            number,
            page: *page,
            body: Snapshot::of(body),
        };
        self.settled = given.number;
        self.given.note(&given);
    }

    /// Notes that the stroke with the next number is told as not taken. Precondition: it is the next one.
    #[tactic(auto, using(crate::proofs::Drawing::once_passed))]
    pub fn pass(&mut self, number: u64)
        requires { number ≡ self.old.settled + 1 }
        ensures { self.new ≡ after_passed number self.old }
    {
        self.settled = number;
    }
}

// Hands a stroke to the member. Fails only if out of memory; then the member wasn't asked.
fn hand_over<R: Wait, K: Easel>(
    rt: &R,
    easel: &mut K,
    page: &Page,
    body: &Bytes,
) -> Result<Drawn, AllocError>
    ensures drawn { IfOk result (λ drawn. K.draws easel.old page.now body.now drawn easel.new) }
    ensures unasked { OnErr result (easel.new ≡ easel.old) }
{
    let shared = body.clone()?;
    Ok(easel.draw(rt, *page, shared))
}
