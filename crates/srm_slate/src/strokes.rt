//! The strokes that a tab draws at once.

ghost use Rattle.std.specs.Prelude.{◌≡◌, ◌+◌, IfOk, OnErr};
ghost use Rattle.srm_slate.specs.Strokes.{LineEnds, SaysStroke};

use crate::asking::{first_number_in, stroke_in};
use crate::easel::{Drawn, Easel};
use crate::hand::{Hand, Place};
use bytes::Bytes;
use srm_names::Page;
use std::alloc::{AllocError, Global};
use std::sync::Wait;

/// How far the strokes of a text came.
#[derive(Clone, Copy, Debug, PartialEq, Eq)]
pub enum End {
    /// All are settled: taken now, or before.
    All,
    /// The member has no place for the next one now.
    Full,
    /// The member draws no more.
    Over,
    /// The next one is no stroke. It is settled as not taken, and those behind it weren't looked at.
    Bad,
    /// One before the next one is missing.
    Ahead,
}

/// Lines that are drawn one after another, each a stroke with a number.
#[derive(Drop)]
pub struct Strokes {
    lines: Bytes,
    // Where the next line begins, and its number.
    at: usize,
    number: u64,
    taken: u64,
    is_done: bool,
}

impl Strokes {
    /// Draws none yet. The first line has this number.
    pub fn new(lines: Bytes, number: u64) -> Strokes {
        Strokes {
            lines,
            at: 0,
            number,
            taken: 0,
            is_done: false,
        }
    }

    /// Draws none yet. A first line before them says the number of the first. Returns `None` if it doesn't.
    pub fn numbered(text: Bytes) -> Option<Strokes> {
        let (number, at) = first_number_in(text.as_slice())?;
        Some(Strokes {
            lines: text,
            at,
            number,
            taken: 0,
            is_done: false,
        })
    }

    /// Returns how many were settled so far, all as taken.
    pub fn taken(&self) -> u64 {
        self.taken
    }

    /// Draws those that are left, until one isn't settled, or is no stroke. Fails only if out of memory.
    pub fn draw<R: Wait, K: Easel>(
        &mut self,
        rt: &R,
        alloc: Global,
        easel: &mut K,
        hand: &mut Hand,
    ) -> Result<End, AllocError> {
        let lines = self.lines.clone()?;
        let text = lines.as_slice();
        let from = self.at.min(text.len());
        for line in text[from..].split(|byte| *byte == b'\n') {
            if self.is_done {
                break;
            }
            let drawn = draw_line(rt, alloc, easel, hand, self.number, line)?;
            match drawn {
                End::All => self.taken = self.taken.saturating_add(1),
                other => return Ok(other),
            }
            self.number = self.number.saturating_add(1);
            self.at = self.at.saturating_add(line.len()).saturating_add(1);
            self.is_done = self.at > text.len();
        }
        Ok(End::All)
    }
}

// Draws the stroke of a line, if it has the next number.
fn draw_line<R: Wait, K: Easel>(
    rt: &R,
    alloc: Global,
    easel: &mut K,
    hand: &mut Hand,
    number: u64,
    line: &[u8],
) -> Result<End, AllocError>
    ensures ends { IfOk result (λ end. LineEnds K.draws number line.now easel.old hand.old end easel.new hand.new) }
    ensures err { OnErr result ((easel.new ≡ easel.old) × (hand.new ≡ hand.old)) }
{
    match hand.place(number) {
        Place::Before => return Ok(End::All),
        Place::Ahead => return Ok(End::Ahead),
        Place::Next => {}
    }
    match stroke_in(alloc, line)? {
        Some((page, body)) => draw_next(rt, easel, hand, number, line, &page, &body),
        None => {
            hand.pass(number);
            Ok(End::Bad)
        }
    }
}

// Draws the stroke that the next line says.
fn draw_next<R: Wait, K: Easel>(
    rt: &R,
    easel: &mut K,
    hand: &mut Hand,
    number: u64,
    _line: &[u8],
    page: &Page,
    body: &Bytes,
) -> Result<End, AllocError>
    requires next { number ≡ hand.old.settled + 1 }
    requires says { SaysStroke _line.now page.now body.now }
    ensures ends { IfOk result (λ end. LineEnds K.draws number _line.now easel.old hand.old end easel.new hand.new) }
    ensures err { OnErr result ((easel.new ≡ easel.old) × (hand.new ≡ hand.old)) }
{
    match hand.draw(rt, easel, number, page, body)? {
        Drawn::Taken => Ok(End::All),
        Drawn::Full => Ok(End::Full),
        Drawn::Over => Ok(End::Over),
    }
}
