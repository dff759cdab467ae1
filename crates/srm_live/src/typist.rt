//! Who draws what is typed.

ghost use Rattle.std.specs.Prelude.{◌≡◌, [], ◌∷◌, ◌++◌, MatchOption};
ghost use Rattle.std.specs.Bool.{OnTrue, OnFalse};
ghost use Rattle.srm_member.specs.Strokes.{stroke_on};
ghost use Rattle.srm_live.specs.Asking.{answer_to, Hears, HearsLast};
ghost use Rattle.srm_live.specs.Typing.{Stays};

use crate::shown_pages::ShownPages;
use crate::tally::Tally;
use bytes::Bytes;
use srm_control::{PageCommand, PageControl, PageRefusal};
use srm_member::{Waking, send_stroke};
use srm_names::Page;
use srm_pages::{Inked, Pen};
use std::marker::Model;
use std::sync::Wait;
use std::sync::atomic::AtomicBool;
use std::time::Clock;

/// Who draws what is typed: a producer, which sends the strokes, and the pages that the member shows.
#[derive(Drop)]
pub struct Typist {
    pen: Pen,
    pages: ShownPages,
}

/// A producer that is done, and the control that asked for its pages.
#[derive(Drop)]
pub struct Finished {
    /// Whether all that was typed was drawn.
    pub all: bool,
    /// The producer.
    pub inked: Inked,
    /// The control.
    pub control: PageControl,
}

impl Model for Typist {
    ghost use Rattle.srm_live.specs.Typing.{TypistView};

    ghost Value = { TypistView };

    ghost view = { λ t. record { pen = t.pen; control = t.pages } };
}

impl Typist {
    /// Makes one who has drawn nothing yet.
    pub fn new(pen: Pen, pages: ShownPages) -> Typist
        ensures { result ≡ record { pen = pen; control = pages } }
    {
        Typist { pen, pages }
    }

    /// Sends a stroke with this body on a page, as [`send_stroke`] does. Whether it was sent: not if `ended` was set before.
    pub fn draw<R: Clock + Wait>(
        &mut self,
        rt: &R,
        page: &Page,
        body: Bytes,
        ended: &AtomicBool,
        waker: &Waking,
    ) -> bool
        ensures sent { OnTrue result (self.new ≡ record self.old { pen = record self.old.pen { sent = self.old.pen.sent ++ stroke_on page.now self.old.pen.number body ∷ [] } }) }
        ensures ended { OnFalse result (self.new ≡ self.old) }
    {
        send_stroke(rt, &mut self.pen, *page, body, ended, waker)
    }

    /// Asks the node for a page, and waits for its answer: the page that it shows, or why it shows none. Returns `None` if the node has ended, as `ended` says.
    pub fn ask<R: Clock + Wait>(
        &mut self,
        rt: &R,
        command: &PageCommand,
        ended: &AtomicBool,
        waker: &Waking,
    ) -> Option<Result<Page, PageRefusal>>
        ensures pen { self.new.pen ≡ self.old.pen }
        ensures heard { MatchOption result (HearsLast [] self.old.control self.new.control) (λ outcome. Hears (answer_to command.now outcome ∷ []) self.old.control self.new.control) }
    {
        self.pages.ask(rt, command, ended, waker)
    }

    /// Commands that the next of the pages that have strokes is shown, where a session message of the page shown went since the last call. Never waits.
    pub fn turn_page<R: Wait>(&mut self, rt: &R, tally: Option<&Tally>, waker: &Waking)
        ensures { Stays self.old self.new }
    {
        if let Some(tally) = tally {
            self.pages.turn(rt, tally, waker);
        }
    }

    /// Says that nothing more is drawn, and whether that is all that was typed.
    pub fn done(self, all: bool) -> Finished
        ensures all { result.all ≡ all }
        ensures inked { result.inked ≡ self.pen }
        ensures control { result.control ≡ self.control }
    {
        Finished {
            all,
            inked: self.pen.done(),
            control: self.pages.into_control(),
        }
    }
}
