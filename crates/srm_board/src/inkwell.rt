//! The producer that all browsers of a member share.

ghost use Rattle.std.specs.Prelude.{◌≡◌, None};
ghost use Rattle.srm_board.specs.Inks.{InkDraws, PenDraws};

use bytes::Bytes;
use srm_member::{Waking, wake};
use srm_names::Page;
use srm_pages::{Pen, Stroke};
use srm_slate::{Drawn, Easel};
use std::alloc::Global;
use std::marker::Model;
use std::sync::{Arc, Condvar, CondvarTimeouts, Mutex, Wait};
use std::time::{Clock, Duration};

/// A producer that is lent for a stroke at a time, until the member leaves. Each stroke ends a pause of the node.
#[derive(Drop)]
pub struct Inkwell {
    ink: Mutex<Ink>,
    // Somebody asked the member to leave, or its run has ended.
    is_asked: Condvar,
    waker: Waking,
}

impl Inkwell {
    /// Lends this producer, if there is one, and ends pauses by this handle.
    pub fn new(pen: Option<Pen>, waker: Waking) -> Inkwell {
        Inkwell {
            ink: Mutex::new(Ink {
                pen,
                is_leaving: false,
            }),
            is_asked: Condvar::new(),
            waker,
        }
    }

    /// Asks the member to leave. Nothing more is drawn from now on.
    pub fn ask_leave<R: Wait>(&self, rt: &R) {
        self.ink.lock(rt).is_leaving = true;
        self.is_asked.notify_all();
    }

    /// Waits until somebody asks the member to leave, for `time` at most. Returns whether somebody did.
    pub fn is_asked_within<R: Wait + Clock>(&self, rt: &R, time: Duration) -> bool {
        let ink = self.ink.lock(rt);
        let (ink, _) = self
            .is_asked
            .wait_timeout_while(rt, ink, time, |ink| !ink.is_leaving);
        ink.is_leaving
    }

    /// Ends the producer: the member leaves once all that was drawn is sent.
    pub fn put_away<R: Wait>(&self, rt: &R) {
        self.ink.lock(rt).put_away();
        wake(&self.waker);
    }
}

/// The producer, until it is done, and whether the member is to leave.
#[derive(Drop)]
struct Ink {
    pen: Option<Pen>,
    is_leaving: bool,
}

impl Model for Ink {
    ghost use Rattle.srm_board.specs.Inks.{InkView};

    ghost Value = { InkView };

    ghost view = { λ i. record { pen = i.pen; is_leaving = i.is_leaving } };
}

impl Ink {
    fn draw<R: Wait>(&mut self, rt: &R, page: Page, body: Bytes) -> Drawn
        ensures { InkDraws page body result self.old self.new }
    {
        if self.is_leaving {
            return Drawn::Over;
        }
        match &mut self.pen {
            Some(pen) => draw_by(rt, pen, page, body),
            None => Drawn::Over,
        }
    }

    fn put_away(&mut self)
        ensures { self.new ≡ record self.old { pen = None } }
    {
        if let Some(pen) = self.pen.take() {
            pen.done();
        }
    }
}

fn draw_by<R: Wait>(rt: &R, pen: &mut Pen, page: Page, body: Bytes) -> Drawn
    ensures { PenDraws page body result pen.old pen.new }
{
    let stroke = Stroke {
        pen: pen.number(),
        page,
        body,
    };
    match pen.stroke(rt, stroke) {
        Ok(()) => Drawn::Taken,
        Err(_) => Drawn::Full,
    }
}

/// The inkwell of a member, for the thread that serves its board.
#[derive(Drop)]
pub struct SharedInkwell(pub Arc<Inkwell, Global>);

impl Easel for SharedInkwell {
    // The producer is behind a lock, so nothing is said of it here.
    ghost draws = { λ old page body drawn new. Unit {0} };

    fn draw<R: Wait>(&mut self, rt: &R, page: Page, body: Bytes) -> Drawn {
        let drawn = self.0.ink.lock(rt).draw(rt, page, body);
        wake(&self.0.waker);
        drawn
    }

    fn leave<R: Wait>(&self, rt: &R) {
        self.0.ask_leave(rt);
    }
}
