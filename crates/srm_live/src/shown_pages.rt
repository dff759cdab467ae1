//! The pages that a live member shows: the one where its user draws, and in turn those that have strokes, so that it tells others of each.

ghost use Rattle.std.specs.Prelude.{◌≡◌, [], ◌∷◌, MatchOption};
ghost use Rattle.srm_live.specs.Asking.{answer_to, Hears, HearsLast};

use crate::asking::{ask, show};
use crate::tally::Tally;
use srm_control::{PageCommand, PageControl, PageRefusal};
use srm_member::Waking;
use srm_names::Page;
use srm_rota::PageRota;
use std::alloc::Global;
use std::marker::Model;
use std::sync::Wait;
use std::sync::atomic::AtomicBool;
use std::time::Clock;

/// A control of a node, and which page it shows next. Contracts see the control.
#[derive(Drop)]
pub struct ShownPages {
    control: PageControl,
    // None if there was no memory for it: then the page stays that the user chose last.
    rota: Option<PageRota>,
    // How many session messages had gone when it looked last.
    gone: u64,
}

impl Model for ShownPages {
    ghost use Rattle.srm_control.specs.Ends.{ControlView};

    ghost Value = { ControlView };

    ghost view = { λ p. p.control };
}

impl ShownPages {
    /// Shows the first page.
    pub fn new(alloc: Global, control: PageControl) -> ShownPages
        ensures { result ≡ control }
    {
        ShownPages {
            control,
            rota: PageRota::new(alloc).ok(),
            gone: 0,
        }
    }

    /// Ends it, and returns the control.
    pub fn into_control(self) -> PageControl
        ensures { result ≡ self }
    {
        self.control
    }

    /// Asks the node for a page, and waits for its answer: the page that it shows, or why it shows none. Returns `None` if the node has ended, as `ended` says.
    pub fn ask<R: Clock + Wait>(
        &mut self,
        rt: &R,
        command: &PageCommand,
        ended: &AtomicBool,
        waker: &Waking,
    ) -> Option<Result<Page, PageRefusal>>
        ensures { MatchOption result (HearsLast [] self.old self.new) (λ outcome. Hears (answer_to command.now outcome ∷ []) self.old self.new) }
    {
        let outcome = self.ask_node(rt, command, ended, waker);
        if let Some(Ok(shown)) = &outcome {
            self.prefer(shown);
        }
        outcome
    }

    fn ask_node<R: Clock + Wait>(
        &mut self,
        rt: &R,
        command: &PageCommand,
        ended: &AtomicBool,
        waker: &Waking,
    ) -> Option<Result<Page, PageRefusal>>
        ensures { MatchOption result (HearsLast [] self.old self.new) (λ outcome. Hears (answer_to command.now outcome ∷ []) self.old self.new) }
    {
        ask(rt, &mut self.control, command, ended, waker)
    }

    // Puts a page in front of the others.
    fn prefer(&mut self, page: &Page)
        ensures { self.new ≡ self.old }
    {
        if let Some(rota) = &mut self.rota {
            rota.prefer(*page);
        }
    }

    /// Commands that the next of the pages that have strokes is shown, where a session message of the page shown went since the last call. Never waits.
    #[tactic(auto, using(crate::proofs::Askings::hears_none))]
    pub fn turn<R: Wait>(&mut self, rt: &R, tally: &Tally, waker: &Waking)
        ensures { Hears [] self.old self.new }
    {
        if let Some(next) = self.next_page(tally) {
            self.show(rt, &next, waker);
        }
    }

    // The page to show next, where a session message of another one went since.
    fn next_page(&mut self, tally: &Tally) -> Option<Page>
        ensures { self.new ≡ self.old }
    {
        let sessions = tally.sessions();
        if sessions.count == self.gone {
            return None;
        }
        self.gone = sessions.count;
        let told = sessions.page?;
        match &mut self.rota {
            Some(rota) => next_in(rota, &told, tally),
            None => None,
        }
    }

    fn show<R: Wait>(&mut self, rt: &R, page: &Page, waker: &Waking)
        ensures { Hears [] self.old self.new }
    {
        show(rt, &mut self.control, page, waker);
    }
}

// The page to show behind one that was told of, if it is another one, of those that have strokes.
fn next_in(rota: &mut PageRota, told: &Page, tally: &Tally) -> Option<Page> {
    for holes in tally.holes().pages() {
        if let Some(page) = holes.page() {
            rota.add(page);
        }
    }
    let next = rota.told(*told)?;
    if next == *told { None } else { Some(next) }
}
