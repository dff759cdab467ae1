//! Which page the member shows.

use srm_agent::Agent;
use srm_control::{COMMANDS, PageCommand, PageControl};
use srm_live::has_strokes;
use srm_names::{PAGES, Page};
use srm_rota::PageRota;
use srm_timers::Words;
use std::alloc::{AllocError, Global};
use std::sync::{Mutex, Wait};

const SLOTS: usize = PAGES as usize;

/// The pages that a member shows in turn, each until it has sent a session message of it, so that others learn of the last strokes of all of them. The page that
/// was drawn on here last goes first.
#[derive(Drop)]
pub struct Turning {
    turns: Mutex<Turns>,
}

// The pages in their turns, and by what the node is told to show one: nothing before the node is there.
#[derive(Drop)]
struct Turns {
    rota: PageRota,
    // By page slot, whether its page was added. A page keeps its slot and its strokes, so it isn't asked for again.
    was_added: [bool; SLOTS],
    control: Option<PageControl>,
}

impl Turning {
    /// Makes turns of the first page alone, which each member shows from the start. Fails only out of memory.
    pub fn new(alloc: Global) -> Result<Turning, AllocError> {
        let mut rota = PageRota::new(alloc)?;
        rota.add(Page::first());
        Ok(Turning {
            turns: Mutex::new(Turns {
                rota,
                was_added: [false; SLOTS],
                control: None,
            }),
        })
    }

    /// Tells the node with this control which page to show, from now on.
    pub fn connect<R: Wait>(&self, rt: &R, control: PageControl) {
        self.turns.lock(rt).control = Some(control);
    }

    /// Adds those pages of a member on which it knows of strokes, of any of so many members. Asks for 256 streams at most.
    pub fn ask<R: Wait, W: Words + Drop>(&self, rt: &R, agent: &Agent<W>, members: u8) {
        let mut turns = self.turns.lock(rt);
        turns.ask(agent, members);
    }

    /// Notes that a page was drawn on here.
    pub fn prefer<R: Wait>(&self, rt: &R, page: Page) {
        self.turns.lock(rt).rota.prefer(page);
    }

    /// Notes that a session message of this page was sent: the node shows the next page from its next turn on. Never waits for the node.
    pub fn told<R: Wait>(&self, rt: &R, page: Page) {
        let mut turns = self.turns.lock(rt);
        turns.turn(rt, page);
    }
}

impl Turns {
    fn ask<W: Words + Drop>(&mut self, agent: &Agent<W>, members: u8) {
        for (slot, page) in agent.pages().iter().enumerate() {
            if !self.has_added(slot) && has_strokes(agent, page, members) {
                self.add(slot, page);
            }
        }
    }

    fn has_added(&self, slot: usize) -> bool {
        self.was_added.get(slot).copied().unwrap_or(true)
    }

    fn add(&mut self, slot: usize, page: &Page) {
        if let Some(was_added) = self.was_added.get_mut(slot) {
            *was_added = true;
        }
        self.rota.add(*page);
    }

    fn turn<R: Wait>(&mut self, rt: &R, told: Page) {
        let Some(control) = &mut self.control else {
            return;
        };
        take_answers(rt, control);
        match self.rota.told(told) {
            // Where the node is gone, or has yet to carry out what it was told, the next session message is as good.
            Some(next) if next != told => {
                let _ = control.command(rt, PageCommand::Show(next));
            }
            _ => {}
        }
    }
}

// Takes the answers that are there. Each page in the turns has strokes, so it has a slot, and is shown unless the member has left.
fn take_answers<R: Wait>(rt: &R, control: &mut PageControl) {
    for _ in 0..COMMANDS {
        if control.answer(rt).is_none() {
            return;
        }
    }
}
