//! Which pages have strokes, and which drawops a member misses, counted by stream.

use crate::page_code::{code_of, page_of};
use srm_agent::Agent;
use srm_names::{MEMBERS, Member, PAGES, Page, Stream};
use srm_timers::Words;
use std::alloc::{AllocError, Global};
use std::sync::atomic::{AtomicBool, AtomicU64, AtomicUsize, Ordering};

/// How many drawops of each stream a member misses, by its page slots. One thread asks the member, and any reads.
#[derive(Drop)]
pub struct Holes {
    pages: Vec<PageHoles>,
    // Whether a drawop was missing when the member was asked last. If not, all counts are 0.
    has_counts: AtomicBool,
}

/// How many drawops of each source a member misses on a page.
#[derive(Drop)]
pub struct PageHoles {
    // The page as `code_of` has it; 0 where no page with strokes stands here yet.
    code: AtomicU64,
    // By source.
    counts: Vec<AtomicUsize>,
}

impl Holes {
    /// Makes counts of 0. Fails only if out of memory.
    pub fn new(alloc: Global) -> Result<Holes, AllocError> {
        let mut pages = Vec::new(alloc);
        for _ in 0..PAGES {
            pages.push(PageHoles::new(alloc)?)?;
        }
        Ok(Holes {
            pages,
            has_counts: AtomicBool::new(false),
        })
    }

    /// Returns the page slots; one without strokes, as far as the member knows, has no page here.
    pub fn pages(&self) -> &[PageHoles] {
        self.pages.as_slice()
    }

    /// Returns how many drawops of a member are missing, on all pages.
    pub fn of_member(&self, member: Member) -> usize {
        let mut all: usize = 0;
        for page in self.pages.as_slice() {
            all = all.saturating_add(page.of_member(member));
        }
        all
    }

    /// Stores what a member answers: which of its pages have strokes, and how many drawops it misses there, by source. `members` is how many members its session has, and `missing` how
    /// many drawops it misses in all. Looks for strokes on the pages that had none, and if something is missing at 256 counts at most.
    pub fn ask<W: Words + Drop>(&self, agent: &Agent<W>, members: u8, missing: u32) {
        let is_missing = missing > 0;
        let had_counts = self.has_counts.load(Ordering::SeqCst);
        for (slot, page) in agent.pages().iter().enumerate() {
            if let Some(holes) = self.pages.get(slot) {
                holes.ask_known(agent, page, members);
                if is_missing {
                    holes.ask_missing(agent, page, members);
                } else if had_counts {
                    holes.show_none(members);
                }
            }
        }
        self.has_counts.store(is_missing, Ordering::SeqCst);
    }
}

impl PageHoles {
    fn new(alloc: Global) -> Result<PageHoles, AllocError> {
        let mut counts = Vec::new(alloc);
        for _ in 0..MEMBERS {
            counts.push(AtomicUsize::new(0))?;
        }
        Ok(PageHoles {
            code: AtomicU64::new(0),
            counts,
        })
    }

    /// Returns the page, if there is one here.
    pub fn page(&self) -> Option<Page> {
        page_of(self.code.load(Ordering::SeqCst))
    }

    /// Returns how many drawops of a member are missing on the page.
    pub fn of_member(&self, member: Member) -> usize {
        match self.counts.get(member.index()) {
            Some(count) => count.load(Ordering::SeqCst),
            None => 0,
        }
    }

    // Stores the page, if the member knows of strokes there. A page keeps its slot and its strokes, so one that stands here isn't looked at again.
    fn ask_known<W: Words + Drop>(&self, agent: &Agent<W>, page: &Page, members: u8) {
        let code = code_of(*page);
        if self.code.load(Ordering::SeqCst) != code && has_strokes(agent, page, members) {
            self.code.store(code, Ordering::SeqCst);
        }
    }

    // Stores how many drawops the member misses there, by source.
    fn ask_missing<W: Words + Drop>(&self, agent: &Agent<W>, page: &Page, members: u8) {
        for number in 0..members {
            if let Some(source) = Member::new(number) {
                let missing = agent.missing_of(Stream {
                    source,
                    page: *page,
                });
                self.show(source, missing);
            }
        }
    }

    // Stores that the member misses nothing there.
    fn show_none(&self, members: u8) {
        for number in 0..members {
            if let Some(source) = Member::new(number) {
                self.show(source, 0);
            }
        }
    }

    fn show(&self, source: Member, missing: u32) {
        if let Some(count) = self.counts.get(source.index()) {
            count.store(missing as usize, Ordering::SeqCst);
        }
    }
}

/// Returns whether a member knows of a stroke on a page, of any of so many members.
pub fn has_strokes<W: Words + Drop>(agent: &Agent<W>, page: &Page, members: u8) -> bool {
    for number in 0..members {
        if let Some(source) = Member::new(number) {
            let stream = Stream {
                source,
                page: *page,
            };
            if agent.known(stream) > 0 {
                return true;
            }
        }
    }
    false
}
