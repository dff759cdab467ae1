//! Which page is shown next.

ghost use Rattle.std.specs.Prelude.{◌≡◌, ◌<◌, [], length, nat_lt, IfOk, IfSome};
ghost use Rattle.srm_names.specs.declared.limits.TheConstants.{PAGES};
ghost use Rattle.srm_rota.specs.Rota.{first_of, place_of, added, in_front, with_first, with_last, behind};

use srm_names::{PAGES, Page};
use std::alloc::{AllocError, Global};
use std::marker::Model;

/// The pages that a member shows in turn, each until it has sent a session message of it. Contracts see a list, at most eight pages in the order of their turns:
/// the first one is the one to show.
#[derive(Debug, Drop)]
pub struct PageRota {
    pages: Vec<Page>,
}

impl Model for PageRota {
    ghost use Rattle.std.specs.Prelude.{◌≤◌, List, vec_len, vec_capacity};
    ghost use Rattle.srm_names.specs.declared.limits.TheConstants.{PAGES};
    ghost use Rattle.srm_names.specs.declared.page.Page.{Page as APage};

    ghost Value = { List APage };

    ghost view = { λ r. r.pages.items };

    ghost invariant = { λ r. (vec_len r.pages ≤ PAGES) × (PAGES ≤ vec_capacity r.pages) };
}

impl PageRota {
    /// Makes a rota without pages, with room for eight.
    ///
    /// Returns `AllocError` when out of memory. No other call takes memory.
    pub fn new(alloc: Global) -> Result<PageRota, AllocError>
        ensures { IfOk result (λ rota. rota ≡ []) }
    {
        let pages = Vec::with_capacity(alloc, usize::from(PAGES))?;
        Ok(PageRota { pages })
    }

    /// Returns the page to show now, or `None` if there are no pages.
    pub fn first(&self) -> Option<Page>
        ensures { result ≡ first_of self.now }
    {
        self.pages.first().copied()
    }

    /// Adds a page that has strokes, with its turn behind all others. A page that is there stays where it is, and a ninth page isn't added. No call takes a page out
    /// again.
    #[tactic(auto, using(crate::proofs::Turns::adds, crate::proofs::Turns::keeps))]
    pub fn add(&mut self, page: Page)
        ensures { self.new ≡ added page self.old }
    {
        if self.place_of(&page).is_none() {
            self.push(page);
        }
    }

    /// Puts a page in front of all others, as the one that was used last. It is added if it isn't there, unless there are eight others: then nothing changes.
    #[tactic(auto, using(crate::proofs::Turns::goes_first, crate::proofs::Turns::comes_first))]
    pub fn prefer(&mut self, page: Page)
        ensures { self.new ≡ in_front page self.old }
    {
        if let Some(place) = self.place_of(&page) {
            self.pages.remove(place);
        }
        self.push_first(page);
    }

    /// Puts a page behind all others, since a session message of it went. Nothing changes if it isn't there. Returns the page to show now, or `None` if there are no
    /// pages.
    #[tactic(auto, using(crate::proofs::Turns::goes_last, crate::proofs::Turns::stays))]
    pub fn told(&mut self, page: Page) -> Option<Page>
        ensures goes { self.new ≡ behind page self.old }
        ensures first { result ≡ first_of self.new }
    {
        if let Some(place) = self.place_of(&page) {
            self.pages.remove(place);
            self.push(page);
        }
        self.first()
    }

    // The place of a page.
    fn place_of(&self, page: &Page) -> Option<usize>
        ensures place { result ≡ place_of page.now self.now }
        ensures within { IfSome result (λ place. place < length self.now) }
    {
        self.pages.iter().position(|other| page == other)
    }

    // Whether there is room for a page more.
    fn has_room(&self) -> bool
        ensures { result ≡ nat_lt (length self.now) PAGES }
    {
        self.pages.len() < usize::from(PAGES)
    }

    // Puts a page behind all others, while there is room.
    fn push(&mut self, page: Page)
        ensures { self.new ≡ with_last page self.old }
    {
        if self.has_room() {
            self.pages.push_reserved(page);
        }
    }

    // Puts a page in front of all others, while there is room.
    fn push_first(&mut self, page: Page)
        ensures { self.new ≡ with_first page self.old }
    {
        if self.has_room() {
            let _ = self.pages.insert(0, page);
        }
    }
}
