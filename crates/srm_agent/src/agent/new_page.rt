//! The name of the next page of this member.

ghost use Rattle.std.specs.Prelude.{◌≡◌, ℕ, max, List, Some, None, if◌then◌else◌, ◌+◌, ◌==◌};
ghost use Rattle.srm_names.specs.declared.limits.TheConstants.{PAGES};
ghost use Rattle.srm_entries.specs.Configs.{Config as AConfig};
ghost use Rattle.srm_entries.specs.declared.entry.Entry.{Entry as AnEntry};
ghost use Rattle.srm_entries.specs.Promises.{next_number, page_to_come};
ghost use Rattle.srm_agent.specs.Fits.{AgentFits};

use super::Agent;
use srm_names::{Member, PAGES, Page};
use srm_timers::Words;

impl<W: Words + Drop> Agent<W> {
    /// Returns the name of this member's next page: its number is one more than the greatest of this member's pages that have page slots, and 0 if none has.
    ///
    /// `None` if no slot is free, or the number would pass 65,535. Takes no memory and changes nothing: a page gets its slot when it is
    /// drawn on or shown.
    pub fn new_page(&self) -> Option<Page>
        ensures { (c : AConfig) (made : ℕ) (past : List AnEntry) → AgentFits c made past self.now → result ≡ page_to_come c past }
    {
        if self.pages.as_slice().len() >= usize::from(PAGES) {
            return None;
        }
        let creator = self.config.me();
        let number = u16::try_from(next_number(self.pages.as_slice(), &creator)).ok()?;
        Some(Page { creator, number })
    }
}

/// One more than the greatest number of a page of this creator, and 0 if there is none.
fn next_number(pages: &[Page], creator: &Member) -> u32
    ensures { result ≡ next_number creator.now pages.now }
{
    let mut next = 0;
    for page in pages {
        next = greatest_after(next, page, creator);
    }
    next
}

/// The greater of a number and one more than the number of a page, if that is of this creator.
fn greatest_after(next: u32, page: &Page, creator: &Member) -> u32
    ensures { result ≡ max next (if page.now.creator == creator.now then page.now.number + 1 else 0) }
{
    if page.creator == *creator {
        next.max(u32::from(page.number) + 1)
    } else {
        next
    }
}
