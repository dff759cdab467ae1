//! Showing a page.

ghost use Rattle.std.specs.Prelude.{◌≡◌, ◌≤◌, IfOk, OnErr, Ok, Some, false};
ghost use Rattle.srm_names.specs.declared.limits.TheConstants.{LATEST_MOMENT};
ghost use Rattle.srm_store.specs.PageTables.{table_lacks_room, with_page};
ghost use Rattle.srm_agent.specs.Noting.{Enters, EntersWithoutEffects, AgentStays, AnswersAs, IsAllowed, Does};

use super::Agent;
use crate::noted::Noted;
use srm_entries::{AgentFault, Input};
use srm_names::Page;
use srm_timers::Words;
use std::alloc::AllocError;

impl<W: Words + Drop> Agent<W> {
    /// Shows a page, and returns the entry. A page without a page slot takes a free one. Moments are microseconds, at most 2^48.
    ///
    /// The answer is the first of these faults that holds: [`AgentFault::Gone`]; [`AgentFault::PageLimit`] if the page has no slot and none is free. Such a call has
    /// an entry, and changes nothing. The call takes no memory, so `AllocError` is never returned.
    pub fn show_noted(&mut self, page: Page, now: u64) -> Result<Noted<()>, AllocError>
        requires { now ≤ LATEST_MOMENT }
        ensures ok { IfOk result (λ noted. Enters W.next_word (Some now) (Input.Showed page) self.old self.new noted.entry) }
        ensures answer { IfOk result (λ noted. AnswersAs (λ _. Unit {0}) noted.entry.verdict noted.answer) }
        ensures err { OnErr result (AgentStays self.old self.new) }
        ensures allowed { OnErr result (IsAllowed (Input.Showed page) self.old) }
    {
        let moment = self.moment(now);
        let answer = self.show_at(&page, moment);
        Ok(self.noted(moment, Input::Showed(page), answer))
    }

    /// Shows a page: [`show_noted`](Agent::show_noted) without the entry. Its faults are the same. [`AgentFault::Memory`], which the contract allows, is never
    /// returned.
    pub fn show(&mut self, page: Page, now: u64) -> Result<(), AgentFault>
        requires { now ≤ LATEST_MOMENT }
        ensures { Does W.next_word (Some now) (Input.Showed page) (λ _ _. Unit {0}) self.old self.new result }
    {
        let moment = self.moment(now);
        self.show_at(&page, moment)
    }

    /// Shows a page at a moment that isn't below the last one.
    fn show_at(&mut self, page: &Page, moment: u64) -> Result<(), AgentFault>
        requires later { self.old.last ≤ moment }
        requires moment { moment ≤ LATEST_MOMENT }
        ensures { EntersWithoutEffects W.next_word moment (Input.Showed page.now) self.old self.new result }
    {
        if self.is_gone() {
            return Err(AgentFault::Gone);
        }
        if !self.pages.has_room(page) {
            return Err(AgentFault::PageLimit);
        }
        self.turn_to(page, moment);
        Ok(())
    }

    /// Shows a page from this moment on, and gives it a slot.
    fn turn_to(&mut self, page: &Page, moment: u64)
        requires room { table_lacks_room self.old.pages page.now ≡ false }
        requires moment { moment ≤ LATEST_MOMENT }
        ensures { self.new ≡ record self.old { last = moment; showing = page.now; pages = with_page self.old.pages page.now } }
    {
        self.pages.add(*page);
        self.showing = *page;
        self.last = moment;
    }
}
