//! Giving the messages of a page slot.

ghost use Rattle.std.specs.Prelude.{◌≡◌, ◌<◌, ℕ, List, IfOk, OnErr, Ok, Some, None, if◌then◌else◌, slice_get, not, ◌&&◌, false};
ghost use Rattle.srm_names.specs.declared.limits.TheConstants.{PAGES};
ghost use Rattle.srm_entries.specs.Configs.{Config as AConfig};
ghost use Rattle.std.specs.Option.{option_copied};
ghost use Rattle.srm_names.specs.declared.page_msg.PageMsg.{PageMsg as APageMsg};
ghost use Rattle.srm_names.specs.declared.page_msg.PageMsg.TheVariants.{Close};
ghost use Rattle.srm_entries.specs.declared.entry.Entry.{Entry as AnEntry};
ghost use Rattle.srm_entries.specs.Entries.{is_gone, released};
ghost use Rattle.srm_agent_state.specs.Progress.{ProgressFits};
ghost use Rattle.srm_entries.specs.Giving.{GiveRight, is_some_of};
ghost use Rattle.srm_entries.specs.Verdicts.{final};
ghost use Rattle.srm_agent.specs.Nexts.{IsNextOf, IsNextOn};
ghost use Rattle.srm_agent.specs.Fits.{AgentFits};
ghost use Rattle.srm_agent.specs.Noting.{Enters, AgentStays, AnswersAs, Does, gave_by};

use super::Agent;
use crate::noted::Noted;
use srm_agent_state::{Progress, member};
use srm_entries::{AgentFault, Entry, Input, Verdict};
use srm_names::{Drawop, Member, PAGES, Page, PageMsg, Stream};
use srm_timers::Words;
use std::alloc::AllocError;

impl<W: Words + Drop> Agent<W> {
    /// Gives the next message of a page slot, 0 to 7, for its worker, with the entry; `None` if there is nothing to give.
    ///
    /// First comes the page, once. Then comes the smallest source that has something: its next released drawop, or that it left, once all
    /// that it drew on the page was given. When this member is gone and nothing else is left, the close comes, once. The call takes no
    /// moment: its entry has the last one.
    ///
    /// Fails only if out of memory: then the message is still to come, and there is no entry.
    pub fn give_noted(&mut self, slot: u8) -> Result<Noted<Option<PageMsg>>, AllocError>
        requires { slot < PAGES }
        ensures ok { IfOk result (λ noted. Enters W.next_word None (Input.Gave slot) self.old self.new noted.entry) }
        ensures answer { IfOk result (λ noted. AnswersAs (λ message. message ≡ noted.entry.effects.message) noted.entry.verdict noted.answer) }
        ensures err { OnErr result (AgentStays self.old self.new) }
    {
        let message = self.next_message(slot)?;
        let noted = copy_of(&message)?;
        self.hand_over(slot, &message);
        let entry = self.entry(self.last, Input::Gave(slot), Verdict::Done, noted);
        Ok(gave(message, entry))
    }

    /// Gives the next message of a page slot, 0 to 7: [`give_noted`](Agent::give_noted) without the entry.
    ///
    /// Fails only with [`AgentFault::Memory`], and then the message is still to come.
    #[tactic(auto, using(crate::proofs::Entering::give_allowed, crate::proofs::Giving::give_enters))]
    pub fn give(&mut self, slot: u8) -> Result<Option<PageMsg>, AgentFault>
        requires { slot < PAGES }
        ensures { Does W.next_word None (Input.Gave slot) (λ e message. message ≡ e.effects.message) self.old self.new result }
    {
        let message = self.next_message(slot)?;
        self.hand_over(slot, &message);
        Ok(message)
    }

    /// Notes that a slot was given the message that it may be given next, if there is one. Takes no memory.
    fn hand_over(&mut self, slot: u8, message: &Option<PageMsg>)
        requires slot { slot < PAGES }
        requires right { (c : AConfig) (made : ℕ) (past : List AnEntry) → AgentFits c made past self.old → GiveRight c past slot message.now }
        ensures enters { Enters W.next_word None (Input.Gave slot) self.old self.new (gave_by self.old slot message.now) }
        ensures rest { self.new ≡ record self.old { progress = self.new.progress } }
    {
        let Some(message) = message else {
            return;
        };
        self.progress[usize::from(slot)].give(message);
    }

    /// The message that a slot may be given next. Fails only if out of memory.
    fn next_message(&self, slot: u8) -> Result<Option<PageMsg>, AllocError>
        requires { slot < PAGES }
        ensures { IfOk result (λ message. (c : AConfig) (made : ℕ) (past : List AnEntry) → AgentFits c made past self.now → GiveRight c past slot message) }
    {
        let progress = &self.progress[usize::from(slot)];
        if progress.is_closed() {
            return Ok(None);
        }
        let Some(page) = self.pages.get(slot) else {
            return Ok(self.close_if_gone());
        };
        if !progress.is_opened() {
            return Ok(Some(PageMsg::Open(page)));
        }
        if let Some(message) = self.next_on(&page, progress)? {
            return Ok(Some(message));
        }
        Ok(self.close_if_gone())
    }

    fn close_if_gone(&self) -> Option<PageMsg>
        ensures { result ≡ (if is_gone self.now.state then Some Close else None) }
    {
        if self.is_gone() {
            Some(PageMsg::Close)
        } else {
            None
        }
    }

    /// The next message of the smallest source that has one, on a page that was opened.
    fn next_on(&self, page: &Page, progress: &Progress) -> Result<Option<PageMsg>, AllocError>
        ensures { IfOk result (λ message. (c : AConfig) (made : ℕ) (past : List AnEntry) (given : List APageMsg) → AgentFits c made past self.now → ProgressFits given progress.now
            → IsNextOn c past page.now given message) }
    {
        for number in 0..self.config.members() {
            let source = self.source_at(number);
            let stream = Stream {
                source,
                page: *page,
            };
            if let Some(message) = self.next_of(stream, progress)? {
                return Ok(Some(message));
            }
        }
        Ok(None)
    }

    /// The source after so many others: the smallest comes first.
    fn source_at(&self, place: u8) -> Member
        requires { place < self.now.config.members }
        ensures { result ≡ place }
    {
        // A roster has no more members than the limit.
        prove!(place < self.config.members());
        member(place)
    }

    /// The next message of one source.
    fn next_of(&self, stream: Stream, progress: &Progress) -> Result<Option<PageMsg>, AllocError>
        ensures { IfOk result (λ message. (c : AConfig) (made : ℕ) (past : List AnEntry) (given : List APageMsg) → AgentFits c made past self.now → ProgressFits given progress.now
            → IsNextOf past stream.page given stream.source message) }
    {
        let given = progress.number(stream.source);
        if let Some(drawop) = self.released_after(stream, given) {
            return Ok(Some(PageMsg::Draw(drawop.copy()?)));
        }
        if all_and_new(self.is_all(stream, given), progress.has_left(stream.source)) {
            return Ok(Some(PageMsg::Left(stream.source)));
        }
        Ok(None)
    }

    /// Whether the source of a stream left after so many drawops there.
    fn is_all(&self, stream: Stream, given: u32) -> bool
        ensures { (c : AConfig) (made : ℕ) (past : List AnEntry) → AgentFits c made past self.now → result ≡ is_some_of given (final past stream) }
    {
        is_final(given, self.store.final_of(stream))
    }

    /// The released drawop of a stream after so many, if there is one.
    fn released_after(&self, stream: Stream, given: u32) -> Option<&Drawop>
        ensures { (c : AConfig) (made : ℕ) (past : List AnEntry) → AgentFits c made past self.now → option_copied result ≡ slice_get (released past stream) given }
    {
        if given >= self.store.released(stream) {
            return None;
        }
        self.store.get(stream.at(given + 1)?)
    }
}

/// Whether a source drew so many drawops and no more, if it left after `last`.
fn is_final(given: u32, last: Option<u32>) -> bool
    ensures { result ≡ is_some_of given last }
{
    match last {
        Some(last) => given == last,
        None => false,
    }
}

/// Whether all was given, and the leaving wasn't.
fn all_and_new(all: bool, left: bool) -> bool
    ensures { result ≡ all && not left }
{
    all && !left
}

/// Copies what a slot is given. Fails only if out of memory.
fn copy_of(message: &Option<PageMsg>) -> Result<Option<PageMsg>, AllocError>
    ensures { IfOk result (λ copy. copy ≡ message.now) }
{
    match message {
        Some(message) => Ok(Some(message.copy()?)),
        None => Ok(None),
    }
}

/// What a give returns, with its entry.
fn gave(message: Option<PageMsg>, entry: Entry) -> Noted<Option<PageMsg>>
    ensures entry { result.entry ≡ entry }
    ensures answer { result.answer ≡ Ok message }
{
    Noted {
        answer: Ok(message),
        entry,
    }
}
