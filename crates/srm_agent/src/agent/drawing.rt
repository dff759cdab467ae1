//! Drawing.

ghost use Rattle.std.specs.Prelude.{◌≡◌, ◌≤◌, ◌<◌, ℕ, List, [], ◌∷◌, Some, Ok, Err, IfOk, OnErr, IfSome, false};
ghost use Rattle.srm_names.specs.declared.limits.TheConstants.{LATEST_MOMENT, DRAWOPS};
ghost use Rattle.srm_codec.specs.Spelling.{is_drawop};
ghost use Rattle.srm_store.specs.Stores.{HavePlaces};
ghost use Rattle.srm_bucket.specs.declared.class.Class.TheVariants.{New};
ghost use Rattle.srm_bucket.specs.declared.limits.TheConstants.{LEAST_LENGTH, GREATEST_LENGTH};
ghost use Rattle.srm_bucket.specs.Calls.{Handed};
ghost use Rattle.srm_bucket.specs.Fits.{BucketAdds};
ghost use Rattle.srm_bucket.specs.Waiting.{Gains};
ghost use Rattle.srm_entries.specs.declared.entry.Entry.{Entry as AnEntry};
ghost use Rattle.srm_entries.specs.Configs.{Config as AConfig};
ghost use Rattle.srm_names.specs.Names.{stream_on};
ghost use Rattle.srm_entries.specs.Verdicts.{first_cause};
ghost use Rattle.srm_entries.specs.Entries.{known};
ghost use Rattle.srm_store.specs.PageTables.{table_lacks_room, with_page};
ghost use Rattle.srm_agent.specs.Drawing.{verdict_of_refusal, refusals, name_after, drawn_entry};
ghost use Rattle.srm_agent_state.specs.Growth.{HoldsToo};
ghost use Rattle.srm_outbox.specs.Outs.{IsOwn};
ghost use Rattle.srm_agent.specs.Fits.{AgentFits};
ghost use Rattle.srm_agent.specs.Noting.{Enters, AgentStays, AnswersAs, Does, IsAllowed, IsDrawnName};

use super::Agent;
use crate::noted::Noted;
use bytes::Bytes;
use srm_agent_state::keep;
use srm_bucket::{Bucket, Class, Item};
use srm_entries::{AgentFault, AgentState, Effects, Entry, Input, Verdict};
use srm_names::{Drawop, Items, LONGEST_BODY, Name, Page, Stream};
use srm_outbox::Outgoing;
use srm_store::StoreFault;
use srm_timers::Words;
use std::alloc::AllocError;

impl<W: Words + Drop> Agent<W> {
    /// Draws on a page, and returns the name of the new drawop with the entry: this member's next one there, with this body and the moment as its stamp. A page
    /// without a page slot takes a free one. A tick sends the drawop once the rate lets it go. Moments are microseconds, at most 2^48.
    ///
    /// The answer is the first of these faults that holds: [`AgentFault::Gone`]; [`AgentFault::Leaving`]; [`AgentFault::BodyLong`] if the
    /// body has more than 1,024 bytes; [`AgentFault::PageLimit`] if the page has no slot and none is free; [`AgentFault::StreamFull`] if
    /// this member drew 65,536 drawops on the page. Such a call has an entry, and changes nothing. `AllocError` comes after all of these:
    /// out of memory there is no entry, and nothing has changed.
    pub fn draw_noted(
        &mut self,
        page: Page,
        body: Bytes,
        now: u64,
    ) -> Result<Noted<Name>, AllocError>
        requires { now ≤ LATEST_MOMENT }
        ensures ok { IfOk result (λ noted. Enters W.next_word (Some now) (Input.Drew page body) self.old self.new noted.entry) }
        ensures answer { IfOk result (λ noted. AnswersAs (IsDrawnName noted.entry) noted.entry.verdict noted.answer) }
        ensures err { OnErr result (AgentStays self.old self.new) }
        ensures allowed { OnErr result (IsAllowed (Input.Drew page body) self.old) }
    {
        let moment = self.moment(now);
        if let Some(fault) = self.refusal(&page, body.len()) {
            return Ok(self.refused(moment, Input::Drew(page, body), fault));
        }
        let Some(name) = self.next_name(&page) else {
            return Ok(self.refused(moment, Input::Drew(page, body), AgentFault::StreamFull));
        };
        let draft = match self.draft(name, moment, body.clone()?) {
            Ok(draft) => draft,
            Err(StoreFault::PageLimit) => {
                return Ok(self.refused(moment, Input::Drew(page, body), AgentFault::PageLimit));
            }
            Err(StoreFault::Memory) => return Err(AllocError),
        };
        let noted = draft.held.copy()?;
        let entry = self.drew(moment, page, body, noted);
        self.take_up(&page, moment, draft.held, draft.going);
        Ok(Noted {
            answer: Ok(name),
            entry,
        })
    }

    /// Draws on a page, and returns the name of the new drawop: [`draw_noted`](Agent::draw_noted) without the entry. Its faults are the
    /// same, with [`AgentFault::Memory`] last.
    pub fn draw(&mut self, page: Page, body: Bytes, now: u64) -> Result<Name, AgentFault>
        requires { now ≤ LATEST_MOMENT }
        ensures { Does W.next_word (Some now) (Input.Drew page body) IsDrawnName self.old self.new result }
    {
        let moment = self.moment(now);
        if let Some(fault) = self.refusal(&page, body.len()) {
            return Err(fault);
        }
        let Some(name) = self.next_name(&page) else {
            return Err(AgentFault::StreamFull);
        };
        let draft = match self.draft(name, moment, body) {
            Ok(draft) => draft,
            Err(StoreFault::PageLimit) => return Err(AgentFault::PageLimit),
            Err(StoreFault::Memory) => return Err(AgentFault::Memory),
        };
        self.take_up(&page, moment, draft.held, draft.going);
        Ok(name)
    }

    /// The first fault of a draw that holds, a full stream aside.
    fn refusal(&self, page: &Page, length: usize) -> Option<AgentFault>
        ensures { verdict_of_refusal result ≡ first_cause (refusals self.now.state self.now.pages page.now length) }
    {
        match self.state {
            AgentState::Gone => return Some(AgentFault::Gone),
            AgentState::Leaving => return Some(AgentFault::Leaving),
            AgentState::Active => {}
        }
        if length > usize::from(LONGEST_BODY) {
            return Some(AgentFault::BodyLong);
        }
        if !self.pages.has_room(page) {
            return Some(AgentFault::PageLimit);
        }
        None
    }

    /// The name of this member's next drawop on a page, and `None` if the stream is full. All that it drew there is known.
    fn next_name(&self, page: &Page) -> Option<Name>
        ensures value { (c : AConfig) (made : ℕ) (past : List AnEntry) → AgentFits c made past self.now → result ≡ name_after (stream_on c.me page.now) (known past (stream_on c.me page.now)) }
        ensures own { IfSome result (λ name. name.stream.source ≡ self.now.config.me) }
    {
        let stream = Stream {
            source: self.config.me(),
            page: *page,
        };
        let known = self.store.known(stream);
        name_after(&stream, known)
    }

    /// Holds the drawop from this moment on, lets it wait to be sent, and gives its page a slot. Takes no memory.
    fn take_up(&mut self, page: &Page, moment: u64, drawop: Drawop, going: Item<Outgoing>)
        requires room { table_lacks_room self.old.pages page.now ≡ false }
        requires moment { moment ≤ LATEST_MOMENT }
        requires spellable { is_drawop drawop }
        requires ready { HavePlaces (drawop.name ∷ []) self.old.store }
        requires waiting { 0 < self.old.bucket.waiting.room }
        requires least { LEAST_LENGTH ≤ going.length }
        requires greatest { going.length ≤ GREATEST_LENGTH }
        requires own { IsOwn self.old.config.me self.old.config.session going.value }
        ensures rest { self.new ≡ record self.old { last = moment; pages = with_page self.old.pages page.now; store = self.new.store; bucket = self.new.bucket } }
        ensures store { HoldsToo drawop self.old.store self.new.store }
        ensures bucket { BucketAdds (Handed (record { class = New; item = going })) self.old.bucket self.new.bucket }
    {
        self.pages.add(*page);
        keep(&mut self.store, drawop);
        wait_to_go(&mut self.bucket, going);
        self.last = moment;
    }

    /// The entry of a draw that is done. Takes no memory.
    fn drew(&self, moment: u64, page: Page, body: Bytes, drawop: Drawop) -> Entry
        ensures { result ≡ drawn_entry self.now.config.me moment page body drawop self.now.state }
    {
        Entry {
            member: self.config.me(),
            moment,
            input: Input::Drew(page, body),
            verdict: Verdict::Done,
            effects: Effects {
                drawn: Some(drawop),
                arms: Items::new(Vec::new(self.alloc)),
                asks: Items::new(Vec::new(self.alloc)),
                fixes: Items::new(Vec::new(self.alloc)),
                outs: Items::new(Vec::new(self.alloc)),
                message: None,
                state: self.state,
            },
        }
    }
}

/// Adds new data behind the data that waits to be sent. Takes no memory.
fn wait_to_go(bucket: &mut Bucket<Outgoing>, going: Item<Outgoing>)
    requires room { 0 < bucket.old.waiting.room }
    requires least { LEAST_LENGTH ≤ going.length }
    requires greatest { going.length ≤ GREATEST_LENGTH }
    ensures adds { BucketAdds (Handed (record { class = New; item = going })) bucket.old bucket.new }
    ensures gains { Gains (record { class = New; item = going }) bucket.old.waiting bucket.new.waiting }
{
    bucket.hand(Class::New, going).unwrap();
}

/// The name after so many of a stream, and `None` if the stream is full.
fn name_after(stream: &Stream, count: u32) -> Option<Name>
    requires { count ≤ DRAWOPS }
    ensures value { result ≡ name_after stream.now count }
    ensures of { IfSome result (λ name. name.stream ≡ stream.now) }
{
    stream.at(count + 1)
}
