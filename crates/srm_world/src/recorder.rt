//! An agent that keeps its journal.

ghost use Rattle.std.specs.Prelude.{◌≡◌, ◌≤◌, ◌<◌, [], map, Some, None, IfOk};
ghost use Rattle.srm_names.specs.declared.limits.TheConstants.{LATEST_MOMENT, LONGEST_DISTANCE, PAGES};
ghost use Rattle.srm_agent.specs.Noting.{IsDrawnName, IsTicked};
ghost use Rattle.srm_entries.specs.Promises.{page_to_come, IsNextDue};
ghost use Rattle.srm_entries.specs.Distances.{distance};
ghost use Rattle.srm_entries.specs.Entries.{state};
ghost use Rattle.srm_entries.specs.Admitting.{AdmitsDraw, AdmitsDrawFrom};
ghost use Rattle.srm_world.specs.Claims.{IsLawfulJournal};
ghost use Rattle.srm_world.specs.Recording.{Records, RecordsHeard, RecordsAll};
ghost use Rattle.srm_world.specs.WaitWords.{RecordsByWords};

mod asking;

use crate::forgotten::Forgotten;
use crate::history::History;
use crate::journal::Journal;
use crate::past::Past;
use crate::start::Start;
use bytes::Bytes;
use srm_agent::{Agent, AgentFault, AgentState, Config, Entry, Heard, Input, Noted, Ticked};
use srm_agent_state::page_in_range;
use srm_names::{Member, Name, Page, PageMsg};
use srm_timers::Words;
use srm_wire::WireCounts;
use std::alloc::{AllocError, Global};
use std::marker::Model;

/// An agent that keeps its journal. Its calls do and return what the agent's do, and append their entries to a [`Past`].
///
/// A call makes room for its entry first, so [`AgentFault::Memory`] may come before another fault. On `Memory` the call has no entry, and
/// the journal is unchanged. A call with another fault has an entry that says so.
///
/// Contracts see the journal, whatever the [`Past`] stores, the state of the generator of random numbers, and how the record begins that the [`Past`] is written to, if it is written to one.
#[derive(Drop)]
pub struct Recorder<W: Words + Drop, P: Past<Entry> + Drop = Vec<Entry>> {
    agent: Agent<W>,
    start: Start,
    past: P,
}

impl<W: Words + Drop, P: Past<Entry> + Drop> Model for Recorder<W, P> {
    ghost use Rattle.srm_world.specs.WaitWords.{RecorderView};
    ghost use Rattle.srm_world.specs.Recorders.{journal_of, recorder_view, IsKept};

    ghost Value = { RecorderView W };

    ghost view = { λ r. recorder_view r.start (P.appended r.past) (P.begins r.past) r.agent };

    ghost invariant = { λ r. IsKept (journal_of r.start (P.appended r.past)) r.agent };
}

impl<W: Words + Drop> Recorder<W> {
    /// Makes an agent at a moment, in microseconds, at most 2^48, with an empty journal that stores all entries. `words` are its random
    /// numbers.
    ///
    /// Fails only if out of memory.
    pub fn new(alloc: Global, config: Config, words: W, now: u64) -> Result<Recorder<W>, AllocError>
        requires { now ≤ LATEST_MOMENT }
        ensures value { IfOk result (λ recorder. recorder ≡ record { journal = record { start = record { config = config; made = now }; entries = [] }; words = words; begins = None }) }
    {
        Recorder::with_past(alloc, config, words, now, Vec::new(alloc))
    }

    /// Returns the entries so far, oldest first. Takes no memory.
    pub fn entries(&self) -> &[Entry]
        ensures { result.now ≡ self.now.journal.entries }
    {
        self.past.as_slice()
    }
}

impl<W: Words + Drop> Recorder<W, Forgotten<Entry>> {
    /// Makes an agent at a moment, in microseconds, at most 2^48, that stores no entries, for a member that runs for days. Its calls have
    /// the same contracts.
    ///
    /// Fails only if out of memory.
    pub fn forgetful(
        alloc: Global,
        config: Config,
        words: W,
        now: u64,
    ) -> Result<Recorder<W, Forgotten<Entry>>, AllocError>
        requires { now ≤ LATEST_MOMENT }
        ensures value { IfOk result (λ recorder. recorder ≡ record { journal = record { start = record { config = config; made = now }; entries = [] }; words = words; begins = None }) }
    {
        Recorder::with_past(alloc, config, words, now, Forgotten::new())
    }
}

impl<W: Words + Drop, P: Past<Entry> + Drop> Recorder<W, P> {
    /// Makes an agent at a moment, in microseconds, at most 2^48, that appends its entries to a history of the caller's, which is empty.
    ///
    /// Fails only if out of memory.
    pub fn with_past(
        alloc: Global,
        config: Config,
        words: W,
        now: u64,
        past: P,
    ) -> Result<Recorder<W, P>, AllocError>
        requires moment { now ≤ LATEST_MOMENT }
        requires past { P.appended past ≡ [] }
        ensures value { IfOk result (λ recorder. recorder ≡ record { journal = record { start = record { config = config; made = now }; entries = [] }; words = words; begins = P.begins past }) }
    {
        Ok(Recorder {
            agent: Agent::new(alloc, config, words, now)?,
            start: Start { config, made: now },
            past,
        })
    }

    /// Returns the name of this member's next page, as [`Agent::new_page`] does. Has no entry.
    pub fn new_page(&self) -> Option<Page>
        ensures { result ≡ page_to_come self.now.journal.start.config self.now.journal.entries }
    {
        self.agent.new_page()
    }

    /// Returns when a tick next does something, in microseconds, as [`Agent::next_due`] does. Has no entry.
    pub fn next_due(&self) -> Option<u64>
        ensures { IsNextDue self.now.journal.start.config self.now.journal.start.made self.now.journal.entries result }
    {
        self.agent.next_due()
    }

    /// Returns the distance to a member in microseconds, as [`Agent::distance`] does. Has no entry.
    pub fn distance(&self, member: Member) -> u64
        ensures value { result ≡ distance self.now.journal.start.config self.now.journal.entries member }
        ensures longest { result ≤ LONGEST_DISTANCE }
    {
        self.agent.distance(member)
    }

    /// Returns whether the member is active, leaving or gone, as [`Agent::state`] does. Has no entry.
    pub fn state(&self) -> AgentState
        ensures { result ≡ state self.now.journal.entries }
    {
        self.agent.state()
    }

    /// Draws on a page, and returns the name of the new drawop, as [`Agent::draw`] does, with its faults. [`AgentFault::Memory`] may come before another: the entry
    /// takes memory.
    #[tactic(auto, using(crate::proofs::Journaling::records_drawn, crate::proofs::Wording::no_words_recorded, crate::proofs::Journaling::kept_same, crate::proofs::Journaling::entries_same))]
    pub fn draw(&mut self, page: Page, body: Bytes, now: u64) -> Result<Name, AgentFault>
        requires { now ≤ LATEST_MOMENT }
        ensures records { Records (Some now) (Input.Drew page body) IsDrawnName self.old.journal self.new.journal result }
        ensures words { RecordsByWords W.next_word self.old self.new }
        ensures lawful { IsLawfulJournal self.new.journal }
    {
        let drawn_on = page;
        page_in_range(drawn_on);
        self.past.make_room()?;
        let Noted { answer, entry } = self.agent.draw_noted(page, body, now)?;
        self.past.append(entry);
        answer
    }

    /// Shows a page, as [`Agent::show`] does. Its entry takes memory, so it can fail with [`AgentFault::Memory`].
    pub fn show(&mut self, page: Page, now: u64) -> Result<(), AgentFault>
        requires { now ≤ LATEST_MOMENT }
        ensures records { Records (Some now) (Input.Showed page) (λ _ _. Unit {0}) self.old.journal self.new.journal result }
        ensures words { RecordsByWords W.next_word self.old self.new }
        ensures lawful { IsLawfulJournal self.new.journal }
    {
        let shown = page;
        page_in_range(shown);
        self.past.make_room()?;
        let Noted { answer, entry } = self.agent.show_noted(page, now)?;
        self.past.append(entry);
        answer
    }

    /// Hears bytes that came over the network, and returns what became of them, as [`Agent::hear`] does. It may fail with
    /// [`AgentFault::Memory`] on noise too, whose entry takes memory.
    #[tactic(auto, using(crate::proofs::Journaling::records_heard))]
    pub fn hear(&mut self, bytes: &[u8], now: u64) -> Result<Heard, AgentFault>
        requires { now ≤ LATEST_MOMENT }
        ensures records { RecordsHeard now bytes.now self.old.journal self.new.journal result }
        ensures words { RecordsByWords W.next_word self.old self.new }
        ensures lawful { IsLawfulJournal self.new.journal }
    {
        self.past.make_room()?;
        let Noted { answer, entry } = self.agent.hear_noted(bytes, now)?;
        self.past.append(entry);
        answer
    }

    /// Hears each of these datagrams in order, at one moment, as [`hear`](Recorder::hear) does. Noise and ignored datagrams don't stop
    /// it.
    ///
    /// Fails only with [`AgentFault::Memory`]: then it has heard those before the one that memory ran out for, and no others.
    pub fn hear_all(&mut self, datagrams: &[Vec<u8>], now: u64) -> Result<(), AgentFault>
        requires { now ≤ LATEST_MOMENT }
        ensures records { RecordsAll now (map (λ bytes. bytes.items) datagrams.now) self.old.journal self.new.journal result }
        ensures words { RecordsByWords W.next_word self.old self.new }
        ensures lawful { IsLawfulJournal self.new.journal }
    {
        let _ = &self.past;
        for bytes in datagrams {
            self.hear(bytes, now)?;
        }
        Ok(())
    }

    /// Does what is due at a moment, and returns it, as [`Agent::tick`] does. It may fail with [`AgentFault::Memory`] with nothing due
    /// too: its entry takes memory.
    #[tactic(auto, using(crate::proofs::Journaling::records_ticked, crate::proofs::Wording::no_words_recorded, crate::proofs::Journaling::kept_same, crate::proofs::Journaling::entries_same))]
    pub fn tick(&mut self, now: u64) -> Result<Ticked, AgentFault>
        requires { now ≤ LATEST_MOMENT }
        ensures records { Records (Some now) Input.Ticked (IsTicked self.old.journal.start.config.session) self.old.journal self.new.journal result }
        ensures words { RecordsByWords W.next_word self.old self.new }
        ensures lawful { IsLawfulJournal self.new.journal }
    {
        self.past.make_room()?;
        let Noted { answer, entry } = self.agent.tick_noted(now)?;
        self.past.append(entry);
        answer
    }

    /// Begins to leave, as [`Agent::leave`] does. Its entry takes memory, so it can fail with [`AgentFault::Memory`].
    pub fn leave(&mut self, now: u64) -> Result<(), AgentFault>
        requires { now ≤ LATEST_MOMENT }
        ensures records { Records (Some now) Input.AskedLeave (λ _ _. Unit {0}) self.old.journal self.new.journal result }
        ensures words { RecordsByWords W.next_word self.old self.new }
        ensures lawful { IsLawfulJournal self.new.journal }
    {
        self.past.make_room()?;
        let Noted { answer, entry } = self.agent.leave_noted(now)?;
        self.past.append(entry);
        answer
    }

    /// Gives the next message of a page slot, 0 to 7, as [`Agent::give`] does. It may fail with [`AgentFault::Memory`] with nothing to give too: its entry takes
    /// memory.
    pub fn give(&mut self, slot: u8) -> Result<Option<PageMsg>, AgentFault>
        requires { slot < PAGES }
        ensures records { Records None (Input.Gave slot) (λ e message. message ≡ e.effects.message) self.old.journal self.new.journal result }
        ensures words { RecordsByWords W.next_word self.old self.new }
        ensures lawful { IsLawfulJournal self.new.journal }
    {
        self.past.make_room()?;
        let Noted { answer, entry } = self.agent.give_noted(slot)?;
        self.past.append(entry);
        answer
    }

    /// Returns whether the rate would let a draw go at once, as [`Agent::admits_draw`] says. Has no entry.
    pub fn admits_draw(&self, body_length: usize, now: u64) -> bool
        ensures { AdmitsDraw self.now.journal.start.config self.now.journal.start.made self.now.journal.entries body_length now result }
    {
        self.agent.admits_draw(body_length, now)
    }

    /// Returns from when on the rate would let a draw go at once, as [`Agent::admits_draw_from`] does. Has no entry.
    pub fn admits_draw_from(&self, body_length: usize) -> Option<u64>
        ensures { AdmitsDrawFrom self.now.journal.start.config self.now.journal.start.made self.now.journal.entries body_length result }
    {
        self.agent.admits_draw_from(body_length)
    }

    /// Lets the history see the member at the end of a turn, and what its wire has counted so far, as [`Past::turned`] says. Has no entry, and draws no random number.
    #[tactic(auto, using(crate::proofs::Journaling::entries_same))]
    pub fn turned(&mut self, counts: &WireCounts)
        ensures { self.new ≡ self.old }
    {
        self.past.turned(&self.agent, counts);
    }

    /// Returns the entries so far, as they are stored. Takes no memory.
    pub fn past(&self) -> &P
        ensures entries { P.appended result.now ≡ self.now.journal.entries }
        ensures begins { P.begins result.now ≡ self.now.begins }
    {
        &self.past
    }

    /// Ends the recorder, and returns how its member began and its history, as it is stored. Takes no memory.
    pub fn into_history(self) -> History<P>
        ensures journal { result.journal ≡ self.journal }
        ensures begins { result.begins ≡ self.begins }
        ensures lawful { IsLawfulJournal result.journal }
    {
        History {
            start: self.start,
            past: self.past,
        }
    }

    /// Ends the recorder, and returns its journal. Takes no memory.
    pub fn finish(self) -> Journal<P>
        ensures value { result ≡ self.journal }
        ensures lawful { IsLawfulJournal result }
    {
        Journal {
            start: self.start,
            past: self.past,
        }
    }
}
