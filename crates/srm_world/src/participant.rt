//! One member of a world.

ghost use Rattle.std.specs.Prelude.{◌≡◌, ◌≤◌, [], Some, IfOk, OnErr};
ghost use Rattle.srm_names.specs.declared.limits.TheConstants.{LATEST_MOMENT};
ghost use Rattle.srm_world.specs.Participants.{ParticipantFits, GoesOn, ParticipantStays, last_with};

mod taking;
mod ticking;

use crate::lanes::Lanes;
use bytes::Bytes;
use srm_agent::{Agent, AgentState, Config, Entry, Input, Verdict};
use srm_names::Page;
use srm_timers::Words;
use std::alloc::{AllocError, Global};
use std::marker::Model;

/// One member of a world: its agent, and the messages that its page workers haven't taken yet.
///
/// Its calls return their entries. They fail only if out of memory, and then the member is as before, with no random number consumed.
#[derive(Drop)]
pub struct Participant<W: Words + Drop> {
    alloc: Global,
    agent: Agent<W>,
    config: Config,
    /// The last moment that counted, in microseconds.
    last: u64,
    state: AgentState,
    lanes: Lanes,
}

impl<W: Words + Drop> Model for Participant<W> {
    ghost use Rattle.srm_world.specs.Participants.{ParticipantContent, content_of};

    ghost Value = { ParticipantContent W };

    ghost view = { content_of };
}

impl<W: Words + Drop> Participant<W> {
    /// Makes a member at a moment, in microseconds, at most 2^48.
    pub fn new(
        alloc: Global,
        config: Config,
        words: W,
        now: u64,
    ) -> Result<Participant<W>, AllocError>
        requires { now ≤ LATEST_MOMENT }
        ensures fits { IfOk result (ParticipantFits config now []) }
        ensures words { IfOk result (λ participant. participant.agent.words ≡ words) }
    {
        // The lanes first, so that the proof follows no agent that is dropped.
        let lanes = Lanes::new(alloc)?;
        Ok(Participant {
            alloc,
            agent: Agent::new(alloc, config, words, now)?,
            config,
            last: now,
            state: AgentState::Active,
            lanes,
        })
    }

    /// Draws on a page, at a moment in microseconds.
    pub fn draw(&mut self, page: Page, body: Bytes, now: u64) -> Result<Entry, AllocError>
        requires { now ≤ LATEST_MOMENT }
        ensures ok { IfOk result (GoesOn W.next_word (Some now) (Input.Drew page body) self.old self.new) }
        ensures err { OnErr result (ParticipantStays self.old self.new) }
    {
        let entry = self.agent.draw_noted(page, body, now)?.entry;
        self.note(&entry);
        Ok(entry)
    }

    /// Shows a page, at a moment in microseconds.
    pub fn show(&mut self, page: Page, now: u64) -> Result<Entry, AllocError>
        requires { now ≤ LATEST_MOMENT }
        ensures ok { IfOk result (GoesOn W.next_word (Some now) (Input.Showed page) self.old self.new) }
        ensures err { OnErr result (ParticipantStays self.old self.new) }
    {
        let entry = self.agent.show_noted(page, now)?.entry;
        self.note(&entry);
        Ok(entry)
    }

    /// Begins to leave, at a moment in microseconds.
    pub fn leave(&mut self, now: u64) -> Result<Entry, AllocError>
        requires { now ≤ LATEST_MOMENT }
        ensures ok { IfOk result (GoesOn W.next_word (Some now) Input.AskedLeave self.old self.new) }
        ensures err { OnErr result (ParticipantStays self.old self.new) }
    {
        let entry = self.agent.leave_noted(now)?.entry;
        self.note(&entry);
        Ok(entry)
    }

    /// Notes the last moment that counted after an entry, and the state.
    fn note(&mut self, entry: &Entry)
        ensures { self.new ≡ record self.old { last = last_with self.old.last entry.now.verdict entry.now.moment; state = entry.now.effects.state } }
    {
        if !matches!(entry.verdict, Verdict::Refused(_)) {
            self.last = entry.moment;
        }
        self.state = entry.effects.state;
    }
}
