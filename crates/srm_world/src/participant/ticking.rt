//! What comes to a member, and what it sends.

ghost use Rattle.std.specs.Prelude.{◌≡◌, ◌≤◌, Some, IfOk, OnErr};
ghost use Rattle.srm_names.specs.declared.limits.TheConstants.{LATEST_MOMENT};
ghost use Rattle.srm_agent.specs.Noting.{Enters, AgentStays, AnswersAs, IsTicked};
ghost use Rattle.srm_world.specs.Participants.{GoesOn, ParticipantStays, HearsBytes, SendsOuts};

use super::Participant;
use srm_agent::{AgentFault, Entry, Input, Noted, Out, Ticked};
use srm_names::Items;
use srm_timers::Words;
use std::alloc::AllocError;

impl<W: Words + Drop> Participant<W> {
    /// Hears bytes that came from another member, at a moment in microseconds.
    pub fn hear(&mut self, bytes: &[u8], now: u64) -> Result<Entry, AllocError>
        requires { now ≤ LATEST_MOMENT }
        ensures ok { IfOk result (λ e. GoesOn W.next_word (Some now) e.input self.old self.new e) }
        ensures reading { IfOk result (HearsBytes bytes.now self.old) }
        ensures err { OnErr result (ParticipantStays self.old self.new) }
    {
        // The bytes are read in the session of this number, which is below 2^32.
        let _session = self.config.session();
        let entry = self.agent.hear_noted(bytes, now)?.entry;
        self.note(&entry);
        Ok(entry)
    }

    /// Does what is due at a moment, in microseconds, and returns the entry and the datagrams for all others, with their bytes.
    pub fn tick(&mut self, now: u64) -> Result<(Entry, Items<Out>), AllocError>
        requires { now ≤ LATEST_MOMENT }
        ensures ok { IfOk result (λ sent. GoesOn W.next_word (Some now) Input.Ticked self.old self.new sent.0) }
        ensures outs { IfOk result (λ sent. SendsOuts self.old sent.0 sent.1) }
        ensures err { OnErr result (ParticipantStays self.old self.new) }
    {
        let Noted { answer, entry } = self.tick_agent(now)?;
        self.note(&entry);
        Ok((entry, self.outs_of(answer)))
    }

    /// The agent's tick, with its entry. Fails only if out of memory.
    fn tick_agent(&mut self, now: u64) -> Result<Noted<Ticked>, AllocError>
        requires { now ≤ LATEST_MOMENT }
        ensures rest { self.new ≡ record self.old { agent = self.new.agent } }
        ensures ok { IfOk result (λ noted. Enters W.next_word (Some now) Input.Ticked self.old.agent self.new.agent noted.entry) }
        ensures answer { IfOk result (λ noted. AnswersAs (IsTicked self.old.agent.config.session noted.entry) noted.entry.verdict noted.answer) }
        ensures err { OnErr result (AgentStays self.old.agent self.new.agent) }
    {
        self.agent.tick_noted(now)
    }

    /// What the tick sends. A tick that has an entry doesn't fail.
    fn outs_of(&self, answer: Result<Ticked, AgentFault>) -> Items<Out>
        ensures { IfOk answer (λ ticked. result ≡ ticked.outs) }
    {
        match answer {
            Ok(ticked) => ticked.outs,
            Err(_) => Items::new(Vec::new(self.alloc)),
        }
    }
}
