//! What page workers are given, and what they take.

ghost use Rattle.std.specs.Prelude.{◌≡◌, ◌<◌, None, IfOk, OnErr};
ghost use Rattle.srm_names.specs.declared.limits.TheConstants.{PAGES};
ghost use Rattle.srm_entries.specs.declared.entry.Verdict.TheVariants.{Done};
ghost use Rattle.srm_entries.specs.Still.{entry_without_effects};
ghost use Rattle.srm_world.specs.Participants.{GoesOn, ParticipantStays};

use super::Participant;
use srm_agent::{AgentFault, Entry, Input, Noted, Verdict};
use srm_names::PageMsg;
use srm_timers::Words;
use std::alloc::AllocError;

impl<W: Words + Drop> Participant<W> {
    /// Gives the next message of a page slot, 0 to 7, to its worker.
    pub fn give(&mut self, slot: u8) -> Result<Entry, AllocError>
        requires { slot < PAGES }
        ensures ok { IfOk result (GoesOn W.next_word None (Input.Gave slot) self.old self.new) }
        ensures err { OnErr result (ParticipantStays self.old self.new) }
    {
        self.lanes.reserve(slot)?;
        let Noted { answer, entry } = self.agent.give_noted(slot)?;
        self.lanes.give(slot, message_of(answer));
        self.note(&entry);
        Ok(entry)
    }

    /// Lets the worker of a page slot, 0 to 7, take the next message that it was given, if there is one. Takes no memory, and can't fail.
    pub fn take(&mut self, slot: u8) -> Entry
        requires { slot < PAGES }
        ensures { GoesOn W.next_word None (Input.Took slot) self.old self.new result }
    {
        let message = self.lanes.take(slot);
        self.took(slot, message)
    }

    /// The entry of a take.
    fn took(&self, slot: u8, message: Option<PageMsg>) -> Entry
        ensures { result ≡ entry_without_effects self.now.config.me self.now.last (Input.Took slot) Done message self.now.state }
    {
        Entry::without_effects(
            self.alloc,
            self.config.me(),
            self.last,
            Input::Took(slot),
            Verdict::Done,
            message,
            self.state,
        )
    }
}

/// The message that was given. A give that has an entry doesn't fail.
fn message_of(answer: Result<Option<PageMsg>, AgentFault>) -> Option<PageMsg>
    ensures { IfOk answer (λ message. result ≡ message) }
{
    match answer {
        Ok(message) => message,
        Err(_) => None,
    }
}
