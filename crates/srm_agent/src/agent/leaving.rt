//! Beginning to leave.

ghost use Rattle.std.specs.Prelude.{◌≡◌, ◌≤◌, IfOk, OnErr, Ok, Some};
ghost use Rattle.srm_names.specs.declared.limits.TheConstants.{LATEST_MOMENT};
ghost use Rattle.srm_entries.specs.declared.state.AgentState.TheVariants.{Leaving};
ghost use Rattle.srm_agent.specs.Noting.{Enters, EntersWithoutEffects, AgentStays, AnswersAs, IsAllowed, HasEntry};

use super::Agent;
use crate::noted::Noted;
use srm_entries::{AgentFault, AgentState, Input};
use srm_timers::Words;
use std::alloc::AllocError;

impl<W: Words + Drop> Agent<W> {
    /// Begins to leave, and returns the entry. From now on draws fail, and the first tick that leaves no new data waiting sends the
    /// farewell. Moments are microseconds, at most 2^48.
    ///
    /// The answer is the first of these faults that holds: [`AgentFault::Gone`], [`AgentFault::Leaving`]. Such a call has an entry, and changes nothing. The call
    /// takes no memory, so `AllocError` is never returned.
    pub fn leave_noted(&mut self, now: u64) -> Result<Noted<()>, AllocError>
        requires { now ≤ LATEST_MOMENT }
        ensures ok { IfOk result (λ noted. Enters W.next_word (Some now) Input.AskedLeave self.old self.new noted.entry) }
        ensures answer { IfOk result (λ noted. AnswersAs (λ _. Unit {0}) noted.entry.verdict noted.answer) }
        ensures err { OnErr result (AgentStays self.old self.new) }
        ensures allowed { OnErr result (IsAllowed Input.AskedLeave self.old) }
    {
        let moment = self.moment(now);
        let answer = self.leave_at(moment);
        Ok(self.noted(moment, Input::AskedLeave, answer))
    }

    /// Begins to leave: [`leave_noted`](Agent::leave_noted) without the entry. Its faults are the same. It takes no memory.
    pub fn leave(&mut self, now: u64) -> Result<(), AgentFault>
        requires { now ≤ LATEST_MOMENT }
        ensures { HasEntry W.next_word (Some now) Input.AskedLeave (λ _ _. Unit {0}) self.old self.new result }
    {
        let moment = self.moment(now);
        self.leave_at(moment)
    }

    /// Begins to leave at a moment that isn't below the last one. Takes no memory.
    fn leave_at(&mut self, moment: u64) -> Result<(), AgentFault>
        requires later { self.old.last ≤ moment }
        requires moment { moment ≤ LATEST_MOMENT }
        ensures { EntersWithoutEffects W.next_word moment Input.AskedLeave self.old self.new result }
    {
        match self.state {
            AgentState::Gone => Err(AgentFault::Gone),
            AgentState::Leaving => Err(AgentFault::Leaving),
            AgentState::Active => {
                self.begin_to_leave(moment);
                Ok(())
            }
        }
    }

    /// Makes the member leave from this moment on.
    fn begin_to_leave(&mut self, moment: u64)
        requires { moment ≤ LATEST_MOMENT }
        ensures { self.new ≡ record self.old { state = Leaving; last = moment } }
    {
        self.state = AgentState::Leaving;
        self.last = moment;
    }
}
