//! Entries: what one call of an agent was given, and what it did.

ghost use Rattle.std.specs.Prelude.{◌≡◌};
ghost use Rattle.std.specs.Option.{option_copied};
ghost use Rattle.srm_entries.specs.Entries.{accepted};
ghost use Rattle.srm_entries.specs.Effects.{becomes_gone};
ghost use Rattle.srm_entries.specs.Still.{entry_without_effects};

use crate::cause::Cause;
use crate::fault::AgentFault;
use crate::state::AgentState;
use bytes::Bytes;
use srm_codec::Datagram;
use srm_names::{Drawop, Items, Member, Name, Page, PageMsg};
use srm_timers::Arm;
use std::alloc::Global;

/// What a call was given.
#[derive(Debug, Drop)]
pub enum Input {
    /// A body was drawn on a page.
    Drew(Page, Bytes),
    /// A datagram came. The verdict says whether it was accepted.
    Heard(Datagram),
    /// Bytes came that spell no datagram of the session, or that came to a member that is gone.
    Noise,
    /// The caller let the member do what was due.
    Ticked,
    /// A page was shown.
    Showed(Page),
    /// The member was asked to leave.
    AskedLeave,
    /// The caller asked for the next message of a page slot, 0 to 7.
    Gave(u8),
    /// The worker of a page slot, 0 to 7, took its next message.
    Took(u8),
}

/// What became of a call.
#[derive(Clone, Copy, Debug, PartialEq, Eq)]
pub enum Verdict {
    /// The call was done; a datagram was accepted.
    Done,
    /// The datagram was ignored. Nothing but the last moment changed.
    Ignored(Cause),
    /// Nothing changed, the last moment too.
    Refused(AgentFault),
}

/// What a call did.
#[derive(Debug, Drop)]
pub struct Effects {
    /// The drawop that was drawn, if the call drew one.
    pub drawn: Option<Drawop>,
    /// The timers that were set, in order of name.
    pub arms: Items<Arm>,
    /// The names that were requested, in order.
    pub asks: Items<Name>,
    /// The names that were repaired, in order.
    pub fixes: Items<Name>,
    /// What was sent, in this order.
    pub outs: Items<Datagram>,
    /// What was given or taken.
    pub message: Option<PageMsg>,
    /// Whether the member takes part after it.
    pub state: AgentState,
}

impl Effects {
    /// Returns whether the member sent its farewell by this. A gone member sends nothing more.
    pub fn becomes_gone(&self) -> bool
        ensures { result ≡ becomes_gone self.now }
    {
        matches!(self.state, AgentState::Gone) && !self.outs.as_slice().is_empty()
    }
}

/// One call of one member's agent.
#[derive(Debug, Drop)]
pub struct Entry {
    /// The member whose agent was called.
    pub member: Member,
    /// The moment that counted, in microseconds; for a give or a take the last one.
    pub moment: u64,
    /// What the call was given.
    pub input: Input,
    /// What became of the call.
    pub verdict: Verdict,
    /// What the call did.
    pub effects: Effects,
}

impl Entry {
    /// Makes an entry without effects, but perhaps with a message, at a moment in microseconds. Takes no memory.
    pub fn without_effects(
        alloc: Global,
        member: Member,
        moment: u64,
        input: Input,
        verdict: Verdict,
        message: Option<PageMsg>,
        state: AgentState,
    ) -> Entry
        ensures { result ≡ entry_without_effects member moment input verdict message state }
    {
        Entry {
            member,
            moment,
            input,
            verdict,
            effects: Effects {
                drawn: None,
                arms: Items::new(Vec::new(alloc)),
                asks: Items::new(Vec::new(alloc)),
                fixes: Items::new(Vec::new(alloc)),
                outs: Items::new(Vec::new(alloc)),
                message,
                state,
            },
        }
    }

    /// Returns the datagram, if one was heard and accepted.
    pub fn accepted(&self) -> Option<&Datagram>
        ensures { option_copied result ≡ accepted self.now }
    {
        match (&self.verdict, &self.input) {
            (Verdict::Done, Input::Heard(datagram)) => Some(datagram),
            _ => None,
        }
    }
}
