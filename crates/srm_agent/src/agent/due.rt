//! What is due at a moment.

ghost use Rattle.std.specs.Prelude.{◌≡◌, ◌≤◌, true, IfOk};
ghost use Rattle.srm_names.specs.declared.limits.TheConstants.{LATEST_MOMENT};
ghost use Rattle.srm_names.specs.Names.{ascending, name_below};
ghost use Rattle.srm_agent.specs.DueItems.{DueItems};
ghost use Rattle.srm_entries.specs.Entries.{is_leaving};
ghost use Rattle.srm_agent.specs.Ticking.{IsDue, IsSessionMessageAt, IsSessionMessageIf, IsToHandOut};

use super::Agent;
use srm_entries::AgentState;
use srm_names::{Items, Name};
use srm_outbox::{DueItem, Outgoing, requests_and_repairs, spelled};
use srm_timers::Words;
use std::alloc::{AllocError, Global};
use std::collections::VecDeque;

/// What is due at a moment, made before anything changes.
#[derive(Drop)]
pub(super) struct Due {
    /// The names whose timers have expired.
    pub handed_out: HandedOut,
    /// The requests and the repairs for them.
    pub due_items: VecDeque<DueItem>,
    /// The farewell of a leaving member, which goes once no new data waits.
    pub farewell: Option<DueSessionMessage>,
    /// The session message, if one is due.
    pub session_message: Option<DueSessionMessage>,
}

/// The names whose timers have expired.
#[derive(Drop)]
pub(super) struct HandedOut {
    /// The names to request, in order.
    pub asks: Items<Name>,
    /// The names to repair, in order.
    pub fixes: Items<Name>,
}

impl HandedOut {
    /// Copies the names. Fails only if out of memory.
    pub(super) fn copy(&self, alloc: Global) -> Result<HandedOut, AllocError>
        ensures { IfOk result (λ copy. copy ≡ self.now) }
    {
        Ok(HandedOut {
            asks: Items::new(Vec::from_slice(alloc, self.asks.as_slice())?),
            fixes: Items::new(Vec::from_slice(alloc, self.fixes.as_slice())?),
        })
    }
}

/// A session message or a farewell.
#[derive(Drop)]
pub(super) struct DueSessionMessage {
    /// The message, spelled.
    pub outgoing: Outgoing,
    /// When the next one is due after it, in microseconds.
    pub next: u64,
}

impl<W: Words + Drop> Agent<W> {
    /// What is due at a moment, in microseconds, to a member that isn't gone. Fails only if out of memory.
    pub(super) fn due_at(&self, moment: u64) -> Result<Due, AllocError>
        requires { moment ≤ LATEST_MOMENT }
        ensures { IfOk result (IsDue self.now moment) }
    {
        let handed_out = self.to_hand_out(moment)?;
        let due_items = self.due_items(handed_out.asks.as_slice(), handed_out.fixes.as_slice())?;
        let farewell = self.session_message_if(self.is_leaving(), true, moment)?;
        let session_message = self.session_message_if(self.due <= moment, false, moment)?;
        Ok(Due {
            handed_out,
            due_items,
            farewell,
            session_message,
        })
    }

    /// The names whose timers have expired at a moment. Fails only if out of memory.
    fn to_hand_out(&self, moment: u64) -> Result<HandedOut, AllocError>
        ensures { IfOk result (IsToHandOut self.now moment) }
    {
        let asks = self.timers.asks_that_ran_out(moment)?;
        let fixes = self.timers.fixes_that_ran_out(moment)?;
        Ok(HandedOut {
            asks: Items::new(asks),
            fixes: Items::new(fixes),
        })
    }

    pub(super) fn is_leaving(&self) -> bool
        ensures { result ≡ is_leaving self.now.state }
    {
        matches!(self.state, AgentState::Leaving)
    }

    /// The session message or the farewell of a moment, if it is wanted. Fails only if out of memory.
    fn session_message_if(
        &self,
        is_wanted: bool,
        farewell: bool,
        moment: u64,
    ) -> Result<Option<DueSessionMessage>, AllocError>
        requires { moment ≤ LATEST_MOMENT }
        ensures { IfOk result (IsSessionMessageIf is_wanted self.now moment farewell) }
    {
        if is_wanted {
            Ok(Some(self.session_message_at(farewell, moment)?))
        } else {
            Ok(None)
        }
    }

    /// The session message or the farewell of a moment. Fails only if out of memory.
    fn session_message_at(
        &self,
        farewell: bool,
        moment: u64,
    ) -> Result<DueSessionMessage, AllocError>
        requires { moment ≤ LATEST_MOMENT }
        ensures { IfOk result (IsSessionMessageAt self.now moment farewell) }
    {
        let outgoing = self.session_message(farewell, moment)?;
        let next = moment + self.session_interval(&outgoing.out.datagram);
        Ok(DueSessionMessage { outgoing, next })
    }

    /// The requests for `asks`, then the repairs of those of `fixes` that are held: encoded, each with its class while this page is
    /// shown. Fails only if out of memory.
    fn due_items(&self, asks: &[Name], fixes: &[Name]) -> Result<VecDeque<DueItem>, AllocError>
        requires { ascending name_below asks.now ≡ true }
        ensures { IfOk result (λ due_items. DueItems self.now asks.now fixes.now due_items.items) }
    {
        let me = self.config.me();
        let session = self.config.session();
        let datagrams = requests_and_repairs(self.alloc, me, &self.store, asks, fixes)?;
        spelled(self.alloc, me, session, &self.showing, datagrams)
    }
}
