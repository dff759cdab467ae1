//! Setting the timers of the requests and repairs that are due.

ghost use Rattle.std.specs.Prelude.{◌≡◌, ◌≤◌, true, IfOk, OnErr};
ghost use Rattle.srm_names.specs.declared.limits.TheConstants.{LATEST_MOMENT};
ghost use Rattle.srm_agent_state.specs.TimerCalls.{AreDueAsks, AreDueFixes, TimersStay};
ghost use Rattle.srm_agent.specs.Ticking.{HandsOut};

use super::Agent;
use super::due::HandedOut;
use super::noting::{note_arms, room_to_note};
use srm_agent_state::distance_table;
use srm_names::Items;
use srm_timers::{Arm, Words};
use std::alloc::AllocError;

impl<W: Words + Drop> Agent<W> {
    /// Sets the expired request timers again, and ends the expired repair timers. Returns the timers that were set, and a copy for the
    /// entry if that is noted.
    ///
    /// Fails only if out of memory: no timer has changed, and no random number was consumed.
    pub(super) fn hand_out(
        &mut self,
        due: &HandedOut,
        notes: bool,
        moment: u64,
    ) -> Result<(Items<Arm>, Items<Arm>), AllocError>
        requires asks { AreDueAsks moment self.old.timers due.now.asks }
        requires fixes { AreDueFixes moment self.old.timers due.now.fixes }
        requires moment { moment ≤ LATEST_MOMENT }
        ensures ok { IfOk result (λ arms. HandsOut W.next_word self.old due.now moment arms.0 self.new) }
        ensures noted { IfOk result (λ arms. notes ≡ true → arms.1 ≡ arms.0) }
        ensures rest { self.new ≡ record self.old { timers = self.new.timers; words = self.new.words } }
        ensures timers { OnErr result (TimersStay self.old.timers self.new.timers) }
        ensures words { OnErr result (self.new.words ≡ self.old.words) }
    {
        let asks = due.asks.as_slice();
        let fixes = due.fixes.as_slice();
        let mut noted = room_to_note(self.alloc, notes, asks.len())?;
        let dist = distance_table(&self.distances);
        let arms = self
            .timers
            .tick(asks, fixes, dist, moment, &mut self.words)?;
        note_arms(&mut noted, notes, &arms);
        Ok((Items::new(arms), Items::new(noted)))
    }
}
