//! When a tick next does something.

ghost use Rattle.std.specs.Prelude.{◌≡◌, ◌&&◌, ◌==◌, max, length};
ghost use Rattle.std.specs.Bool.{OnFalse, OnTrue};
ghost use Rattle.srm_bucket.specs.declared.class.Class.TheVariants.{New};
ghost use Rattle.srm_bucket.specs.Waiting.{queue};
ghost use Rattle.srm_deadlines.specs.Least.{lesser};
ghost use Rattle.srm_entries.specs.Entries.{is_leaving};
ghost use Rattle.srm_agent_state.specs.TimerCalls.{TimersNext};
ghost use Rattle.srm_agent.specs.Waking.{IsEarly, IsLate, IsNextAt, NextDue, session_message_next, sooner_of};

use super::Agent;
use srm_bucket::Class;
use srm_deadlines::lesser;
use srm_timers::Words;

impl<W: Words + Drop> Agent<W> {
    /// Returns when a tick next requests, repairs or sends something, in microseconds: a timer expires, the rate lets an item go that waits, or a session message is
    /// due. The farewell of a leaving member that has sent all that it drew is due at once.
    ///
    /// The moment isn't before the last one that counted. It may be past 2^48, the greatest that calls take: then no tick reaches it.
    /// `None` if this member is gone. Takes no memory and changes nothing.
    #[tactic(auto, using(crate::proofs::NextDue::never_due, crate::proofs::NextDue::first_due))]
    pub fn next_due(&self) -> Option<u64>
        ensures { NextDue self.now result }
    {
        if self.is_gone() {
            return None;
        }
        Some(self.last.max(self.next_at()))
    }

    /// Whether a tick at a moment, in microseconds, has nothing to do, for a member that isn't gone.
    #[tactic(auto, using(crate::proofs::NextDue::early, crate::proofs::NextDue::late))]
    pub(super) fn is_early(&self, moment: u64) -> bool
        ensures early { OnTrue result (IsEarly self.now moment) }
        ensures late { OnFalse result (IsLate self.now moment) }
    {
        moment < self.next_at()
    }

    /// When something is next due, for a member that isn't gone. It may be past.
    #[tactic(auto, using(crate::proofs::NextDue::soonest))]
    fn next_at(&self) -> u64
        ensures { IsNextAt self.now result }
    {
        let first = lesser(self.next_timer(), self.bucket.wait_until());
        sooner(first, self.next_session_message())
    }

    /// When the first timer expires.
    fn next_timer(&self) -> Option<u64>
        ensures { TimersNext self.now.timers result }
    {
        self.timers.next_moment()
    }

    /// From when on a tick ends with a session message or a farewell, if nothing else happens before.
    fn next_session_message(&self) -> u64
        ensures { result ≡ session_message_next self.now }
    {
        if self.is_parting() {
            return self.last;
        }
        self.due
    }

    /// Whether this member is leaving, and no data that it drew waits.
    fn is_parting(&self) -> bool
        ensures { result ≡ is_leaving self.now.state && (length (queue self.now.bucket.waiting New) == 0) }
    {
        self.is_leaving() && self.bucket.waiting(Class::New) == 0
    }
}

/// The sooner of two moments; the second, if there is no first.
fn sooner(first: Option<u64>, second: u64) -> u64
    ensures { result ≡ sooner_of first second }
{
    match first {
        Some(first) => first.min(second),
        None => second,
    }
}
