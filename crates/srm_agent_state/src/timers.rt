//! The request and repair timers of one member.

ghost use Rattle.std.specs.Prelude.{◌≡◌, ◌≤◌, [], true, IfOk, IsOk, OnErr, length};
ghost use Rattle.srm_names.specs.declared.limits.TheConstants.{LATEST_MOMENT};
ghost use Rattle.srm_names.specs.Names.{ascending, name_below};
ghost use Rattle.srm_timers.specs.AskCalls.{AskAdds, ArmsOfFound, DetectAndDueReady, sets};
ghost use Rattle.srm_deadlines.specs.Deadlines.{DueAmong};
ghost use Rattle.srm_timers.specs.Distances.{AreDistances};
ghost use Rattle.srm_agent_state.specs.TimersKept.{TimersFit, HaveSettings};
ghost use Rattle.srm_agent_state.specs.TimerCalls.{AreDueAsks, AreDueFixes, AsksRanOut, FixesRanOut, KeepSettings, RepairsNext, RequestsNext, TimersNext, TimersStay, WaitsAreChosen};

mod hearing;
mod requests;
mod ticking;

use srm_deadlines::lesser;
use srm_entries::Config;
use srm_names::Name;
use srm_timers::{Arm, Asks, Fixes, Tree, Words};
use std::alloc::{AllocError, Global};
use std::marker::Model;

/// The request and repair timers of one member, as its entries leave them. Contracts see both.
///
/// Moments are microseconds, at most 2^48, and distances microseconds, at most 10,000,000, by the member's number. After an error no timer
/// has changed, and no random number was consumed.
#[derive(Drop)]
pub struct Timers {
    alloc: Global,
    asks: Asks<Tree>,
    fixes: Fixes<Tree>,
}

impl Model for Timers {
    ghost use Rattle.srm_agent_state.specs.TimersKept.{TimersContent, timers_of};

    ghost Value = { TimersContent };

    ghost view = { timers_of };
}

impl Timers {
    /// Makes the timers of a member with these settings. None runs. Takes no memory.
    pub fn new(alloc: Global, config: &Config) -> Timers
        ensures fits { TimersFit config.now [] result }
        ensures settings { HaveSettings config.now result }
    {
        Timers {
            alloc,
            asks: Asks::new(alloc, Tree::new(alloc), config.c1(), config.c2()),
            fixes: Fixes::new(alloc, Tree::new(alloc), config.d1(), config.d2()),
        }
    }

    /// Returns the missing names whose request timers have expired at `now`, in order of name: those that a tick requests.
    ///
    /// Fails only if out of memory.
    #[tactic(auto, using(crate::proofs::Midway::asks_pending, crate::proofs::Midway::asks_due))]
    pub fn asks_that_ran_out(&self, now: u64) -> Result<Vec<Name>, AllocError>
        ensures pending { IfOk result (λ names. AsksRanOut now self.now names.items) }
        ensures rising { IfOk result (λ names. ascending name_below names.items ≡ true) }
        ensures among { IfOk result (λ names. DueAmong now self.now.asks.expiries.places names.items) }
        ensures due { IfOk result (λ names. AreDueAsks now self.now names.items) }
    {
        let names = Vec::new(self.alloc);
        self.asks.pending(now, names)
    }

    /// Returns the names whose repair timers have expired at `now`, in order of name: those that a tick repairs.
    ///
    /// Fails only if out of memory.
    #[tactic(auto, using(crate::proofs::Midway::fixes_pending, crate::proofs::Midway::fixes_due))]
    pub fn fixes_that_ran_out(&self, now: u64) -> Result<Vec<Name>, AllocError>
        ensures pending { IfOk result (λ names. FixesRanOut now self.now names.items) }
        ensures among { IfOk result (λ names. DueAmong now self.now.fixes.expiries.places names.items) }
        ensures due { IfOk result (λ names. AreDueFixes now self.now names.items) }
    {
        let names = Vec::new(self.alloc);
        self.fixes.pending(now, names)
    }

    /// Sets request timers for names, which rise, that were found missing, and returns them. The exponent is 1 for a name among `asked`, else
    /// 0. Consumes one random number for each.
    #[tactic(auto, using(crate::proofs::Midway::asks_stay, crate::proofs::Midway::waits_drawn, crate::proofs::RequestTimers::found_fits))]
    fn detect<W: Words>(
        &mut self,
        newly_missing: &[Name],
        asked: &[Name],
        dist: &[u64],
        now: u64,
        words: &mut W,
    ) -> Result<Vec<Arm>, AllocError>
        requires rising { ascending name_below newly_missing.now ≡ true }
        requires distances { AreDistances dist.now }
        requires now { now ≤ LATEST_MOMENT }
        ensures fits { IfOk result (λ arms. AskAdds (sets now arms.items) self.old.asks self.new.asks) }
        ensures arms { IfOk result (λ arms. ArmsOfFound newly_missing.now asked.now dist.now arms.items) }
        ensures few { IfOk result (λ arms. length arms.items ≤ length newly_missing.now) }
        ensures chosen { IfOk result (λ arms. WaitsAreChosen W.next_word self.old words.old arms.items words.new) }
        ensures fixes { self.new.fixes ≡ self.old.fixes }
        ensures kept { OnErr result (TimersStay self.old self.new) }
        ensures unchosen { OnErr result (words.new ≡ words.old) }
        ensures settings { KeepSettings self.old self.new }
        ensures room { DetectAndDueReady newly_missing.now self.old.asks → IsOk result }
    {
        let arms = self.asks.detect(newly_missing, asked, dist, now, words)?;
        Ok(arms)
    }

    /// Returns when the first request timer expires, in microseconds; `None` if none runs. Takes no memory.
    #[tactic(auto, using(crate::proofs::Midway::first_request))]
    pub fn next_request(&self) -> Option<u64>
        ensures { RequestsNext self.now result }
    {
        self.asks.next()
    }

    /// Returns when the first repair timer expires, in microseconds; `None` if none runs. Takes no memory.
    #[tactic(auto, using(crate::proofs::Midway::first_repair))]
    pub fn next_repair(&self) -> Option<u64>
        ensures { RepairsNext self.now result }
    {
        self.fixes.next()
    }

    /// Returns when the first timer expires, in microseconds; `None` if none runs. Takes no memory.
    #[tactic(auto, using(crate::proofs::Midway::first_of_both))]
    pub fn next_moment(&self) -> Option<u64>
        ensures { TimersNext self.now result }
    {
        lesser(self.asks.next(), self.fixes.next())
    }
}
