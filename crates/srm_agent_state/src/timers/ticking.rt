//! What a tick does to the timers.

ghost use Rattle.std.specs.Prelude.{◌≡◌, ◌≤◌, length, IfOk, OnOk, OnErr};
ghost use Rattle.srm_names.specs.declared.limits.TheConstants.{LATEST_MOMENT};
ghost use Rattle.srm_timers.specs.FixCalls.{FixStays};
ghost use Rattle.srm_deadlines.specs.Places.{HasPlaces};
ghost use Rattle.srm_timers.specs.Distances.{AreDistances};
ghost use Rattle.srm_agent_state.specs.TimerCalls.{AreDueAsks, AreDueFixes, KeepSettings, TimersTick, TimersStay, WaitsAreChosen};

use super::Timers;
use srm_names::Name;
use srm_timers::{Arm, Words};
use std::alloc::AllocError;

impl Timers {
    /// Makes room for repairs of these names. No timer changes. Fails only if out of memory.
    #[tactic(auto, using(crate::proofs::Midway::fixes_stay, crate::proofs::Midway::fixes_keep))]
    fn room_to_repair(&mut self, names: &[Name]) -> Result<(), AllocError>
        ensures kept { TimersStay self.old self.new }
        ensures asks { self.new.asks ≡ self.old.asks }
        ensures fixes { FixStays self.old.fixes self.new.fixes }
        ensures settings { KeepSettings self.old self.new }
        ensures places { OnOk result (HasPlaces names.now self.new.fixes.held_off) }
    {
        self.fixes.room_to_hold_off(names)
    }

    /// Notes that a tick requests `asks` and repairs `fixes`: the names that [`asks_that_ran_out`](Timers::asks_that_ran_out) and
    /// [`fixes_that_ran_out`](Timers::fixes_that_ran_out) return at `now`. Sets the request timers again, one exponent higher, and returns them.
    /// The repair timers are gone, and their names held off. Consumes one random number for each timer that is set.
    ///
    /// Fails only if out of memory.
    #[tactic(auto, using(crate::proofs::Midway::asks_stay, crate::proofs::Midway::stay_on))]
    pub fn tick<W: Words>(
        &mut self,
        asks: &[Name],
        fixes: &[Name],
        dist: &[u64],
        now: u64,
        words: &mut W,
    ) -> Result<Vec<Arm>, AllocError>
        requires asks { AreDueAsks now self.old asks.now }
        requires fixes { AreDueFixes now self.old fixes.now }
        requires distances { AreDistances dist.now }
        requires now { now ≤ LATEST_MOMENT }
        ensures ticks { IfOk result (λ arms. TimersTick asks.now fixes.now dist.now now arms.items self.old self.new) }
        ensures few { IfOk result (λ arms. length arms.items ≤ length asks.now) }
        ensures chosen { IfOk result (λ arms. WaitsAreChosen W.next_word self.old words.old arms.items words.new) }
        ensures kept { OnErr result (TimersStay self.old self.new) }
        ensures unchosen { OnErr result (words.new ≡ words.old) }
        ensures settings { KeepSettings self.old self.new }
    {
        self.room_to_repair(fixes)?;
        let arms = self.asks.set_again(asks, now, dist, words)?;
        self.fixes.repair_all(fixes, dist, now);
        Ok(arms)
    }
}
