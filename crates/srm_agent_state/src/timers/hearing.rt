//! What data, repairs and session messages do to the timers.

ghost use Rattle.std.specs.Prelude.{◌≡◌, ◌≤◌, length, true, IfOk, IsOk, OnErr, [], ◌∷◌, OnOk};
ghost use Rattle.srm_names.specs.declared.limits.TheConstants.{LATEST_MOMENT};
ghost use Rattle.srm_names.specs.Names.{ascending, name_below};
ghost use Rattle.srm_timers.specs.AskCalls.{DetectAndDueReady, Gained, AskAdds};
ghost use Rattle.srm_timers.specs.FixCalls.{FixStays, FixPlace};
ghost use Rattle.srm_timers.specs.Distances.{AreDistances};
ghost use Rattle.srm_agent_state.specs.TimerCalls.{FixEnds, IsDrawopOf, IsSession, KeepSettings, TimersHear, TimersStay, WaitsAreChosen};

use super::Timers;
use srm_names::Name;
use srm_timers::{Arm, Words};
use std::alloc::AllocError;

impl Timers {
    /// Makes room: afterwards [`hear_rows`](Timers::hear_rows) of these names succeeds. No timer changes. Fails only if out of memory.
    #[tactic(auto, using(crate::proofs::Midway::asks_stay, crate::proofs::Midway::asks_keep))]
    pub fn room_for_rows(&mut self, newly_missing: &[Name]) -> Result<(), AllocError>
        ensures kept { TimersStay self.old self.new }
        ensures settings { KeepSettings self.old self.new }
        ensures ready { OnOk result (DetectAndDueReady newly_missing.now self.new.asks) }
    {
        self.asks.room(newly_missing)
    }

    /// Notes a session message. It makes `newly_missing`, which rise, missing: sets a request timer for each, and returns the timers.
    /// Consumes one random number for each.
    ///
    /// Fails only if out of memory, and not after [`room_for_rows`](Timers::room_for_rows) of these names.
    #[tactic(auto, using(crate::proofs::Missing::rows_hear))]
    pub fn hear_rows<W: Words>(
        &mut self,
        newly_missing: &[Name],
        dist: &[u64],
        now: u64,
        words: &mut W,
    ) -> Result<Vec<Arm>, AllocError>
        requires rising { ascending name_below newly_missing.now ≡ true }
        requires distances { AreDistances dist.now }
        requires now { now ≤ LATEST_MOMENT }
        ensures hears { IfOk result (λ arms. TimersHear IsSession newly_missing.now dist.now now arms.items self.old self.new) }
        ensures few { IfOk result (λ arms. length arms.items ≤ length newly_missing.now) }
        ensures chosen { IfOk result (λ arms. WaitsAreChosen W.next_word self.old words.old arms.items words.new) }
        ensures kept { OnErr result (TimersStay self.old self.new) }
        ensures unchosen { OnErr result (words.new ≡ words.old) }
        ensures settings { KeepSettings self.old self.new }
        ensures room { DetectAndDueReady newly_missing.now self.old.asks → IsOk result }
    {
        self.detect(newly_missing, &[], dist, now, words)
    }

    /// Notes that the drawop of a name was heard, as data or as a repair. It makes `newly_missing`, which rise, missing: sets a request timer
    /// for each, and returns the timers. Consumes one random number for each.
    ///
    /// The request timer of `name` is gone. A repair also cancels the name's repair timer, and holds the name off.
    ///
    /// Fails only if out of memory.
    #[tactic(auto, using(crate::proofs::Midway::keep_on, crate::proofs::Midway::stay_on, crate::proofs::Midway::waits_before, crate::proofs::Midway::placed_if))]
    pub fn hear_drawop<W: Words>(
        &mut self,
        name: Name,
        repaired: bool,
        newly_missing: &[Name],
        dist: &[u64],
        now: u64,
        words: &mut W,
    ) -> Result<Vec<Arm>, AllocError>
        requires rising { ascending name_below newly_missing.now ≡ true }
        requires distances { AreDistances dist.now }
        requires now { now ≤ LATEST_MOMENT }
        ensures hears { IfOk result (λ arms. TimersHear (IsDrawopOf repaired name) newly_missing.now dist.now now arms.items self.old self.new) }
        ensures few { IfOk result (λ arms. length arms.items ≤ length newly_missing.now) }
        ensures chosen { IfOk result (λ arms. WaitsAreChosen W.next_word self.old words.old arms.items words.new) }
        ensures kept { OnErr result (TimersStay self.old self.new) }
        ensures unchosen { OnErr result (words.new ≡ words.old) }
        ensures settings { KeepSettings self.old self.new }
    {
        self.drawop_room(name, repaired)?;
        let arms = self.detect(newly_missing, &[], dist, now, words)?;
        self.gain(name);
        self.end_repair(name, repaired, dist, now);
        Ok(arms)
    }

    /// Notes that a name is held: its request timer is gone. Takes no memory.
    #[tactic(auto, using(crate::proofs::Midway::asks_keep))]
    fn gain(&mut self, name: Name)
        ensures asks { AskAdds (Gained name ∷ []) self.old.asks self.new.asks }
        ensures fixes { self.new.fixes ≡ self.old.fixes }
        ensures settings { KeepSettings self.old self.new }
    {
        self.asks.gained(name);
    }

    /// Makes room for a repair of a name, if the drawop came by one. No timer changes. Fails only if out of memory.
    #[tactic(auto, using(crate::proofs::Midway::fixes_stay, crate::proofs::Midway::fixes_keep, crate::proofs::Midway::all_stays, crate::proofs::Midway::fixes_same, crate::proofs::Midway::settings_same))]
    fn drawop_room(&mut self, name: Name, repaired: bool) -> Result<(), AllocError>
        ensures kept { TimersStay self.old self.new }
        ensures asks { self.new.asks ≡ self.old.asks }
        ensures fixes { FixStays self.old.fixes self.new.fixes }
        ensures settings { KeepSettings self.old self.new }
        ensures place { OnOk result (repaired ≡ true → FixPlace self.new.fixes name) }
    {
        if repaired {
            self.fixes.make_place(name)
        } else {
            Ok(())
        }
    }

    /// If the drawop of a name came by a repair, cancels the name's repair timer, and holds the name off. Takes no memory.
    #[tactic(auto, using(crate::proofs::Midway::fixes_keep, crate::proofs::Midway::settings_same))]
    fn end_repair(&mut self, name: Name, repaired: bool, dist: &[u64], now: u64)
        requires place { repaired ≡ true → FixPlace self.old.fixes name }
        requires distances { AreDistances dist.now }
        requires now { now ≤ LATEST_MOMENT }
        ensures fixes { FixEnds repaired now dist.now name self.old.fixes self.new.fixes }
        ensures asks { self.new.asks ≡ self.old.asks }
        ensures settings { KeepSettings self.old self.new }
    {
        if repaired {
            self.fixes.note_repair(name, dist, now);
        }
    }
}
