//! What requests do to the timers.

ghost use Rattle.std.specs.Prelude.{◌≡◌, ◌≤◌, ◌+◌, length, true, IfOk, OnErr, ◌<◌, ◌++◌, [], vec_len, vec_capacity, option_to_list, OnOk, ◌∷◌};
ghost use Rattle.srm_names.specs.declared.limits.TheConstants.{LATEST_MOMENT};
ghost use Rattle.srm_names.specs.Names.{ascending, name_below};
ghost use Rattle.srm_timers.specs.AskCalls.{DetectAndDueReady, AskKeepsRoom};
ghost use Rattle.srm_timers.specs.FixCalls.{Asked, FixAdds, FixKeepsRoom, FixPlace, FixPlaces};
ghost use Rattle.srm_timers.specs.Distances.{AreDistances};
ghost use Rattle.srm_agent_state.specs.TimerCalls.{IsRequestHeard, KeepSettings, TimersHearRequest, TimersStay, WaitsAreChosen};

use super::Timers;
use srm_names::{Member, Name};
use srm_store::Store;
use srm_timers::{Arm, Words};
use std::alloc::AllocError;

impl Timers {
    /// Notes a member's request for the names `asked`. The request makes `newly_missing`, which rise, missing; `store` is as it was before.
    /// Returns the timers that are set, and consumes one random number for each:
    ///
    /// - a repair timer for each of `asked` that is held, if none runs and the name isn't held off;
    /// - the request timer of each of `asked` that is missing again, one exponent higher, unless its exponent isn't 0 and the request comes
    ///   before its ignore moment;
    /// - a request timer for each of `newly_missing`, with exponent 1 if it is among `asked`, else 0.
    ///
    /// Fails only if out of memory.
    pub fn hear_request<W: Words>(
        &mut self,
        store: &Store,
        from: Member,
        asked: &[Name],
        newly_missing: &[Name],
        dist: &[u64],
        now: u64,
        words: &mut W,
    ) -> Result<Vec<Arm>, AllocError>
        requires rising { ascending name_below newly_missing.now ≡ true }
        requires distances { AreDistances dist.now }
        requires now { now ≤ LATEST_MOMENT }
        ensures hears { IfOk result (λ arms. TimersHearRequest store.now from asked.now newly_missing.now dist.now now arms.items self.old self.new) }
        ensures few { IfOk result (λ arms. length arms.items ≤ length asked.now + length newly_missing.now) }
        ensures chosen { IfOk result (λ arms. WaitsAreChosen W.next_word self.old words.old arms.items words.new) }
        ensures kept { OnErr result (TimersStay self.old self.new) }
        ensures unchosen { OnErr result (words.new ≡ words.old) }
        ensures settings { KeepSettings self.old self.new }
    {
        let mut arms = self.request_room(asked, newly_missing)?;
        for name in asked {
            let arm = self.hear_request_for(store.holds(*name), *name, from, dist, now, words);
            add_arm(&mut arms, arm);
        }
        let found = self.detect(newly_missing, asked, dist, now, words).unwrap();
        arms.extend_from_slice(&found).unwrap();
        Ok(arms)
    }
    /// Makes room for a request for the names `asked` that makes `newly_missing` missing, and returns a list with room for the timers that it
    /// sets. No timer changes. Fails only if out of memory.
    #[tactic(auto, using(crate::proofs::Midway::asks_stay, crate::proofs::Midway::asks_keep))]
    fn request_room(
        &mut self,
        asked: &[Name],
        newly_missing: &[Name],
    ) -> Result<Vec<Arm>, AllocError>
        ensures kept { TimersStay self.old self.new }
        ensures settings { KeepSettings self.old self.new }
        ensures empty { IfOk result (λ arms. arms.items ≡ []) }
        ensures room { IfOk result (λ arms. length asked.now + length newly_missing.now ≤ vec_capacity arms) }
        ensures places { OnOk result (FixPlaces asked.now self.new.fixes) }
        ensures ready { OnOk result (DetectAndDueReady newly_missing.now self.new.asks) }
    {
        self.fixes.make_places(asked)?;
        self.asks.room(newly_missing)?;
        Vec::with_capacity(self.alloc, asked.len() + newly_missing.len())
    }

    /// Notes who asked for a name, unless one asked before. Takes no memory.
    #[tactic(auto, using(crate::proofs::Midway::fixes_keep))]
    fn note(&mut self, name: Name, from: Member)
        requires { FixPlace self.old.fixes name }
        ensures noted { FixAdds (Asked name from ∷ []) self.old.fixes self.new.fixes }
        ensures asks { self.new.asks ≡ self.old.asks }
        ensures places { FixKeepsRoom self.old.fixes self.new.fixes }
        ensures settings { KeepSettings self.old self.new }
    {
        self.fixes.note_asker(name, from);
    }

    /// Notes one name of a member's request, and returns the timer that it sets, if any. Takes no memory.
    fn hear_request_for<W: Words>(
        &mut self,
        is_held: bool,
        name: Name,
        from: Member,
        dist: &[u64],
        now: u64,
        words: &mut W,
    ) -> Option<Arm>
        requires place { FixPlace self.old.fixes name }
        requires distances { AreDistances dist.now }
        requires now { now ≤ LATEST_MOMENT }
        ensures hears { IsRequestHeard is_held name from dist.now now result self.old self.new }
        ensures chosen { WaitsAreChosen W.next_word self.old words.old (option_to_list result) words.new }
        ensures places { FixKeepsRoom self.old.fixes self.new.fixes }
        ensures room { AskKeepsRoom self.old.asks self.new.asks }
    {
        if is_held {
            self.fixes.note_request(name, from, true, dist, now, words)
        } else {
            self.note(name, from);
            self.asks.heard_request(name, dist, now, words)
        }
    }
}

/// Adds a timer, if there is one, to a list that has room for it.
fn add_arm(arms: &mut Vec<Arm>, arm: Option<Arm>)
    requires { vec_len arms.old < vec_capacity arms.old }
    ensures items { arms.new.items ≡ arms.old.items ++ option_to_list arm }
    ensures len { vec_len arms.new ≤ vec_len arms.old + 1 }
    ensures capacity { vec_capacity arms.old ≤ vec_capacity arms.new }
{
    if let Some(arm) = arm {
        arms.push(arm).unwrap();
    }
}
