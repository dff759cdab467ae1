//! Ticking and leaving.

ghost use Rattle.std.specs.Prelude.{◌≡◌, ◌≤◌, MatchResult};
ghost use Rattle.srm_names.specs.declared.limits.TheConstants.{LATEST_MOMENT};
ghost use Rattle.srm_world.specs.Claims.{IsLawfulJournal};
ghost use Rattle.srm_node.specs.Parts.{Leaves, Ticks};
ghost use Rattle.srm_node.specs.Waits.{WaitsByWords};

use crate::fault::{OutOfMemory, is_memory};
use srm_agent::{Entry, Ticked};
use srm_timers::Words;
use srm_world::{Past, Recorder};

/// Ticks once, and returns what the tick sends. Fails only if out of memory, and then nothing has changed.
pub fn tick<W: Words + Drop, P: Past<Entry> + Drop>(
    recorder: &mut Recorder<W, P>,
    now: u64,
) -> Result<Ticked, OutOfMemory>
    requires { now ≤ LATEST_MOMENT }
    ensures lawful { IsLawfulJournal recorder.new.journal }
    ensures words { WaitsByWords W.next_word recorder.old recorder.new }
    ensures ticks { MatchResult result (λ ticked. Ticks now ticked.outs recorder.old.journal recorder.new.journal) (λ _. recorder.new.journal ≡ recorder.old.journal) }
{
    match recorder.tick(now) {
        Ok(ticked) => Ok(ticked),
        Err(_) => Err(OutOfMemory),
    }
}

/// Leaves if `leaves` says so, or does nothing. A refused call has its entry. Fails only if out of memory: then it has none, and nothing has changed.
pub fn leave<W: Words + Drop, P: Past<Entry> + Drop>(
    recorder: &mut Recorder<W, P>,
    leaves: bool,
    now: u64,
) -> Result<(), OutOfMemory>
    requires moment { now ≤ LATEST_MOMENT }
    requires lawful { IsLawfulJournal recorder.old.journal }
    ensures lawful { IsLawfulJournal recorder.new.journal }
    ensures words { WaitsByWords W.next_word recorder.old recorder.new }
    ensures leaves { MatchResult result (λ _. Leaves now leaves recorder.old.journal recorder.new.journal) (λ _. recorder.new.journal ≡ recorder.old.journal) }
{
    if !leaves {
        return Ok(());
    }
    let Err(fault) = recorder.leave(now) else {
        return Ok(());
    };
    if is_memory(fault) {
        return Err(OutOfMemory);
    }
    Ok(())
}
