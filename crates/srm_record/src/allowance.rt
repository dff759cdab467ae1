//! How many timers the calls of a record may set when they are made anew.

ghost use Rattle.std.specs.Prelude.{◌≡◌, ℕ, ◌+◌, ◌<◌, length, IfOk, MatchOption};
ghost use Rattle.srm_world.specs.WaitWords.{arms_in};
ghost use Rattle.srm_record.specs.Allowances.{WouldLearn, timers_allowed};

use srm_entries::Entry;
use srm_frames::Call;
use srm_timers::Pcg;
use srm_world::Recorder;
use std::alloc::AllocError;

/// How many timers the calls of any record may set.
pub const TIMERS: usize = 100_000;

/// How many more they may set for each line.
pub const TIMERS_PER_LINE: usize = 100;

/// Returns how many timers the calls of a record with so many lines may set: [`TIMERS`], and [`TIMERS_PER_LINE`] for each line. Stops at 2^64 - 1.
///
/// A row of 8 bytes can name 65,536 strokes that are missing, and a tick of 17 bytes sets the timer of each once more. So without a bound a short record takes any time and memory.
pub fn timers_allowed(lines: usize) -> usize
    ensures { result ≡ timers_allowed lines }
{
    lines.saturating_mul(TIMERS_PER_LINE).saturating_add(TIMERS)
}

/// Returns how many timers may still be set behind these entries, of so many before them; `None` if they set more.
#[tactic(auto, using(crate::proofs::Timers::one_spent, crate::proofs::Timers::over_spent))]
pub fn spend(left: usize, added: &[Entry]) -> Option<usize>
    ensures { MatchOption result (left < length (arms_in added.now)) (λ rest. rest + length (arms_in added.now) ≡ left) }
{
    let mut left = left;
    for entry in added {
        left = left.checked_sub(entry.effects.arms.as_slice().len())?;
    }
    Some(left)
}

/// Returns how many names a call would make missing. Each of them gets a timer. Fails only if out of memory.
pub fn would_learn(recorder: &Recorder<Pcg>, call: &Call) -> Result<usize, AllocError>
    ensures { IfOk result (WouldLearn recorder.now.journal.start.config recorder.now.journal.entries call.now) }
{
    match call {
        Call::Heard(bytes) => Ok(recorder.would_miss(bytes.as_slice())? as usize),
        _ => Ok(0),
    }
}
