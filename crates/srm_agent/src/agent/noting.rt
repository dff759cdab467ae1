//! What hearing did, and its entry.

ghost use Rattle.std.specs.Prelude.{◌≡◌, ◌≤◌, [], Ok, IfOk, length, true, vec_capacity};
ghost use Rattle.srm_entries.specs.declared.cause.Outcome.TheVariants.{Taken};
ghost use Rattle.srm_agent.specs.Heeding.{entry_with};
ghost use Rattle.srm_agent.specs.Noting.{verdict_of_outcome};

use crate::heard::Heard;
use crate::noted::Noted;
use srm_entries::{AgentState, Effects, Entry, Input, Outcome, Verdict};
use srm_names::{Items, Member};
use srm_timers::Arm;
use std::alloc::{AllocError, Global};

/// What hearing returns, and a copy of the timers that it set for the entry, if that is noted.
#[derive(Drop)]
pub(super) struct Hearing {
    /// What the call returns.
    pub heard: Heard,
    /// The copy of its timers for the entry.
    pub noted: Items<Arm>,
}

/// The answer of a hearing, and its entry. Takes no memory.
pub(super) fn note(
    alloc: Global,
    me: Member,
    moment: u64,
    input: Input,
    state: AgentState,
    hearing: Hearing,
) -> Noted<Heard>
    requires { hearing.noted ≡ hearing.heard.arms }
    ensures entry { result.entry ≡ entry_with me moment input state hearing.heard }
    ensures answer { result.answer ≡ Ok hearing.heard }
{
    let Hearing { heard, noted } = hearing;
    let verdict = verdict_by(heard.outcome);
    Noted {
        answer: Ok(heard),
        entry: Entry {
            member: me,
            moment,
            input,
            verdict,
            effects: Effects {
                drawn: None,
                arms: noted,
                asks: Items::new(Vec::new(alloc)),
                fixes: Items::new(Vec::new(alloc)),
                outs: Items::new(Vec::new(alloc)),
                message: None,
                state,
            },
        },
    }
}

fn verdict_by(outcome: Outcome) -> Verdict
    ensures { result ≡ verdict_of_outcome outcome }
{
    match outcome {
        Outcome::Taken => Verdict::Done,
        Outcome::Ignored(cause) => Verdict::Ignored(cause),
    }
}

/// What hearing an accepted datagram did, with its timers and a copy of them.
pub(super) fn accepted(arms: Vec<Arm>, copies: Vec<Arm>) -> Hearing
    ensures heard { result.heard ≡ record { arms = arms.items; outcome = Taken } }
    ensures noted { result.noted ≡ copies.items }
{
    Hearing {
        heard: Heard {
            arms: Items::new(arms),
            outcome: Outcome::Taken,
        },
        noted: Items::new(copies),
    }
}

/// Room for a copy of so many timers, if they are noted. Fails only if out of memory.
pub(super) fn room_to_note(alloc: Global, notes: bool, count: usize) -> Result<Vec<Arm>, AllocError>
    ensures empty { IfOk result (λ copies. copies.items ≡ []) }
    ensures room { IfOk result (λ copies. notes ≡ true → count ≤ vec_capacity copies) }
{
    if notes {
        Vec::with_capacity(alloc, count)
    } else {
        Ok(Vec::new(alloc))
    }
}

/// Copies timers, if they are noted. Takes no memory.
pub(super) fn note_arms(copies: &mut Vec<Arm>, notes: bool, arms: &[Arm])
    requires empty { copies.old.items ≡ [] }
    requires room { notes ≡ true → length arms.now ≤ vec_capacity copies.old }
    ensures { notes ≡ true → copies.new.items ≡ arms.now }
{
    if notes {
        copies.extend_from_slice(arms).unwrap();
    }
}
