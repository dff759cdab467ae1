//! Asking a node for a page, by one who draws.

ghost use Rattle.std.specs.Prelude.{◌≡◌, ◌+◌, [], ◌∷◌, ◌++◌, MatchOption};
ghost use Rattle.std.specs.Bool.{OnTrue, OnFalse};
ghost use Rattle.srm_live.specs.Asking.{answer_to, Takes, Hears, HearsLast};

use srm_control::{PageAnswer, PageCommand, PageControl, PageRefusal};
use srm_member::{Waking, wake};
use srm_names::Page;
use std::sync::Wait;
use std::sync::atomic::{AtomicBool, Ordering};
use std::thread;
use std::time::{Clock, Duration};

/// How long to wait before it is looked for an answer again, in microseconds.
const WAIT: u64 = 1_000;

/// Sends a command, and waits for its answer: the page that is shown now, or why nothing changed. Returns `None` if the node has ended, as `ended` says, and gave no
/// answer.
#[tactic(auto, using(crate::proofs::Askings::hears_no_command, crate::proofs::Askings::hears_no_answer, crate::proofs::Askings::hears_answer))]
pub fn ask<R: Clock + Wait>(
    rt: &R,
    control: &mut PageControl,
    command: &PageCommand,
    ended: &AtomicBool,
    waker: &Waking,
) -> Option<Result<Page, PageRefusal>>
    ensures { MatchOption result (HearsLast [] control.old control.new) (λ outcome. Hears (answer_to command.now outcome ∷ []) control.old control.new) }
{
    if !send(rt, control, command, waker) {
        return None;
    }
    let answer = last_answer(rt, control, ended)?;
    if !is_to(&answer, command) {
        return None;
    }
    Some(answer.outcome)
}

/// Commands that a page is shown, unless the command before has no answer yet. Never waits.
#[tactic(auto, using(crate::proofs::Askings::hears_two))]
pub fn show<R: Wait>(rt: &R, control: &mut PageControl, page: &Page, waker: &Waking)
    ensures { Hears [] control.old control.new }
{
    take_waiting(rt, control);
    if control.waiting() == 0 {
        send_shown(rt, control, page, waker);
    }
}

// Takes the next answer, which nobody waits for, if one is there.
fn take_waiting<R: Wait>(rt: &R, control: &mut PageControl)
    ensures { Hears [] control.old control.new }
{
    let _ = take_one(rt, control);
}

// Commands that a page is shown.
fn send_shown<R: Wait>(rt: &R, control: &mut PageControl, page: &Page, waker: &Waking)
    ensures { Hears [] control.old control.new }
{
    let _ = send(rt, control, &PageCommand::Show(*page), waker);
}

// Sends a command. Whether it was sent: not if eight have no answer yet, or the node is gone.
fn send<R: Wait>(rt: &R, control: &mut PageControl, command: &PageCommand, waker: &Waking) -> bool
    ensures sent { OnTrue result (control.new ≡ record control.old { commanded = control.old.commanded ++ command.now ∷ []; waiting = control.old.waiting + 1 }) }
    ensures none { OnFalse result (control.new ≡ control.old) }
{
    match control.command(rt, *command) {
        Ok(()) => {
            wake(waker);
            true
        }
        Err(_) => false,
    }
}

// Takes the next answer, if one is there.
#[tactic(auto, using(crate::proofs::Askings::takes_any))]
fn take_one<R: Wait>(rt: &R, control: &mut PageControl) -> Option<PageAnswer>
    ensures { MatchOption result (Takes [] control.old control.new) (λ answer. Takes (answer ∷ []) control.old control.new) }
{
    control.answer(rt)
}

// Waits until each command has its answer. The last of them; `None` if the node has ended without it.
#[tactic(auto, using(crate::proofs::Askings::takes_none, crate::proofs::Askings::takes_last, crate::proofs::Askings::takes_more))]
fn last_answer<R: Clock + Wait>(
    rt: &R,
    control: &mut PageControl,
    ended: &AtomicBool,
) -> Option<PageAnswer>
    ensures { MatchOption result (Takes [] control.old control.new) (λ answer. Takes (answer ∷ []) control.old control.new) }
{
    for _ in rt.forever() {
        match take_one(rt, control) {
            Some(answer) => {
                if control.waiting() == 0 {
                    return Some(answer);
                }
            }
            None => {
                if ended.load(Ordering::SeqCst) {
                    return None;
                }
                thread::sleep(rt, Duration::from_micros(WAIT));
            }
        }
    }
    unreachable!()
}

// Whether an answer is that to this command, as the last one is.
fn is_to(answer: &PageAnswer, command: &PageCommand) -> bool
    ensures { OnTrue result (answer.now.command ≡ command.now) }
{
    answer.command == *command
}
