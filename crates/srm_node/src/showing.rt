//! Carrying out the commands of a control.

ghost use Rattle.std.specs.Prelude.{◌≡◌, ◌≤◌, MatchResult};
ghost use Rattle.srm_names.specs.declared.limits.TheConstants.{LATEST_MOMENT};
ghost use Rattle.srm_world.specs.Claims.{IsLawfulJournal};
ghost use Rattle.srm_node.specs.Showing.{page_of, refusal_of, ShowsOne, CarriesOut, Obeys, ObeysCut, ShowsAsked, ShowsAskedCut};
ghost use Rattle.srm_node.specs.Waits.{WaitsByWords};

use crate::fault::{OutOfMemory, is_memory};
use srm_agent::{AgentFault, Entry};
use srm_control::{PageCommand, PageCommands, PageRefusal};
use srm_names::Page;
use srm_timers::Words;
use srm_world::{Past, Recorder};
use std::sync::Wait;

/// Carries out the next command of a control, if there is one, and answers it. Returns the control, and whether there was a command. Does nothing without a control.
///
/// Fails only if out of memory, and then the command stays in hand.
#[tactic(auto, using(crate::proofs::Obeying::asked_some, crate::proofs::Obeying::asked_none))]
pub fn show_asked<R: Wait, W: Words + Drop, P: Past<Entry> + Drop>(
    rt: &R,
    recorder: &mut Recorder<W, P>,
    commands: Option<PageCommands>,
    now: u64,
) -> (Option<PageCommands>, Result<bool, OutOfMemory>)
    requires moment { now ≤ LATEST_MOMENT }
    requires lawful { IsLawfulJournal recorder.old.journal }
    ensures lawful { IsLawfulJournal recorder.new.journal }
    ensures words { WaitsByWords W.next_word recorder.old recorder.new }
    ensures shows { MatchResult result.1 (λ _. ShowsAsked now recorder.old.journal recorder.new.journal commands result.0)
        (λ _. ShowsAskedCut recorder.old.journal recorder.new.journal commands result.0) }
{
    match commands {
        Some(commands) => {
            let mut commands = commands;
            let obeyed = obey(rt, recorder, &mut commands, now);
            (Some(commands), obeyed)
        }
        None => (None, Ok(false)),
    }
}

// Carries out the next command, if there is one, and answers it. Whether there was one.
#[tactic(auto, using(crate::proofs::Obeying::obeys_none, crate::proofs::Obeying::obeys_one, crate::proofs::Obeying::obeys_cut))]
fn obey<R: Wait, W: Words + Drop, P: Past<Entry> + Drop>(
    rt: &R,
    recorder: &mut Recorder<W, P>,
    commands: &mut PageCommands,
    now: u64,
) -> Result<bool, OutOfMemory>
    requires moment { now ≤ LATEST_MOMENT }
    requires lawful { IsLawfulJournal recorder.old.journal }
    ensures lawful { IsLawfulJournal recorder.new.journal }
    ensures words { WaitsByWords W.next_word recorder.old recorder.new }
    ensures obeys { MatchResult result (λ _. Obeys now recorder.old.journal recorder.new.journal commands.old commands.new)
        (λ _. ObeysCut recorder.old.journal recorder.new.journal commands.old commands.new) }
{
    match commands.next(rt) {
        Some(command) => match carry_out(recorder, command, now) {
            Ok(outcome) => {
                commands.answer(rt, outcome);
                Ok(true)
            }
            Err(_) => Err(OutOfMemory),
        },
        None => Ok(false),
    }
}

// Shows the page of a command, if it has one. Returns what came of it.
#[tactic(auto, using(crate::proofs::Obeying::carries_page, crate::proofs::Obeying::carries_none))]
fn carry_out<W: Words + Drop, P: Past<Entry> + Drop>(
    recorder: &mut Recorder<W, P>,
    command: PageCommand,
    now: u64,
) -> Result<Result<Page, PageRefusal>, OutOfMemory>
    requires moment { now ≤ LATEST_MOMENT }
    requires lawful { IsLawfulJournal recorder.old.journal }
    ensures lawful { IsLawfulJournal recorder.new.journal }
    ensures words { WaitsByWords W.next_word recorder.old recorder.new }
    ensures out { MatchResult result (λ outcome. CarriesOut now (page_of recorder.old.journal.start.config recorder.old.journal.entries command) outcome recorder.old.journal recorder.new.journal)
        (λ _. recorder.new.journal ≡ recorder.old.journal) }
{
    match page_of(recorder, command) {
        Some(page) => show(recorder, &page, now),
        None => Ok(Err(PageRefusal::NoNewPage)),
    }
}

// The page of a command: the one that it names, or the member's next one.
fn page_of<W: Words + Drop, P: Past<Entry> + Drop>(
    recorder: &Recorder<W, P>,
    command: PageCommand,
) -> Option<Page>
    ensures { result ≡ page_of recorder.now.journal.start.config recorder.now.journal.entries command }
{
    match command {
        PageCommand::Show(page) => Some(page),
        PageCommand::Begin => recorder.new_page(),
    }
}

// Shows a page. A refused call has its entry, unless it was out of memory.
fn show<W: Words + Drop, P: Past<Entry> + Drop>(
    recorder: &mut Recorder<W, P>,
    page: &Page,
    now: u64,
) -> Result<Result<Page, PageRefusal>, OutOfMemory>
    requires moment { now ≤ LATEST_MOMENT }
    requires lawful { IsLawfulJournal recorder.old.journal }
    ensures lawful { IsLawfulJournal recorder.new.journal }
    ensures words { WaitsByWords W.next_word recorder.old recorder.new }
    ensures shows { MatchResult result (λ outcome. ShowsOne now page.now outcome recorder.old.journal recorder.new.journal) (λ _. recorder.new.journal ≡ recorder.old.journal) }
{
    match recorder.show(*page, now) {
        Ok(()) => Ok(Ok(*page)),
        Err(fault) => {
            if is_memory(fault) {
                Err(OutOfMemory)
            } else {
                Ok(Err(refusal_of(fault)))
            }
        }
    }
}

// What is told of a refusal.
fn refusal_of(fault: AgentFault) -> PageRefusal
    ensures { result ≡ refusal_of fault }
{
    match fault {
        AgentFault::PageLimit => PageRefusal::NoSlot,
        _ => PageRefusal::Gone,
    }
}
