//! A record's calls, made anew.

ghost use Rattle.std.specs.Prelude.{◌≡◌, ℕ, ◌<◌, ◌≤◌, ◌++◌, ◌∷◌, [], length, if◌then◌else◌, vec_len, Err, IfErr, IfOk, MatchOption, OnOk};
ghost use Rattle.std.specs.List.{cons_option};
ghost use Rattle.rand_pcg.specs.Lcg.{Lcg};
ghost use Rattle.rand_pcg.specs.Pcg.{pcg64};
ghost use Rattle.srm_names.specs.declared.limits.TheConstants.{LATEST_MOMENT, PAGES};
ghost use Rattle.srm_names.specs.Histories.{greatest};
ghost use Rattle.srm_timers.specs.Seeds.{words_of};
ghost use Rattle.srm_entries.specs.declared.fault.AgentFault.TheVariants.{Memory};
ghost use Rattle.srm_entries.specs.Entries.{last_moment, moments_counted, takes_moment};
ghost use Rattle.srm_world.specs.Claims.{IsLawfulJournal};
ghost use Rattle.srm_world.specs.WaitWords.{AreByWords, RecordsByWords};
ghost use Rattle.srm_record.specs.Allowances.{timers_allowed, timers_in};
ghost use Rattle.srm_record.specs.Calls.{lines_of};
ghost use Rattle.srm_record.specs.Differing.{IsFirstOther};
ghost use Rattle.srm_record.specs.Faults.{begun, recorder_of, IsRetellFault, IsStopped, IsStoppedIn};
ghost use Rattle.srm_record.specs.Making.{GainsGiven, Makes, MakesAll, Waits};
ghost use Rattle.srm_record.specs.Replays.{GoesOn, TellsOfRuns, start_of, lines_told};
ghost use Rattle.srm_record.specs.Takes.{taken_in, takes_at, end_at, took_in, list_in, lists_in};

use crate::allowance::{spend, timers_allowed, would_learn};
use crate::differing::first_other;
use crate::fault::RetellFault;
use crate::taking::{end_at, takes_at};
use crate::telling::{last_recorded, lines_of};
use srm_entries::{AgentFault, Entry, Input, Verdict};
use srm_frames::{Beginning, Call, Line, Record, RecordEnd};
use srm_names::{LATEST_MOMENT, PAGES, PageMsg};
use srm_timers::Pcg;
use srm_world::{Journal, Recorder};
use std::alloc::{AllocError, Global};

/// What a member did, by its calls, and what its page workers took, slot by slot.
#[derive(Drop)]
pub struct Replayed {
    pub journal: Journal,
    pub taken: Vec<Vec<PageMsg>>,
}

/// Makes the calls of a record anew, in a recorder with the same settings and random numbers. Returns what came out, if the record's lines are exactly
/// those that a member writes who did this.
///
/// So the journal is a lawful run of its member, whatever the calls were, and the record is the record of that run. It has an entry for each call, and noise before a give whose moment hadn't come. Every run that has this record did the same: the same calls
/// acted, with the same entries, and its page workers took the same.
///
/// Fails with [`RetellFault::TooMuch`] at the first line with which the calls set more timers than [`timers_allowed`]; with [`RetellFault::Untold`] if the lines aren't those: then no run
/// of a member that began so, with these random numbers, has this record; and with [`RetellFault::Memory`] if out of memory. Costs what the member's calls cost, and a step for each
/// byte of the lines.
#[tactic(auto, using(crate::proofs::Untold::untold_from, crate::proofs::Untold::tells_of_runs, crate::proofs::Untold::made_too_late, crate::proofs::Stopping::stopped_fault))]
pub fn retell(alloc: Global, read: &Record) -> Result<Replayed, RetellFault>
    ensures start { IfOk result (λ r. r.journal.start ≡ start_of read.now.beginning) }
    ensures lawful { IfOk result (λ r. IsLawfulJournal r.journal) }
    ensures words { IfOk result (λ r. (to : Lcg) × AreByWords pcg64 r.journal.start.config (words_of read.now.beginning.seed) r.journal.entries to) }
    ensures told { IfOk result (λ r. read.now.lines.items ≡ lines_told read.now.beginning r.journal.entries (taken_in r.taken.items) read.now.end) }
    ensures runs { IfOk result (λ r. TellsOfRuns read.now r.journal (taken_in r.taken.items)) }
    ensures slots { IfOk result (λ r. vec_len r.taken ≡ PAGES) }
    ensures made { IfOk result (λ r. MakesAll read.now.lines.items (begun read.now) r.journal) }
    ensures bounded { IfOk result (λ r. timers_in r.journal.entries ≤ timers_allowed (length read.now.lines.items)) }
    ensures fault { IfErr result (IsRetellFault read.now) }
{
    if read.beginning.made > LATEST_MOMENT {
        return Err(RetellFault::Untold(0));
    }
    let replayed = replay(alloc, read)?;
    match first_untold(alloc, read, &replayed) {
        Ok(None) => Ok(replayed),
        Ok(Some(place)) => Err(RetellFault::Untold(place)),
        Err(_) => Err(RetellFault::Memory),
    }
}

/// Makes the calls of a record anew.
#[tactic(auto, using(crate::proofs::Stopping::stopped_by_memory))]
fn replay(alloc: Global, read: &Record) -> Result<Replayed, RetellFault>
    requires { read.now.beginning.made ≤ LATEST_MOMENT }
    ensures start { IfOk result (λ r. r.journal.start ≡ start_of read.now.beginning) }
    ensures lawful { IfOk result (λ r. IsLawfulJournal r.journal) }
    ensures words { IfOk result (λ r. (to : Lcg) × AreByWords pcg64 r.journal.start.config (words_of read.now.beginning.seed) r.journal.entries to) }
    ensures slots { IfOk result (λ r. vec_len r.taken ≡ PAGES) }
    ensures lists { IfOk result (λ r. taken_in r.taken.items ≡ lists_in read.now.lines.items) }
    ensures made { IfOk result (λ r. MakesAll read.now.lines.items (begun read.now) r.journal) }
    ensures bounded { IfOk result (λ r. timers_in r.journal.entries ≤ timers_allowed (length read.now.lines.items)) }
    ensures stopped { IfErr result (IsStopped (recorder_of read.now.beginning) read.now.lines.items) }
{
    let taken = lists(alloc, read.lines.as_slice())?;
    let journal = journal(alloc, read.beginning, read.lines.as_slice())?;
    Ok(Replayed { journal, taken })
}

/// The first place at which a record's lines aren't those of what was replayed.
fn first_untold(
    alloc: Global,
    read: &Record,
    replayed: &Replayed,
) -> Result<Option<usize>, AllocError>
    requires { vec_len replayed.now.taken ≤ PAGES }
    ensures { IfOk result (λ found. let wanted = lines_told read.now.beginning replayed.now.journal.entries (taken_in replayed.now.taken.items) read.now.end in MatchOption found (read.now.lines.items ≡ wanted) (IsFirstOther read.now.lines.items wanted)) }
{
    let told = told(alloc, read.beginning, read.end, replayed)?;
    Ok(first_other(read.lines.as_slice(), told.as_slice()))
}

/// The lines of what was replayed, up to the end if the record has it.
fn told(
    alloc: Global,
    beginning: Beginning,
    end: RecordEnd,
    replayed: &Replayed,
) -> Result<Vec<Line>, AllocError>
    requires { vec_len replayed.now.taken ≤ PAGES }
    ensures { IfOk result (λ lines. lines.items ≡ lines_told beginning replayed.now.journal.entries (taken_in replayed.now.taken.items) end) }
{
    let entries = replayed.journal.entries();
    let last = last_recorded(beginning.made, entries);
    let lines = with_takes(alloc, &beginning, last, replayed)?;
    match end {
        RecordEnd::Whole => ended(lines, last),
        RecordEnd::Cut(_) => Ok(lines),
    }
}

/// The same without the end.
fn with_takes(
    alloc: Global,
    beginning: &Beginning,
    last: u64,
    replayed: &Replayed,
) -> Result<Vec<Line>, AllocError>
    requires { vec_len replayed.now.taken ≤ PAGES }
    ensures { IfOk result (λ lines. lines.items ≡ lines_of beginning.now.config.session replayed.now.journal.entries ++ takes_at last (taken_in replayed.now.taken.items)) }
{
    let session = beginning.config.session();
    let mut lines = lines_of(alloc, session, replayed.journal.entries())?;
    let mut takes = takes_at(alloc, last, replayed.taken.as_slice())?;
    lines.append(&mut takes)?;
    Ok(lines)
}

/// The lines, and behind them the end.
fn ended(lines: Vec<Line>, last: u64) -> Result<Vec<Line>, AllocError>
    ensures { IfOk result (λ all. all.items ≡ lines.items ++ end_at last ∷ []) }
{
    let mut lines = lines;
    lines.push(end_at(last)).map_err(AllocError::from)?;
    Ok(lines)
}

/// The journal that a member has of these calls, made so and with the random numbers of this seed.
#[tactic(auto, using(crate::proofs::Stopping::stopped_by_memory))]
fn journal(alloc: Global, beginning: Beginning, lines: &[Line]) -> Result<Journal, RetellFault>
    requires { beginning.made ≤ LATEST_MOMENT }
    ensures start { IfOk result (λ j. j.start ≡ start_of beginning) }
    ensures words { IfOk result (λ j. (to : Lcg) × AreByWords pcg64 j.start.config (words_of beginning.seed) j.entries to) }
    ensures lawful { IfOk result IsLawfulJournal }
    ensures made { IfOk result (MakesAll lines.now (record { start = start_of beginning; entries = [] })) }
    ensures bounded { IfOk result (λ j. timers_in j.entries ≤ timers_allowed (length lines.now)) }
    ensures stopped { IfErr result (IsStopped (recorder_of beginning) lines.now) }
{
    let Beginning {
        config,
        made,
        seed,
        ..
    } = beginning;
    let recorder = Recorder::new(alloc, config, Pcg::new(seed), made)?;
    played(recorder, made, lines)
}

/// The journal of a recorder that these calls were made of, whose last moment is this.
#[tactic(auto, using(crate::proofs::GoingOn::records_to_end, crate::proofs::Stopping::stopped_there))]
fn played(recorder: Recorder<Pcg>, clock: u64, lines: &[Line]) -> Result<Journal, RetellFault>
    requires clock { clock ≡ last_moment recorder.journal.start.made recorder.journal.entries }
    requires begun { recorder.journal.entries ≡ [] }
    ensures start { IfOk result (λ j. j.start ≡ recorder.journal.start) }
    ensures words { IfOk result (λ j. (to : Lcg) × RecordsByWords pcg64 recorder (record { journal = j; words = to; begins = recorder.begins })) }
    ensures lawful { IfOk result IsLawfulJournal }
    ensures made { IfOk result (MakesAll lines.now recorder.journal) }
    ensures bounded { IfOk result (λ j. timers_in j.entries ≤ timers_allowed (length lines.now)) }
    ensures stopped { IfErr result (IsStopped recorder lines.now) }
{
    let mut recorder = recorder;
    let made = make_all(&mut recorder, clock, lines);
    let journal = recorder.finish();
    match made {
        Ok(()) => Ok(journal),
        Err(fault) => Err(fault),
    }
}

/// Makes the calls of lines, of a member that did nothing yet, as long as they set no more timers than they may.
#[tactic(auto, using(crate::proofs::GoingOn::stays, crate::proofs::GoingOn::goes_on_more, crate::proofs::Making::makes_next, crate::proofs::Making::no_fewer, crate::proofs::Making::clock_goes_on, crate::proofs::Stopping::all_left, crate::proofs::Stopping::set_too_many, crate::proofs::Stopping::would_set_too_many, crate::proofs::Stopping::left_behind, crate::proofs::Stopping::stopped_in_memory))]
fn make_all(recorder: &mut Recorder<Pcg>, clock: u64, lines: &[Line]) -> Result<(), RetellFault>
    requires clock { clock ≡ last_moment recorder.old.journal.start.made recorder.old.journal.entries }
    requires begun { recorder.old.journal.entries ≡ [] }
    ensures goes { GoesOn pcg64 recorder.old recorder.new }
    ensures makes { OnOk result (MakesAll lines.now recorder.old.journal recorder.new.journal) }
    ensures bounded { OnOk result (timers_in recorder.new.journal.entries ≤ timers_allowed (length lines.now)) }
    ensures stopped { IfErr result (IsStoppedIn lines.now recorder.old.journal recorder.new.journal) }
{
    let mut clock = clock;
    let mut left = timers_allowed(lines.len());
    for (place, line) in lines.iter().enumerate() {
        let learned = would_learn(recorder, &line.call)?;
        if learned > left {
            return Err(RetellFault::TooMuch(place));
        }
        let seen = recorder.entries().len();
        make(recorder, &line.call, line.moment.min(LATEST_MOMENT), clock)?;
        let (_, added) = recorder.entries().split_at(seen);
        clock = clock_after(clock, added);
        let Some(rest) = spend(left, added) else {
            return Err(RetellFault::TooMuch(place));
        };
        left = rest;
    }
    Ok(())
}

/// Makes a call, of a member whose last moment is this. What it refuses is in its journal.
#[tactic(auto, using(crate::proofs::GoingOn::goes_on_by_call, crate::proofs::GoingOn::goes_on_by_hearing, crate::proofs::GoingOn::stays, crate::proofs::Making::made_call, crate::proofs::Making::made_heard))]
fn make(recorder: &mut Recorder<Pcg>, call: &Call, now: u64, clock: u64) -> Result<(), AllocError>
    requires moment { now ≤ LATEST_MOMENT }
    requires clock { clock ≡ last_moment recorder.old.journal.start.made recorder.old.journal.entries }
    ensures goes { GoesOn pcg64 recorder.old recorder.new }
    ensures makes { OnOk result (Makes now call.now recorder.old.journal recorder.new.journal) }
{
    match call {
        Call::Drew(page, body) => {
            let body = body.clone()?;
            made(recorder.draw(*page, body, now))
        }
        Call::Heard(bytes) => made(recorder.hear(bytes.as_slice(), now)),
        Call::Ticked => made(recorder.tick(now)),
        Call::Showed(page) => made(recorder.show(*page, now)),
        Call::AskedLeave => made(recorder.leave(now)),
        Call::Gave(slot) if *slot < PAGES => give(recorder, *slot, now, clock),
        Call::Gave(_) | Call::Took(_, _) | Call::Ended => Ok(()),
    }
}

/// Asks for the next message of a slot. It has the moment of the call before it, which may have no line: then noise comes first.
#[tactic(auto, using(crate::proofs::GoingOn::goes_on_by_call, crate::proofs::GoingOn::stays, crate::proofs::GoingOn::goes_on_more, crate::proofs::Making::made_give))]
fn give(recorder: &mut Recorder<Pcg>, slot: u8, now: u64, clock: u64) -> Result<(), AllocError>
    requires moment { now ≤ LATEST_MOMENT }
    requires clock { clock ≡ last_moment recorder.old.journal.start.made recorder.old.journal.entries }
    requires slot { slot < PAGES }
    ensures goes { GoesOn pcg64 recorder.old recorder.new }
    ensures gives { OnOk result (GainsGiven now slot recorder.old.journal recorder.new.journal) }
{
    wait(recorder, now, clock)?;
    made(recorder.give(slot))
}

/// Lets a moment come, if it hasn't, and nothing else.
#[tactic(auto, using(crate::proofs::GoingOn::goes_on_by_hearing, crate::proofs::GoingOn::stays, crate::proofs::Making::waits_heard, crate::proofs::Making::waits_none))]
fn wait(recorder: &mut Recorder<Pcg>, now: u64, clock: u64) -> Result<(), AllocError>
    requires moment { now ≤ LATEST_MOMENT }
    requires clock { clock ≡ last_moment recorder.old.journal.start.made recorder.old.journal.entries }
    ensures goes { GoesOn pcg64 recorder.old recorder.new }
    ensures waits { OnOk result (Waits now recorder.old.journal recorder.new.journal) }
{
    if clock < now {
        made(recorder.hear(&[], now))
    } else {
        Ok(())
    }
}

/// The last moment behind these entries, if this was the last before them.
fn clock_after(clock: u64, entries: &[Entry]) -> u64
    ensures { result ≡ last_moment clock entries.now }
{
    let mut clock = clock;
    for entry in entries {
        clock = clock_behind(clock, entry);
    }
    clock
}

fn clock_behind(clock: u64, entry: &Entry) -> u64
    ensures { result ≡ greatest (clock ∷ moments_counted entry.now.verdict entry.now) }
{
    if counts(entry) {
        clock.max(entry.moment)
    } else {
        clock
    }
}

/// Whether an entry moves the clock.
fn counts(entry: &Entry) -> bool
    ensures { moments_counted entry.now.verdict entry.now ≡ (if result then entry.now.moment ∷ [] else []) }
{
    match entry.verdict {
        Verdict::Refused(_) => false,
        Verdict::Done | Verdict::Ignored(_) => takes_moment(&entry.input),
    }
}

fn takes_moment(input: &Input) -> bool
    ensures { result ≡ takes_moment input.now }
{
    !matches!(input, Input::Gave(_) | Input::Took(_))
}

/// Out of memory, or else that the call was made.
fn made<T: Drop>(answer: Result<T, AgentFault>) -> Result<(), AllocError>
    ensures { OnOk result (answer ≡ Err Memory → ⊥) }
{
    match answer {
        Err(AgentFault::Memory) => Err(AllocError),
        _ => Ok(()),
    }
}

/// What was taken, slot by slot.
fn lists(alloc: Global, lines: &[Line]) -> Result<Vec<Vec<PageMsg>>, AllocError>
    ensures all { IfOk result (λ taken. taken_in taken.items ≡ lists_in lines.now) }
    ensures slots { IfOk result (λ taken. vec_len taken ≡ PAGES) }
{
    let mut taken = Vec::new(alloc);
    'slots: for slot in 0..PAGES {
        let list = list_in(alloc, lines, slot)?;
        taken.push(list)?;
    }
    Ok(taken)
}

/// What was taken in a slot.
fn list_in(alloc: Global, lines: &[Line], slot: u8) -> Result<Vec<PageMsg>, AllocError>
    ensures { IfOk result (λ list. list.items ≡ list_in lines.now slot) }
{
    let mut list = Vec::new(alloc);
    for line in lines {
        add_taken(&mut list, slot, &line.call)?;
    }
    Ok(list)
}

fn add_taken(list: &mut Vec<PageMsg>, slot: u8, call: &Call) -> Result<(), AllocError>
    ensures { OnOk result (list.new.items ≡ list.old.items ++ cons_option (took_in slot call.now) []) }
{
    match call {
        Call::Took(other, message) if *other == slot => {
            list.push(message.copy()?).map_err(AllocError::from)
        }
        _ => Ok(()),
    }
}
