//! Records, put together.

ghost use Rattle.std.specs.Prelude.{◌≡◌, [], Some, IfErr, IfOk, OnOk};
ghost use Rattle.srm_gaps.specs.Possible.{HasOrder};
ghost use Rattle.srm_audited.specs.Sessions.{AreListed, AreOf};
ghost use Rattle.srm_gaps.specs.Gaps.{AreComplete};
ghost use Rattle.srm_audited.specs.Verdicts.{AreGiven, AreHonest, ArePart, IsMismatch, IsStoppedAt, IsUnjudged, IsVerdict, IsVerdictOn, told_of_stop, verdict_of_part, verdict_of_whole};
ghost use Rattle.srm_audited.specs.declared.unjudged.Unjudged.TheVariants.{Memory};

use crate::gathering::{Gathered, add};
use crate::giving::first_ungiven;
use crate::unjudged::Unjudged;
use crate::verdict::{Reason, Verdict};
use srm_audit::{Got, Mismatch, reconcile};
use srm_frames::Record;
use srm_gaps::{Told, are_complete, are_of_one_session, first_stuck, journals_of};
use srm_record::RetellFault;
use srm_world::Trace;
use std::alloc::{AllocError, Global};

/// Returns whether records, in any order, are one honest run of all members of a session.
///
/// `Honest` has the run: the calls of the records, each member's in their order, and then what page workers took. `NotHonest` says why no honest run has these records,
/// whatever stands behind their cuts and in records that are missing; the first record that is of no run comes before all else. `Undecided` comes only where a record is missing or cut, where each call could follow if the
/// members of such records sent what was heard of them, and where page workers took what their members gave.
///
/// Fails with [`Unjudged::TooMuch`] for the first record whose calls set more timers than one of its length may, if all before it are of runs, and if out of memory. Makes each
/// record's calls anew, once; stores the bytes of each datagram that was sent, twice where a record is missing or cut.
#[tactic(auto, using(crate::proofs::Judged::of_records_ok, crate::proofs::Given::are_listed, crate::proofs::SoFar::stop_told, crate::proofs::SoFar::stop_unjudged, crate::proofs::SoFar::unjudged_by_memory))]
pub fn audit(alloc: Global, records: &[Record]) -> Result<Verdict, Unjudged>
    ensures verdict { IfOk result (IsVerdict records.now) }
    ensures unjudged { IfErr result (IsUnjudged records.now) }
{
    let mut gathered = Gathered {
        told: Vec::new(alloc),
        gots: Vec::new(alloc),
    };
    match gather(alloc, &mut gathered, records) {
        Ok(()) => told_of_all(alloc, gathered),
        Err(Stop { place, fault }) => told_of_stop(place, fault),
    }
}

// Where the calls of a record gave no replay, and why.
#[derive(Clone, Copy)]
struct Stop {
    place: usize,
    fault: RetellFault,
}

// Makes the calls of records anew, up to the first record that gives no replay.
#[tactic(auto, using(crate::proofs::SoFar::none_of, crate::proofs::SoFar::stopped_at))]
fn gather(alloc: Global, gathered: &mut Gathered, records: &[Record]) -> Result<(), Stop>
    requires empty { gathered.old.told.items ≡ [] }
    requires none { gathered.old.gots.items ≡ [] }
    ensures all { OnOk result (AreOf records.now gathered.new.told.items gathered.new.gots.items) }
    ensures stop { IfErr result (λ stop. IsStoppedAt records.now stop.place stop.fault) }
{
    for (place, read) in records.iter().enumerate() {
        match add(alloc, gathered, read) {
            Ok(()) => {}
            Err(fault) => return Err(Stop { place, fault }),
        }
    }
    Ok(())
}

fn told_of_stop(place: usize, fault: RetellFault) -> Result<Verdict, Unjudged>
    ensures { result ≡ told_of_stop place fault }
{
    match fault {
        RetellFault::Untold(line) => Ok(Verdict::NotHonest(Reason::Untold { place, line })),
        RetellFault::TooMuch(line) => Err(Unjudged::TooMuch { place, line }),
        RetellFault::Memory => Err(Unjudged::Memory),
    }
}

// The verdict where each record gave a replay.
fn told_of_all(alloc: Global, gathered: Gathered) -> Result<Verdict, Unjudged>
    requires { AreListed gathered.told.items gathered.gots.items }
    ensures verdict { IfOk result (IsVerdictOn gathered.told.items gathered.gots.items) }
    ensures memory { IfErr result (λ fault. fault ≡ Memory) }
{
    match judge(alloc, gathered) {
        Ok(verdict) => Ok(verdict),
        Err(_) => Err(Unjudged::Memory),
    }
}

#[tactic(auto, using(crate::proofs::Judged::no_roster, crate::proofs::Judged::are_part))]
fn judge(alloc: Global, gathered: Gathered) -> Result<Verdict, AllocError>
    requires { AreListed gathered.told.items gathered.gots.items }
    ensures { IfOk result (IsVerdictOn gathered.told.items gathered.gots.items) }
{
    let Gathered { told, gots } = gathered;
    if are_complete(&told) {
        return conclude(alloc, told, gots);
    }
    if !are_of_one_session(&told) {
        return Ok(Verdict::NotHonest(Reason::Roster));
    }
    suppose(alloc, told, gots)
}

// The verdict where no record is missing or cut.
fn conclude(alloc: Global, told: Vec<Told>, gots: Vec<Got>) -> Result<Verdict, AllocError>
    requires { AreComplete told.items }
    ensures { IfOk result (IsVerdictOn told.items gots.items) }
{
    match put_together(alloc, told, gots) {
        Ok(trace) => Ok(Verdict::Honest(trace)),
        Err(mismatch) => told_of_whole(mismatch),
    }
}

fn told_of_whole(mismatch: Mismatch) -> Result<Verdict, AllocError>
    ensures { IfOk result (λ verdict. verdict_of_whole mismatch ≡ Some verdict) }
{
    match mismatch {
        Mismatch::Memory => Err(AllocError),
        Mismatch::Roster => Ok(Verdict::NotHonest(Reason::Roster)),
        Mismatch::Foreign { member, slot } => {
            Ok(Verdict::NotHonest(Reason::Foreign { member, slot }))
        }
        Mismatch::Unsent { member, entry } => {
            Ok(Verdict::NotHonest(Reason::Unsent { member, entry }))
        }
    }
}

// The verdict where a record is missing or cut.
#[tactic(auto, using(crate::proofs::Judged::stuck_unsent))]
fn suppose(alloc: Global, told: Vec<Told>, gots: Vec<Got>) -> Result<Verdict, AllocError>
    requires part { ArePart told.items }
    requires listed { AreListed told.items gots.items }
    ensures { IfOk result (IsVerdictOn told.items gots.items) }
{
    match first_stuck(alloc, &told)? {
        Some((member, entry)) => Ok(Verdict::NotHonest(Reason::Unsent { member, entry })),
        None => decide(alloc, told, gots),
    }
}

// The verdict where a record is missing or cut, and the calls have a possible order.
#[tactic(auto, using(crate::proofs::Judged::taken_ungiven))]
fn decide(alloc: Global, told: Vec<Told>, gots: Vec<Got>) -> Result<Verdict, AllocError>
    requires part { ArePart told.items }
    requires listed { AreListed told.items gots.items }
    requires order { HasOrder told.items }
    ensures { IfOk result (IsVerdictOn told.items gots.items) }
{
    if let Some((member, slot)) = first_ungiven(&told, &gots) {
        return Ok(Verdict::NotHonest(Reason::Foreign { member, slot }));
    }
    settle(alloc, told, gots)
}

// The same, and page workers took what their own members gave.
fn settle(alloc: Global, told: Vec<Told>, gots: Vec<Got>) -> Result<Verdict, AllocError>
    requires part { ArePart told.items }
    requires listed { AreListed told.items gots.items }
    requires order { HasOrder told.items }
    requires given { AreGiven told.items gots.items }
    ensures { IfOk result (IsVerdictOn told.items gots.items) }
{
    match put_together(alloc, told, gots) {
        Ok(trace) => Ok(Verdict::Honest(trace)),
        Err(mismatch) => told_of_part(mismatch),
    }
}

// No list is foreign here, since all are given: a member is missing, or an entry hears what isn't sent.
fn told_of_part(mismatch: Mismatch) -> Result<Verdict, AllocError>
    ensures { IfOk result (λ verdict. verdict_of_part mismatch ≡ Some verdict) }
{
    match mismatch {
        Mismatch::Memory => Err(AllocError),
        _ => Ok(Verdict::Undecided),
    }
}

// The journals and lists as they are, put together into one honest run.
fn put_together(alloc: Global, told: Vec<Told>, gots: Vec<Got>) -> Result<Trace, Mismatch>
    ensures honest { IfOk result (AreHonest told.items gots.items) }
    ensures refused { IfErr result (IsMismatch told.items gots.items) }
{
    let Ok(journals) = journals_of(alloc, told) else {
        return Err(Mismatch::Memory);
    };
    reconcile(alloc, journals, gots)
}
