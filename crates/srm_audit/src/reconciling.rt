//! Putting the journals of one session together into one run.

ghost use Rattle.std.specs.Prelude.{◌<◌, length, IfErr, IfOk};
ghost use Rattle.srm_world.specs.Traces.{IsHonest, IsRoster, IsRun};
ghost use Rattle.srm_world.specs.Claims.{AgreesAtRest, TakesAreDrawn};
ghost use Rattle.srm_audit.specs.Audits.{AreAccountedBy, IsRefused, starts_of};
ghost use Rattle.srm_audit.specs.Refusals.{IsForeignAt, IsReconciled, IsRefusedInOrder};

use crate::ending::endings;
use crate::found::first_foreign;
use crate::got::Got;
use crate::mismatch::Mismatch;
use crate::opening::{know, open};
use crate::roster::arrange;
use crate::take::take_all;
use srm_entries::Entry;
use srm_world::{Journal, Start, Trace};
use std::alloc::Global;

/// Puts the journals of all members of a session, in any order, and what page workers took, together into one honest run. The trace has
/// first the entries of the journals, each member's in their order, and then the takes, in the order of the lists. So what the workers
/// took was drawn, and members at rest agree, without trust in any member.
///
/// The first of these faults that holds: [`Mismatch::Roster`] if the journals aren't one for each member of one roster in one session;
/// [`Mismatch::Foreign`] for the first list whose member or page slot doesn't exist, that has those of an earlier list, or that isn't a
/// prefix of what the member gave there; [`Mismatch::Unsent`] if an entry hears what nobody can have sent before it. [`Mismatch::Memory`]
/// comes after Roster and Foreign, and may come in place of Unsent. On a fault the journals and the lists are dropped.
///
/// Stores the bytes of each datagram that was sent while it runs.
pub fn reconcile(alloc: Global, journals: Vec<Journal>, gots: Vec<Got>) -> Result<Trace, Mismatch>
    ensures assembles { IfOk result (AreAccountedBy journals.items gots.items) }
    ensures run { IfOk result IsRun }
    ensures honest { IfOk result (λ t. IsHonest t.entries) }
    ensures takes { IfOk result (λ t. TakesAreDrawn t.entries) }
    ensures rest { IfOk result (λ t. AgreesAtRest t.entries) }
    ensures refused { IfErr result (IsRefused journals.items gots.items) }
{
    let mut journals = journals;
    if !arrange(journals.as_mut_slice()) {
        return Err(Mismatch::Roster);
    }
    let (starts, entries) = assemble(alloc, journals, &gots)?;
    Ok(Trace::new(starts, entries))
}

/// Returns how the members began, and the entries of their trace. The journals are in order of member.
fn assemble(
    alloc: Global,
    journals: Vec<Journal>,
    gots: &[Got],
) -> Result<(Vec<Start>, Vec<Entry>), Mismatch>
    requires { IsRoster (starts_of journals.items) }
    ensures ok { IfOk result (λ parts. IsReconciled journals.items gots.now (record { starts = parts.0.items; entries = parts.1.items })) }
    ensures err { IfErr result (IsRefusedInOrder journals.items gots.now) }
{
    know(&journals);
    if let Some(place) = first_foreign(&journals, gots) {
        return Err(foreign(gots, place));
    }
    let endings = endings(alloc, &journals)?;
    let (starts, merge) = open(alloc, journals)?;
    let mut entries = merge.order(alloc, &starts)?;
    take_all(alloc, &mut entries, &endings, gots)?;
    Ok((starts, entries))
}

/// The mismatch that names the list at a place.
fn foreign(gots: &[Got], place: usize) -> Mismatch
    requires { place < length gots.now }
    ensures { IsForeignAt gots.now place result }
{
    let got = &gots[place];
    Mismatch::Foreign {
        member: got.member,
        slot: got.slot,
    }
}
