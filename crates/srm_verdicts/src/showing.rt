//! What an audit prints.

ghost use Rattle.std.specs.Prelude.{◌≡◌, ◌≤◌, None, IfErr, IfOk, OnOk};
ghost use Rattle.srm_played.specs.declared.limits.TheConstants.{MOST_EVENTS};
ghost use Rattle.srm_verdicts.specs.AuditFaults.{IsUnsaid};
ghost use Rattle.srm_verdicts.specs.Shown.{IsShown, IsUnshown};
ghost use Rattle.srm_verdicts.specs.Unsaid.{events_in, unsaid, IsRefusedPicture};
ghost use Rattle.srm_verdicts.specs.VerdictTexts as spec;
ghost use Rattle.srm_verdicts.specs.declared.fault.AuditFault.TheVariants.{Memory};
ghost use Rattle.srm_verdicts.specs.declared.no_script.NoScript.TheVariants.{Unread};

use crate::counting::events_in;
use crate::drawing::draw_script;
use crate::fault::AuditFault;
use crate::no_script::NoScript;
use crate::scripting::script_of;
use crate::wording::verdict_text;
use srm_audited::Verdict;
use srm_frames::Record;
use srm_options::{AuditOptions, AuditOutput, Names};
use srm_played::MOST_EVENTS;
use srm_world::Trace;
use std::alloc::Global;

/// Returns a verdict on records as the options ask for it: in words, or an honest run as a script or a picture.
///
/// Fails with [`AuditFault::NoScript`] if a script can't say the run, and if out of memory.
#[tactic(auto, using(crate::proofs::Refused::script_shown, crate::proofs::Refused::picture_shown))]
pub fn shown_text(
    alloc: Global,
    options: &AuditOptions<'_>,
    records: &[Record],
    verdict: &Verdict,
) -> Result<Vec<u8>, AuditFault>
    ensures shown { IfOk result (λ text. IsShown options.now.output options.now.names (spec.paths_of options.now.files.items) records.now verdict.now text.items) }
    ensures none { IfErr result (IsUnshown options.now.output records.now verdict.now) }
{
    match (options.output, verdict) {
        (AuditOutput::Script, Verdict::Honest(trace)) => script_of(alloc, records, trace),
        (AuditOutput::Picture, Verdict::Honest(trace)) => picture_of(alloc, records, trace),
        _ => words(
            alloc,
            &options.names,
            options.files.as_slice(),
            records,
            verdict,
        ),
    }
}

#[tactic(auto, using(crate::proofs::Refused::pictures, crate::proofs::Refused::undrawn, crate::proofs::Refused::too_many))]
fn picture_of(alloc: Global, records: &[Record], trace: &Trace) -> Result<Vec<u8>, AuditFault>
    ensures few { OnOk result (events_in trace.now.entries ≤ MOST_EVENTS) }
    ensures said { OnOk result (unsaid records.now trace.now.entries ≡ None) }
    ensures none { IfErr result (IsUnsaid (IsRefusedPicture records.now trace.now.entries)) }
{
    let text = script_of(alloc, records, trace)?;
    if events_in(trace.entries()) > MOST_EVENTS {
        return Err(AuditFault::NoScript(NoScript::TooManyEvents));
    }
    draw_counted(alloc, text.as_slice())
}

// The events were counted, so a script that is refused here isn't read as it was written.
fn draw_counted(alloc: Global, text: &[u8]) -> Result<Vec<u8>, AuditFault>
    ensures { IfErr result (IsUnsaid (λ why. why ≡ Unread)) }
{
    match draw_script(alloc, text) {
        Err(AuditFault::NoScript(_)) => Err(AuditFault::NoScript(NoScript::Unread)),
        drawn => drawn,
    }
}

fn words(
    alloc: Global,
    names: &Names,
    paths: &[&str],
    records: &[Record],
    verdict: &Verdict,
) -> Result<Vec<u8>, AuditFault>
    ensures text { IfOk result (λ text. text.items ≡ spec.verdict_text names.now (spec.paths_of paths.now) records.now verdict.now) }
    ensures none { IfErr result (λ fault. fault ≡ Memory) }
{
    let text = verdict_text(alloc, names, paths, records, verdict)?;
    Ok(Vec::from_slice(alloc, text.as_bytes())?)
}
