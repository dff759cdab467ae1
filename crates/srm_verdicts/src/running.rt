//! The whole of `srm audit`.

ghost use Rattle.std.specs.Prelude.{◌≡◌, ◌⊎◌, IfErr, IfOk, OnErr, OnOk};
ghost use Rattle.std.specs.Io.KnownBytes.{Appends, Keeps};
ghost use Rattle.srm_audited.specs.Verdicts.{IsVerdict};
ghost use Rattle.srm_output.specs.Writing.{AppendsFront};
ghost use Rattle.srm_verdicts.specs.Shown.{IsAudited, IsOfVerdict, IsFaultOf, IsPrinted, IsPrintedOfFiles, Leaves, LeavesOfFiles};
ghost use Rattle.srm_verdicts.specs.VerdictTexts.{paths_of};
ghost use Rattle.srm_verdicts.specs.declared.fault.AuditFault.TheVariants.{Memory, Output};

use crate::detailing::path_at;
use crate::fault::AuditFault;
use crate::reading::read_records;
use crate::showing::shown_text;
use crate::status::status_of;
use srm_audited::{Unjudged, Verdict, audit};
use srm_frames::Record;
use srm_options::AuditOptions;
use srm_output::write_bytes;
use std::alloc::Global;
use std::io;
use std::io::Write;
use std::rt::Files;

/// Reads the records in the options' files, in any order, and prints to `out` whether they are one honest run of all members of a session, or that run as the options ask for it. A
/// fault goes to `err`, and nothing else is printed then, unless the output failed.
///
/// Returns the program's status: 0 if they are; 1 if a file can't be read or is no record, a record's calls set too many timers, the run can't be printed as asked, or the output fails; 4 if memory ran out;
/// [`NOT_HONEST`](crate::NOT_HONEST), 6, if they are no honest run; [`UNDECIDED`](crate::UNDECIDED), 7, if a record is missing or cut and their calls may be of one.
pub fn run_audit<R: Files + AllocGlobal, O: Write, E: Write>(
    rt: &R,
    options: &AuditOptions<'_>,
    out: &mut O,
    err: &mut E,
) -> u8
    ensures audited { IsAudited options.now.output options.now.names (paths_of options.now.files.items) result (O.contents out.old) (O.contents out.new) }
    // Nothing goes to standard error beside a verdict.
    ensures quiet { IsOfVerdict result → Keeps (E.contents err.old) (E.contents err.new) }
{
    match run(rt, rt.alloc(), options, out) {
        Ok(status) => status,
        Err(fault) => fault.print(err),
    }
}

#[tactic(auto, using(crate::proofs::FilesRead::are_read))]
fn run<R: Files + AllocGlobal, O: Write>(
    rt: &R,
    alloc: Global,
    options: &AuditOptions<'_>,
    out: &mut O,
) -> Result<u8, AuditFault>
    ensures printed { IfOk result (λ status. IsPrintedOfFiles options.now.output options.now.names (paths_of options.now.files.items) status (O.contents out.old) (O.contents out.new)) }
    ensures left { IfErr result (λ fault. LeavesOfFiles options.now.output options.now.names (paths_of options.now.files.items) fault (O.contents out.old) (O.contents out.new)) }
{
    let records = read_records(rt, options.files.as_slice())?;
    print_audit(alloc, options, records.as_slice(), out)
}

/// Judges records that were read of the options' files, in their order, and prints to `out` the verdict, or the run as the options ask for it. Returns the status of the
/// verdict, as [`run_audit`] does.
///
/// Fails with [`AuditFault::TooMuch`] if a record's calls set more timers than one of its length may, with [`AuditFault::NoScript`] if the run is honest and can't be printed as asked, with [`AuditFault::Output`] if `out` does, and if out of memory. Nothing is printed
/// then, unless `out` failed: it has a front of the text.
pub fn print_audit<O: Write>(
    alloc: Global,
    options: &AuditOptions<'_>,
    records: &[Record],
    out: &mut O,
) -> Result<u8, AuditFault>
    // The status is that of a verdict on the records, and what is printed is that verdict: in words where no script or picture is asked for.
    ensures printed { IfOk result (λ status. IsPrinted options.now.output options.now.names (paths_of options.now.files.items) records.now status (O.contents out.old) (O.contents out.new)) }
    ensures left { IfErr result (λ fault. Leaves options.now.output options.now.names (paths_of options.now.files.items) records.now fault (O.contents out.old) (O.contents out.new)) }
{
    match audit(alloc, records) {
        Ok(verdict) => print(alloc, options, records, &verdict, out),
        Err(unjudged) => Err(unjudged_fault(alloc, options.files.as_slice(), unjudged)),
    }
}

// Why records from files with these paths weren't judged.
fn unjudged_fault(alloc: Global, paths: &[&str], unjudged: Unjudged) -> AuditFault
    ensures { IsFaultOf (paths_of paths.now) unjudged result }
{
    let Unjudged::TooMuch { place, line } = unjudged else {
        return AuditFault::Memory;
    };
    match String::from_str(alloc, path_at(paths, place)) {
        Ok(path) => AuditFault::TooMuch(path, line),
        Err(_) => AuditFault::Memory,
    }
}

// Prints a verdict on these records as the options ask for it, and returns its status.
fn print<O: Write>(
    alloc: Global,
    options: &AuditOptions<'_>,
    records: &[Record],
    verdict: &Verdict,
    out: &mut O,
) -> Result<u8, AuditFault>
    requires { IsVerdict records.now verdict.now }
    ensures printed { IfOk result (λ status. IsPrinted options.now.output options.now.names (paths_of options.now.files.items) records.now status (O.contents out.old) (O.contents out.new)) }
    ensures left { IfErr result (λ fault. Leaves options.now.output options.now.names (paths_of options.now.files.items) records.now fault (O.contents out.old) (O.contents out.new)) }
{
    let text = shown_text(alloc, options, records, verdict)?;
    write_text(out, text.as_slice())?;
    Ok(status_of(verdict))
}

fn write_text<O: Write>(out: &mut O, text: &[u8]) -> Result<(), AuditFault>
    ensures printed { OnOk result (Appends (O.contents out.old) (O.contents out.new) text.now) }
    ensures cut { OnErr result (AppendsFront (O.contents out.old) (O.contents out.new) text.now) }
    ensures fault { IfErr result (λ fault. (fault ≡ Memory) ⊎ (fault ≡ Output)) }
{
    match write_all(out, text) {
        Ok(()) => Ok(()),
        Err(error) => Err(AuditFault::of_output(error)),
    }
}

#[tactic(auto, using(srm_output::proofs::Gathered::all_of_all, srm_output::proofs::Gathered::kept_on))]
fn write_all<O: Write>(out: &mut O, text: &[u8]) -> io::Result<()>
    ensures printed { OnOk result (Appends (O.contents out.old) (O.contents out.new) text.now) }
    ensures cut { OnErr result (AppendsFront (O.contents out.old) (O.contents out.new) text.now) }
{
    write_bytes(out, text)?;
    out.flush()
}
