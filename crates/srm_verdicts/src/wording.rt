//! A verdict in words.

ghost use Rattle.std.specs.Prelude.{◌≡◌, string_bytes, IfOk};
ghost use Rattle.srm_audited.specs.Sessions.{is_cut};
ghost use Rattle.srm_audited.specs.declared.verdict.Verdict.TheVariants.{NotHonest};
ghost use Rattle.srm_verdicts.specs.VerdictTexts as spec;

use crate::counting::{call_of_entry, calls_in, calls_in_all, cuts_in, is_cut, session_of};
use crate::detailing::{detail, path_at};
use srm_audited::{Reason, Verdict};
use srm_frames::Record;
use srm_options::Names;
use std::alloc::{AllocError, Global};

/// Returns a verdict on records as a line, perhaps one that says where in the files a reason stands, and behind it a line for each record: its member by its name or number, its path,
/// how many calls it has, and whether it is cut. The paths are those of the records, in their order.
///
/// Fails only if out of memory.
pub fn verdict_text(
    alloc: Global,
    names: &Names,
    paths: &[&str],
    records: &[Record],
    verdict: &Verdict,
) -> Result<String, AllocError>
    ensures { IfOk result (λ text. string_bytes text ≡ spec.verdict_text names.now (spec.paths_of paths.now) records.now verdict.now) }
{
    let mut text = verdict_line(alloc, names, paths, records, verdict)?;
    for (path, read) in paths.iter().zip(records) {
        let line = record_line(alloc, names, path, read)?;
        text.push_str(line.as_str())?;
    }
    Ok(text)
}

fn verdict_line(
    alloc: Global,
    names: &Names,
    paths: &[&str],
    records: &[Record],
    verdict: &Verdict,
) -> Result<String, AllocError>
    ensures { IfOk result (λ text. string_bytes text ≡ spec.verdict_line names.now (spec.paths_of paths.now) records.now verdict.now) }
{
    match verdict {
        Verdict::Honest(_) => honest_line(alloc, records),
        Verdict::NotHonest(reason) => reason_lines(alloc, names, paths, records, reason),
        Verdict::Undecided => undecided_line(alloc, records),
    }
}

fn honest_line(alloc: Global, records: &[Record]) -> Result<String, AllocError>
    ensures { IfOk result (λ text. string_bytes text ≡ spec.honest_line records.now) }
{
    let (session, members) = session_of(records);
    let members = counted(alloc, usize::from(members), "member")?;
    let calls = counted(alloc, calls_in_all(records), "call")?;
    format!(in alloc; "honest: session {session}, {members}, {calls}\n")
}

// A reason, and where it stands in the files.
fn reason_lines(
    alloc: Global,
    names: &Names,
    paths: &[&str],
    records: &[Record],
    reason: &Reason,
) -> Result<String, AllocError>
    ensures { IfOk result (λ text. string_bytes text ≡ spec.verdict_line names.now (spec.paths_of paths.now) records.now (NotHonest reason.now)) }
{
    let mut text = reason_line(alloc, names, paths, records, *reason)?;
    let more = detail(alloc, paths, records, *reason)?;
    text.push_str(more.as_str())?;
    Ok(text)
}

fn reason_line(
    alloc: Global,
    names: &Names,
    paths: &[&str],
    records: &[Record],
    reason: Reason,
) -> Result<String, AllocError>
    ensures { IfOk result (λ text. string_bytes text ≡ spec.reason_line names.now (spec.paths_of paths.now) records.now reason) }
{
    match reason {
        Reason::Untold { place, .. } => {
            let path = path_at(paths, place);
            format!(in alloc; "not honest: {path} isn't the record of any run of its member\n")
        }
        Reason::Roster => String::from_str(
            alloc,
            "not honest: the records aren't of different members of one session\n",
        ),
        Reason::Foreign { member, slot } => {
            let member = names.titled(member);
            format!(in alloc;
                "not honest: the worker of page slot {slot} of {member} took what it wasn't given\n"
            )
        }
        Reason::Unsent { member, entry } => {
            let call = call_of_entry(records, member, entry);
            let member = names.titled(member);
            format!(in alloc;
                "not honest: call {call} of {member} hears a datagram that nobody can have sent before\n"
            )
        }
    }
}

fn undecided_line(alloc: Global, records: &[Record]) -> Result<String, AllocError>
    ensures { IfOk result (λ text. string_bytes text ≡ spec.undecided_line records.now) }
{
    let (session, members) = session_of(records);
    let here = records.len();
    let wanted = counted(alloc, usize::from(members), "record")?;
    let cut = cuts_in(records);
    format!(in alloc; "undecided: session {session}, {here} of {wanted}, {cut} of them cut\n")
}

fn record_line(
    alloc: Global,
    names: &Names,
    path: &str,
    read: &Record,
) -> Result<String, AllocError>
    ensures { IfOk result (λ text. string_bytes text ≡ spec.record_line names.now path.now read.now) }
{
    let member = names.titled(read.beginning.config.me());
    let calls = counted(alloc, calls_in(read), "call")?;
    let cut = cut_text(is_cut(read.end));
    format!(in alloc; "{member}: {path}, {calls}{cut}\n")
}

// What stands behind a record that is cut.
fn cut_text(is_cut: bool) -> &'static str
    ensures { result.now ≡ spec.cut_text is_cut }
{
    if is_cut { ", cut" } else { "" }
}

// So many of what a word says.
fn counted(alloc: Global, count: usize, word: &str) -> Result<String, AllocError>
    ensures { IfOk result (λ text. string_bytes text ≡ spec.counted count word.now) }
{
    let end = plural(count);
    format!(in alloc; "{count} {word}{end}")
}

fn plural(count: usize) -> &'static str
    ensures { result.now ≡ spec.plural count }
{
    if count == 1 { "" } else { "s" }
}
