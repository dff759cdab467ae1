//! Where in the files it shows that records aren't honest, as a line.

ghost use Rattle.std.specs.Prelude.{◌≡◌, ◌≤◌, ◌++◌, codes, length, take, slice_get, string_bytes, IfOk};
ghost use Rattle.std.specs.Fmt.{decimal};
ghost use Rattle.srm_verdicts.specs.Calls.{calls_among};
ghost use Rattle.srm_verdicts.specs.Details as spec;
ghost use Rattle.srm_verdicts.specs.VerdictTexts.{paths_of};

use crate::counting::{calls_among, is_call};
use srm_audited::Reason;
use srm_frames::{Line, Record};
use std::alloc::{AllocError, Global};

/// Returns a line that says where in the files a reason stands, if it names no call of a member: the first call that differs, the two files of one member, or the file that is of
/// another session. The paths are those of the records, in their order. Fails only if out of memory.
pub fn detail(
    alloc: Global,
    paths: &[&str],
    records: &[Record],
    reason: Reason,
) -> Result<String, AllocError>
    ensures { IfOk result (λ text. string_bytes text ≡ spec.detail (paths_of paths.now) records.now reason) }
{
    match reason {
        Reason::Untold { place, line } => first_other(alloc, paths, records, place, line),
        Reason::Roster => mixed(alloc, paths, records),
        Reason::Foreign { .. } | Reason::Unsent { .. } => Ok(String::new(alloc)),
    }
}

// The first line of a record that differs.
fn first_other(
    alloc: Global,
    paths: &[&str],
    records: &[Record],
    place: usize,
    line: usize,
) -> Result<String, AllocError>
    ensures { IfOk result (λ text. string_bytes text ≡ spec.first_other (paths_of paths.now) records.now place line) }
{
    let name = name_in(alloc, records, place, line)?;
    let path = path_at(paths, place);
    format!(in alloc; "{name} of {path} is the first that differs when its calls are made again\n")
}

// What a line of the record at a place is called.
fn name_in(
    alloc: Global,
    records: &[Record],
    place: usize,
    line: usize,
) -> Result<String, AllocError>
    ensures { IfOk result (λ text. string_bytes text ≡ spec.name_in (slice_get records.now place) line) }
{
    match records.get(place) {
        Some(read) => name_of(alloc, read.lines.as_slice(), line),
        None => format!(in alloc; "frame {line}"),
    }
}

// What the line at a place is called: a call by its number among calls, another by its place.
fn name_of(alloc: Global, lines: &[Line], place: usize) -> Result<String, AllocError>
    ensures { IfOk result (λ text. string_bytes text ≡ spec.name_of lines.now place (slice_get lines.now place)) }
{
    match lines.get(place) {
        Some(line) if is_call(&line.call) => call_name(alloc, lines, place),
        _ => format!(in alloc; "frame {place}"),
    }
}

fn call_name(alloc: Global, lines: &[Line], place: usize) -> Result<String, AllocError>
    requires { place ≤ length lines.now }
    ensures { IfOk result (λ text. string_bytes text ≡ codes "call " ++ decimal (calls_among (take place lines.now))) }
{
    let (before, _) = lines.split_at(place);
    let call = calls_among(before);
    format!(in alloc; "call {call}")
}

// Which records can't be of different members of one session.
fn mixed(alloc: Global, paths: &[&str], records: &[Record]) -> Result<String, AllocError>
    ensures { IfOk result (λ text. string_bytes text ≡ spec.mixed (paths_of paths.now) records.now) }
{
    if let Some(other) = first_stranger(records) {
        return pair_line(alloc, paths, 0, other, "different sessions");
    }
    match first_double(records) {
        Some((one, other)) => pair_line(alloc, paths, one, other, "one member"),
        None => Ok(String::new(alloc)),
    }
}

// What the records at two places are of.
fn pair_line(
    alloc: Global,
    paths: &[&str],
    one: usize,
    other: usize,
    what: &str,
) -> Result<String, AllocError>
    ensures { IfOk result (λ text. string_bytes text ≡ spec.pair_line (paths_of paths.now) one other what.now) }
{
    let first = path_at(paths, one);
    let second = path_at(paths, other);
    format!(in alloc; "{first} and {second} are of {what}\n")
}

/// Returns the path of the record at a place; none is empty.
pub fn path_at<'a>(paths: &[&'a str], place: usize) -> &'a str
    ensures { result.now ≡ spec.path_at (paths_of paths.now) place }
{
    paths.get(place).copied().unwrap_or("")
}

// The place of the first record that isn't of the session and the number of members of the record in front.
fn first_stranger(records: &[Record]) -> Option<usize>
    ensures { result ≡ spec.first_stranger records.now }
{
    match records {
        [] => None,
        [first, ..] => stranger_in(records, first),
    }
}

// The place of the first of these records that isn't of the session and the number of members of this one.
fn stranger_in(records: &[Record], first: &Record) -> Option<usize>
    ensures { result ≡ spec.stranger_in records.now first.now }
{
    let session = first.beginning.config.session();
    let members = first.beginning.config.members();
    records.iter().position(|read| {
        read.beginning.config.session() != session || read.beginning.config.members() != members
    })
}

// The places of two records of one member: the first that has another behind it, and the first of those.
fn first_double(records: &[Record]) -> Option<(usize, usize)>
    ensures { result ≡ spec.first_double 0 records.now }
{
    for (one, read) in records.iter().enumerate() {
        let (_, behind) = records.split_at(one + 1);
        if let Some(other) = twin_in(behind, read) {
            return Some((one, one + 1 + other));
        }
    }
    None
}

// The place of the first of these records that is of the member of this one.
fn twin_in(records: &[Record], read: &Record) -> Option<usize>
    ensures { result ≡ spec.twin_in records.now read.now }
{
    let member = read.beginning.config.me().number();
    records
        .iter()
        .position(|other| other.beginning.config.me().number() == member)
}
