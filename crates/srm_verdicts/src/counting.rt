//! What is counted in records.

ghost use Rattle.std.specs.Prelude.{◌≡◌, option_map};
ghost use Rattle.srm_audited.specs.Sessions.{is_cut};
ghost use Rattle.srm_verdicts.specs.Unsaid.{events_in, is_event};
ghost use Rattle.srm_verdicts.specs.VerdictTexts as spec;

use srm_entries::{Config, Entry, Input};
use srm_frames::{Call, Line, Record, RecordEnd};
use srm_names::Member;

/// Returns how many calls of its member a record has.
pub fn calls_in(read: &Record) -> usize
    ensures { result ≡ spec.calls_in read.now }
{
    calls_among(read.lines.as_slice())
}

/// Returns how many of these lines are calls.
pub fn calls_among(lines: &[Line]) -> usize
    ensures { result ≡ spec.calls_among lines.now }
{
    lines.iter().filter(|line| is_call(&line.call)).count()
}

/// Returns how many calls all records have. Counts up to 2^64 - 1.
pub fn calls_in_all(records: &[Record]) -> usize
    ensures { result ≡ spec.calls_in_all records.now }
{
    let mut calls = 0_usize;
    for read in records {
        calls = calls.saturating_add(calls_in(read));
    }
    calls
}

/// Returns how many records are cut.
pub fn cuts_in(records: &[Record]) -> usize
    ensures { result ≡ spec.cuts_in records.now }
{
    records.iter().filter(|read| is_cut(read.end)).count()
}

/// Returns whether a record that ends so is cut.
pub fn is_cut(end: RecordEnd) -> bool
    ensures { result ≡ is_cut end }
{
    matches!(end, RecordEnd::Cut(_))
}

/// Returns the session and the number of its members, by the first record.
pub fn session_of(records: &[Record]) -> (u32, u8)
    ensures { result ≡ (spec.session_of records.now, spec.members_of records.now) }
{
    match records {
        [] => (0, 0),
        [first, ..] => told_by(first.beginning.config),
    }
}

/// Returns how many events the script of a run with these entries has: one for each that isn't noise.
pub fn events_in(entries: &[Entry]) -> usize
    ensures { result ≡ events_in entries.now }
{
    entries
        .iter()
        .filter(|entry| is_event(&entry.input))
        .count()
}

fn is_event(input: &Input) -> bool
    ensures { result ≡ is_event input.now }
{
    !matches!(input, Input::Noise)
}

fn told_by(config: Config) -> (u32, u8)
    ensures { result ≡ (config.session, config.members) }
{
    (config.session(), config.members())
}

/// Returns the record of the member with this number: the first, if there are several.
pub fn record_of(records: &[Record], number: u8) -> Option<&Record>
    ensures { option_map (λ read. read.now) result ≡ spec.record_of records.now number }
{
    records
        .iter()
        .find(|read| read.beginning.config.me().number() == number)
}

/// Returns which call of a member's record an entry of its replay comes of, both from 0.
pub fn call_of_entry(records: &[Record], member: Member, entry: usize) -> usize
    ensures { result ≡ spec.call_of_entry records.now member entry }
{
    match record_of(records, member.number()) {
        Some(read) => call_at(read.beginning.made, read.lines.as_slice(), entry),
        None => entry,
    }
}

fn call_at(made: u64, lines: &[Line], entry: usize) -> usize
    ensures { result ≡ spec.call_at made lines.now entry }
{
    let mut last = made;
    let mut left = entry;
    for (place, line) in lines.iter().enumerate() {
        let count = entries_of(last, line);
        if left < count {
            return place;
        }
        left -= count;
        last = line.moment;
    }
    lines.len()
}

// How many entries of a replay come of a line, where this was the last moment before.
fn entries_of(last: u64, line: &Line) -> usize
    ensures { result ≡ spec.entries_of last line.now }
{
    match line.call {
        Call::Gave(_) if last < line.moment => 2,
        _ => 1,
    }
}

/// Returns whether a line is a call of the member, and not what a page worker took or that the member ended.
pub fn is_call(call: &Call) -> bool
    ensures { result ≡ spec.is_call call.now }
{
    !matches!(call, Call::Took(_, _) | Call::Ended)
}
