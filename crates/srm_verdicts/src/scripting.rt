//! An honest run as a script.

ghost use Rattle.std.specs.Prelude.{◌≡◌, ◌≤◌, length, None, IfErr, IfOk, OnOk};
ghost use Rattle.srm_verdicts.specs.AuditFaults.{IsUnsaid};
ghost use Rattle.srm_verdicts.specs.Unsaid.{IsRefusedScript, unsaid};
ghost use Rattle.srm_verdicts.specs.declared.no_script.TheConstants.{LONGEST_SCRIPT};
ghost use Rattle.srm_verdicts.specs.declared.fault.AuditFault.TheVariants.{Memory};

use crate::counting::record_of;
use crate::fault::AuditFault;
use crate::no_script::{LONGEST_SCRIPT, NoScript, find_unsaid};
use crate::ordering::wall_order;
use srm_entries::{Config, DEFAULT_DEPTH, DEFAULT_RATE, Entry, Input, Settings};
use srm_frames::Record;
use srm_names::{Member, Page};
use srm_timers::{Pcg, Words};
use srm_world::Trace;
use std::alloc::Global;
use std::io;
use std::io::Write;

/// Returns an honest run of these records as a script that `srm world --extended` plays: what the members were given and what page workers took, in the order of
/// [`wall_order`]. Noise, which changes nothing, is left out.
///
/// Fails with [`AuditFault::NoScript`] if a script can't say it, or would have more than 1,000,000 bytes, and if out of memory.
pub fn script_of(alloc: Global, records: &[Record], trace: &Trace) -> Result<Vec<u8>, AuditFault>
    ensures fits { IfOk result (λ text. length text.items ≤ LONGEST_SCRIPT) }
    ensures said { OnOk result (unsaid records.now trace.now.entries ≡ None) }
    ensures unsaid { IfErr result (IsUnsaid (IsRefusedScript records.now trace.now.entries)) }
{
    let entries = trace.entries();
    if let Some(unsaid) = find_unsaid(records, entries) {
        return Err(AuditFault::NoScript(unsaid));
    }
    let Some(first) = records.first() else {
        return Ok(Vec::new(alloc));
    };
    let config = first.beginning.config;
    let mut text = Vec::new(alloc);
    put_head(&mut text, config, records, entries).map_err(of_vector)?;
    for placed in wall_order(alloc, records, entries, config.members())? {
        if text.len() > LONGEST_SCRIPT {
            return Err(AuditFault::NoScript(NoScript::TooLong));
        }
        if let Some(entry) = entries.get(placed.place) {
            put_event(&mut text, entry, placed.number).map_err(of_vector)?;
        }
    }
    if text.len() > LONGEST_SCRIPT {
        return Err(AuditFault::NoScript(NoScript::TooLong));
    }
    Ok(text)
}

// A vector refuses bytes only if out of memory.
fn of_vector(_error: io::Error) -> AuditFault
    ensures { result ≡ Memory }
{
    AuditFault::Memory
}

// The first lines. All members have the rate, the depth and the floor under distances of these settings.
fn put_head<O: Write>(
    out: &mut O,
    config: Config,
    records: &[Record],
    entries: &[Entry],
) -> io::Result<()> {
    writeln!(out, "members {}", config.members())?;
    if config.rate() != DEFAULT_RATE || config.depth() != DEFAULT_DEPTH {
        writeln!(out, "bucket {} {}", config.rate(), config.depth())?;
    }
    for number in 0..config.members() {
        if let Some(read) = record_of(records, number) {
            let me = read.beginning.config.me();
            put_words(out, me, read.beginning.seed, count_arms(entries, me))?;
        }
    }
    if config.least_distance() != Settings::default().least_distance {
        writeln!(out, "distance {}", config.least_distance())?;
    }
    Ok(())
}

// The random numbers that a member's waits consumed: each timer that was set consumed one.
fn put_words<O: Write>(out: &mut O, member: Member, seed: u64, count: usize) -> io::Result<()> {
    if count == 0 {
        return Ok(());
    }
    write!(out, "words {}", member.number())?;
    let mut words = Pcg::new(seed);
    for _ in 0..count {
        write!(out, " {}", words.word())?;
    }
    writeln!(out)
}

// How many timers a member set.
fn count_arms(entries: &[Entry], member: Member) -> usize {
    let mut count = 0_usize;
    for entry in entries {
        if entry.member == member {
            count = count.saturating_add(entry.effects.arms.as_slice().len());
        }
    }
    count
}

// The line of an event, if it has one.
fn put_event<O: Write>(out: &mut O, entry: &Entry, number: Option<usize>) -> io::Result<()> {
    let member = entry.member.number();
    let moment = entry.moment;
    match &entry.input {
        Input::Drew(page, body) => put_draw(out, member, moment, *page, body),
        Input::Heard(_) => match number {
            Some(number) => writeln!(out, "deliver {member} {moment} {number}"),
            None => Ok(()),
        },
        Input::Noise => Ok(()),
        Input::Ticked => writeln!(out, "tick {member} {moment}"),
        Input::Showed(page) => {
            let creator = page.creator.number();
            writeln!(out, "show {member} {moment} {creator}.{}", page.number)
        }
        Input::AskedLeave => writeln!(out, "leave {member} {moment}"),
        Input::Gave(slot) => writeln!(out, "give {member} {slot}"),
        Input::Took(slot) => writeln!(out, "take {member} {slot}"),
    }
}

fn put_draw<O: Write>(
    out: &mut O,
    member: u8,
    moment: u64,
    page: Page,
    body: &[u8],
) -> io::Result<()> {
    let creator = page.creator.number();
    write!(out, "draw {member} {moment} {creator}.{}", page.number)?;
    // An empty stroke has no space before it.
    if !body.is_empty() {
        out.write_all(b" ")?;
        out.write_all(body)?;
    }
    writeln!(out)
}
