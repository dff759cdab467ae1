//! The timers of a trace.

ghost use Rattle.std.specs.Prelude.{◌≡◌, Some, IfOk};
ghost use Rattle.srm_names.specs.Names.{among};
ghost use Rattle.srm_picture.specs.OneThat.{IsOneThat};
ghost use Rattle.srm_picture.specs.Brackets.{AreBrackets, AreBracketsOf, EndIs, EndsIn, EndsItself, EndsLater, EndsRight, cancelled_by, handed_out, numbered, numbered_timer, sets_anew, timer, timers_of};
ghost use Rattle.srm_entries.specs.Entries.{accepted};

use crate::bracket::{Bracket, BracketEnd, TimerEnd};
use crate::point::Point;
use srm_codec::Datagram;
use srm_entries::{Arm, ArmKind, Entry};
use std::alloc::{AllocError, Global};
use std::cmp::Ordering;

/// The bracket of each timer that was set, in order. Fails only if out of memory.
pub(crate) fn brackets(alloc: Global, entries: &[Entry]) -> Result<Vec<Bracket>, AllocError>
    ensures { IfOk result (λ brackets. AreBrackets entries.now brackets.items) }
{
    let mut brackets = Vec::new(alloc);
    for (index, entry) in entries.iter().enumerate() {
        let from = Point {
            entry: index,
            member: entry.member,
        };
        brackets.append(&mut brackets_from(alloc, entries, &from, entry.effects.arms.as_slice())?)?;
    }
    Ok(brackets)
}

/// The brackets of the timers that one entry set.
fn brackets_from(
    alloc: Global,
    entries: &[Entry],
    from: &Point,
    arms: &[Arm],
) -> Result<Vec<Bracket>, AllocError>
    ensures { IfOk result (λ brackets. AreBracketsOf entries.now (timers_of from.now arms.now) brackets.items) }
{
    let mut brackets = Vec::new(alloc);
    for (nth, arm) in arms.iter().enumerate() {
        brackets.push(bracket_of(entries, from, nth, arm))?;
    }
    Ok(brackets)
}

fn bracket_of(entries: &[Entry], from: &Point, nth: usize, arm: &Arm) -> Bracket
    ensures is { numbered result ≡ numbered_timer from.now (nth, arm.now) }
    ensures ends { EndsRight entries.now result }
{
    Bracket {
        from: *from,
        nth,
        kind: arm.kind,
        name: arm.name,
        end: end_of(entries, from, arm),
    }
}

/// The first entry of its member that ends a timer. A timer that the farewell's tick sets ends at once.
fn end_of(entries: &[Entry], from: &Point, arm: &Arm) -> Option<BracketEnd>
    ensures { EndIs entries.now (timer from.now arm.now) result }
{
    for (index, later) in entries.iter().enumerate() {
        if let Some(ending) = ending_in(index, later, from, arm) {
            return Some(BracketEnd {
                entry: index,
                ending,
            });
        }
    }
    None
}

/// How the entry of this index ends a timer, if it does. The entry that sets it ends it only if the member is gone by it.
fn ending_in(index: usize, entry: &Entry, from: &Point, arm: &Arm) -> Option<TimerEnd>
    ensures { IsOneThat (EndsIn (timer from.now arm.now) index entry.now) result }
{
    if entry.member != from.member {
        return None;
    }
    match index.cmp(&from.entry) {
        Ordering::Less => None,
        Ordering::Equal => ends_itself(entry),
        Ordering::Greater => ends_later(entry, arm),
    }
}

/// How a later entry of the member ends a timer, if it does.
fn ends_later(entry: &Entry, arm: &Arm) -> Option<TimerEnd>
    ensures { IsOneThat (EndsLater arm.now.kind arm.now.name entry.now) result }
{
    if is_handed_out(entry, arm) {
        Some(TimerEnd::RanOut)
    } else if is_set(entry, arm) {
        Some(TimerEnd::BackedOff)
    } else if entry.effects.state.is_gone() || is_answered(entry, arm) {
        Some(TimerEnd::Cancelled)
    } else {
        None
    }
}

/// How the entry that sets a timer ends it, if it does.
fn ends_itself(entry: &Entry) -> Option<TimerEnd>
    ensures { IsOneThat (EndsItself entry.now) result }
{
    if entry.effects.state.is_gone() {
        Some(TimerEnd::Cancelled)
    } else {
        None
    }
}

/// Whether the entry requests or repairs the name of the timer, as its kind is.
fn is_handed_out(entry: &Entry, arm: &Arm) -> bool
    ensures { result ≡ among (handed_out arm.now.kind entry.now) arm.now.name }
{
    let names = match arm.kind {
        ArmKind::Ask => entry.effects.asks.as_slice(),
        ArmKind::Fix => entry.effects.fixes.as_slice(),
    };
    names.iter().any(|name| arm.name == *name)
}

/// Whether the entry sets a timer of the same kind and name.
fn is_set(entry: &Entry, arm: &Arm) -> bool
    ensures { result ≡ sets_anew arm.now.kind arm.now.name entry.now }
{
    entry
        .effects
        .arms
        .as_slice()
        .iter()
        .any(|other| arm.kind == other.kind && arm.name == other.name)
}

/// Whether the entry accepts the drawop that the timer was to request, or a repair like the one that it was to send.
fn is_answered(entry: &Entry, arm: &Arm) -> bool
    ensures { result ≡ cancelled_by arm.now.kind arm.now.name (accepted entry.now) }
{
    match entry.accepted() {
        Some(datagram) => is_answer(datagram, arm),
        None => false,
    }
}

fn is_answer(datagram: &Datagram, arm: &Arm) -> bool
    ensures { result ≡ cancelled_by arm.now.kind arm.now.name (Some datagram.now) }
{
    match datagram {
        Datagram::Data(drawop) => matches!(arm.kind, ArmKind::Ask) && arm.name == drawop.name,
        Datagram::Repair { drawop, .. } => arm.name == drawop.name,
        Datagram::Request { .. } | Datagram::Session { .. } => false,
    }
}
