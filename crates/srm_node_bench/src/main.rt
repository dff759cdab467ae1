//! What a node's turns cost: a turn with nothing to do, and hearing 64 datagrams in one turn beside 64 calls of its recorder.
//!
//! With the word `time` it prints times, the least of seven; else how many entries a turn with nothing to do has.
#![tactic(auto)]

mod datagrams;
mod member;
mod still;
mod timing;

use crate::member::{entries_of, new_node};
use crate::timing::{time_calls, time_hearing, time_idle, turn};
use anyhow::Context;
use std::alloc::Global;
use std::env;
use std::io::{Write, writer};
use std::sync::Wait;
use std::time::{Clock, Duration};

/// How often each is timed.
const ROUNDS: u32 = 7;

/// How many turns with nothing to do are timed.
const IDLE_TURNS: u32 = 1_000;

/// How many turns that hear are timed: so many that the journal of the node, with its ticks and gives, is moved to a larger place as often as the
/// recorder's.
const HEARING_TURNS: u32 = 600;

fn main(rt: HostRuntime) -> anyhow::Result<()> {
    let words: Vec<String> = env::args(&rt)?.skip(1).collect(rt.alloc())?;
    if words.is_empty() {
        print_entries(&rt, rt.alloc(), &mut writer(&rt))
    } else {
        print_times(&rt, rt.alloc(), &mut writer(&rt))
    }
}

/// How many entries a node's journal has after so many turns with nothing to do.
fn entries_after<R: Wait>(rt: &R, alloc: Global, turns: u32) -> Option<usize> {
    let (mut node, _taps) = new_node(alloc, Vec::new(alloc))?;
    let turned = turn(rt, &mut node, turns).is_some();
    let count = entries_of(node);
    if turned { Some(count) } else { None }
}

/// The first turn has an entry more, for its page.
fn print_entries<R: Wait, O: Write>(rt: &R, alloc: Global, out: &mut O) -> anyhow::Result<()> {
    let first = entries_after(rt, alloc, 1).context("memory")?;
    let entries = entries_after(rt, alloc, 1_001).context("memory")?;
    let more = entries.saturating_sub(first);
    writeln!(out, "1000 turns with nothing to do: {more} entries")?;
    Ok(())
}

/// The least of several times.
#[derive(Clone, Copy)]
struct Least {
    idle: Duration,
    hearing: Duration,
    calls: Duration,
}

fn measure<R: Wait + Clock>(rt: &R, alloc: Global) -> Option<Least> {
    let mut least = Least {
        idle: Duration::MAX,
        hearing: Duration::MAX,
        calls: Duration::MAX,
    };
    for _ in 0..ROUNDS {
        least.idle = least.idle.min(time_idle(rt, alloc, IDLE_TURNS)?);
        least.hearing = least.hearing.min(time_hearing(rt, alloc, HEARING_TURNS)?);
        least.calls = least.calls.min(time_calls(rt, alloc, HEARING_TURNS)?);
    }
    Some(least)
}

/// In nanoseconds, and as a ratio in hundredths.
fn print_times<R: Wait + Clock, O: Write>(
    rt: &R,
    alloc: Global,
    out: &mut O,
) -> anyhow::Result<()> {
    let least = measure(rt, alloc).context("memory or the clock")?;
    let idle = least.idle.as_nanos() / u128::from(IDLE_TURNS);
    let hearing = least.hearing.as_nanos() / u128::from(HEARING_TURNS);
    let calls = least.calls.as_nanos() / u128::from(HEARING_TURNS);
    let ratio = hearing.saturating_mul(100).checked_div(calls).unwrap_or(0);
    writeln!(out, "a turn with nothing to do: {idle} ns")?;
    writeln!(out, "hearing 64 datagrams in one turn: {hearing} ns")?;
    writeln!(out, "64 calls of a recorder: {calls} ns")?;
    writeln!(out, "in hundredths: {ratio}")?;
    Ok(())
}
