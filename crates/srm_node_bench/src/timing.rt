//! How long turns and calls take. None where memory ran out or the clock can't be read.

use crate::datagrams::data_in_order;
use crate::member::{BenchNode, entries_of, new_node, new_recorder};
use srm_timers::Pcg;
use srm_world::Recorder;
use std::alloc::Global;
use std::sync::Wait;
use std::time::{Clock, Duration, Instant};

/// Turns so often.
pub fn turn<R: Wait>(rt: &R, node: &mut BenchNode, turns: u32) -> Option<()> {
    for _ in 0..turns {
        node.turn(rt).ok()?;
    }
    Some(())
}

/// How long so many turns took.
fn time_turns<R: Wait + Clock>(rt: &R, node: &mut BenchNode, turns: u32) -> Option<Duration> {
    let start = Instant::now(rt).ok()?;
    turn(rt, node, turns)?;
    start.elapsed(rt).ok()
}

// The first turn, which gives the page, isn't counted.
fn time_idle_of<R: Wait + Clock>(rt: &R, node: &mut BenchNode, turns: u32) -> Option<Duration> {
    turn(rt, node, 1)?;
    time_turns(rt, node, turns)
}

/// How long so many turns of a new node took that had nothing to do.
pub fn time_idle<R: Wait + Clock>(rt: &R, alloc: Global, turns: u32) -> Option<Duration> {
    let (mut node, _taps) = new_node(alloc, Vec::new(alloc))?;
    let time = time_idle_of(rt, &mut node, turns);
    let _ = entries_of(node);
    time
}

fn time_beyond<R: Wait + Clock>(rt: &R, node: &mut BenchNode, turns: u32) -> Option<Duration> {
    let hearing = time_turns(rt, node, turns)?;
    let idle = time_turns(rt, node, turns)?;
    Some(hearing.saturating_sub(idle))
}

// Nothing is given of what is heard, since the taps are gone.
fn time_node<R: Wait + Clock>(
    rt: &R,
    alloc: Global,
    datagrams: Vec<Vec<u8>>,
    turns: u32,
) -> Option<Duration> {
    let (mut node, taps) = new_node(alloc, datagrams)?;
    drop(taps);
    let time = time_beyond(rt, &mut node, turns);
    let _ = entries_of(node);
    time
}

/// How long so many turns took that heard 64 datagrams each, beyond as many that heard none.
pub fn time_hearing<R: Wait + Clock>(rt: &R, alloc: Global, turns: u32) -> Option<Duration> {
    let datagrams = data_in_order(alloc, turns.saturating_mul(64)).ok()?;
    time_node(rt, alloc, datagrams, turns)
}

fn hear_all(recorder: &mut Recorder<Pcg>, datagrams: &[Vec<u8>]) -> Option<()> {
    for bytes in datagrams {
        recorder.hear(bytes.as_slice(), 5).ok()?;
    }
    Some(())
}

fn time_all<R: Clock>(
    rt: &R,
    recorder: &mut Recorder<Pcg>,
    datagrams: &[Vec<u8>],
) -> Option<Duration> {
    let start = Instant::now(rt).ok()?;
    hear_all(recorder, datagrams)?;
    start.elapsed(rt).ok()
}

fn time_recorder<R: Clock>(rt: &R, alloc: Global, datagrams: &[Vec<u8>]) -> Option<Duration> {
    let mut recorder = new_recorder(alloc)?;
    time_all(rt, &mut recorder, datagrams)
}

/// How long it took a new recorder to hear as many of the same datagrams.
pub fn time_calls<R: Clock>(rt: &R, alloc: Global, turns: u32) -> Option<Duration> {
    let datagrams = data_in_order(alloc, turns.saturating_mul(64)).ok()?;
    time_recorder(rt, alloc, datagrams.as_slice())
}
