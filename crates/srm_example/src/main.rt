//! Two members of one session in one program. One draws three strokes, and the second is lost on its way; the other asks for it, is
//! repaired, and gets all three in order.
//!
//! The program is the network too: what a tick sends comes to the other member at once. Your program sends it to all others.
#![tactic(auto)]

mod printed;

ghost use Rattle.std.specs.Prelude.{◌≤◌, IfSome};
ghost use Rattle.srm_example.specs.declared.TheConstants.{END};

use crate::printed::PrintedMessage;
use anyhow::Context;
use bytes::Bytes;
use srm_agent::{Agent, Config, Settings, Ticked};
use srm_names::{Member, Page};
use srm_timers::Pcg;
use std::alloc::Global;
use std::io::{Write, writer};

/// How many members the session has.
const MEMBERS: u8 = 2;

/// The number of the session, which all its datagrams carry.
const SESSION: u32 = 7;

/// What the first member draws.
const STROKES: [&[u8]; 3] = [b"a line", b"a circle", b"an arrow"];

/// Which of the datagrams of the first tick is lost, from 0.
const LOST: usize = 1;

/// The last moment, in microseconds: by then what was lost is repaired, and no session message is due.
const END: u64 = 900_000;

/// The slot of the first page, which each member has from the start. The caller of `give` shows that a slot is below 8.
const FIRST_SLOT: u8 = 0;

fn main(rt: HostRuntime) -> anyhow::Result<()> {
    play(rt.alloc(), &mut writer(&rt))
}

/// Plays the session and prints what happens.
fn play<O: Write>(alloc: Global, out: &mut O) -> anyhow::Result<()> {
    let mut drawer = join(alloc, 0)?;
    let mut listener = join(alloc, 1)?;
    let page = Page::first();
    for stroke in STROKES {
        drawer.draw(page, Bytes::copy_from_slice(alloc, stroke)?, 0)?;
    }
    let ticked = drawer.tick(0)?;
    carry(&ticked, Some(LOST), &mut listener, 0)?;
    tick_both(&mut drawer, &mut listener, out)?;
    print_given(&mut listener, out)
}

/// The agent of one member, made at moment 0. Its number is the seed of the random numbers that choose its waits: members with the same random numbers
/// would ask and answer all at once.
fn join(alloc: Global, number: u8) -> anyhow::Result<Agent<Pcg>> {
    let me = Member::new(number).context("no such member")?;
    let config = Config::with(me, MEMBERS, SESSION, Settings::default()).context("bad settings")?;
    Ok(Agent::new(alloc, config, Pcg::new(u64::from(number)), 0)?)
}

/// Ticks both members whenever one of them has something to do, until nothing is due before the end.
fn tick_both<O: Write>(
    drawer: &mut Agent<Pcg>,
    listener: &mut Agent<Pcg>,
    out: &mut O,
) -> anyhow::Result<()> {
    // A loop is to end, so it is counted, past all that can be due.
    for _ in 0..u64::MAX {
        let Some(now) = next_due(drawer, listener) else {
            break;
        };
        tick(drawer, listener, now, out)?;
        tick(listener, drawer, now, out)?;
    }
    Ok(())
}

/// The first moment when a member has something to do, or none if that is past the end. An agent may name one past 2^48, which
/// its calls don't take: the caller of `tick` shows that a moment is within it.
fn next_due(drawer: &Agent<Pcg>, listener: &Agent<Pcg>) -> Option<u64>
    ensures { IfSome result (λ now. now ≤ END) }
{
    let first = drawer.next_due()?.min(listener.next_due()?);
    if first <= END { Some(first) } else { None }
}

/// One member asks, repairs and sends what is due; the other hears it.
fn tick<O: Write>(
    from: &mut Agent<Pcg>,
    to: &mut Agent<Pcg>,
    now: u64,
    out: &mut O,
) -> anyhow::Result<()>
    requires { now ≤ END }
{
    let ticked = from.tick(now)?;
    for name in ticked.asks.as_slice() {
        writeln!(out, "{now}: asked for stroke {}", name.number())?;
    }
    for name in ticked.fixes.as_slice() {
        writeln!(out, "{now}: repaired stroke {}", name.number())?;
    }
    carry(&ticked, None, to, now)
}

/// A member hears what a tick of another sent, but for one datagram that is lost.
fn carry(ticked: &Ticked, lost: Option<usize>, to: &mut Agent<Pcg>, now: u64) -> anyhow::Result<()>
    requires { now ≤ END }
{
    for (place, sent) in ticked.outs.as_slice().iter().enumerate() {
        if lost != Some(place) {
            to.hear(sent.bytes.as_slice(), now)?;
        }
    }
    Ok(())
}

/// Prints all that the worker of the first page is given.
fn print_given<O: Write>(listener: &mut Agent<Pcg>, out: &mut O) -> anyhow::Result<()> {
    for _ in 0..u64::MAX {
        let Some(message) = listener.give(FIRST_SLOT)? else {
            break;
        };
        writeln!(out, "given {}", PrintedMessage(&message))?;
    }
    Ok(())
}
