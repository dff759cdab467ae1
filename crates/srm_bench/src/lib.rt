//! What the benchmarks and the driver for hostile datagrams call from Rust: one member's agent over many calls, the moments of
//! many names, which are cleared and set, the journals of a session, which are put together, and groups that repair what they lose.
//!
//! What the agent answered is told in numbers, so that two agents can be compared.
#![tactic(auto)]

mod caller;
mod clock;
mod digest;
mod earlier;
mod emptied;
mod flight;
mod group;
mod lists;
mod lossy_group;
mod moments;
mod outage;
mod session;
mod sessions;
mod step;
mod teller;

use crate::caller::Caller;
use crate::group::{Group, Places, Plan, Waits};
use crate::lossy_group::LossyGroup;
use crate::moments::Moments;
use crate::outage::Outage;
use crate::sessions::{mingled, talked};
use crate::teller::Teller;
use srm_audit::Mismatch;
use std::alloc::Global;

/// The agent of member `me` of so many makes `count` calls that bytes say, as [`Caller::make`](crate::caller::Caller) reads them, and writes what
/// each answers. How many numbers were written; the greatest number where memory ran out, bytes say no call, or a setting is out of
/// range.
#[unsafe(no_mangle)]
pub extern "C" fn srm_calls(
    alloc: Global,
    me: u8,
    members: u8,
    rate: u32,
    depth: u32,
    count: u32,
    calls: &[u8],
    told: &mut [u64],
) -> usize {
    let mut teller = Teller::new(told);
    let Some(mut caller) = Caller::new(alloc, me, members, rate, depth) else {
        return usize::MAX;
    };
    caller
        .make(count, calls, &mut teller)
        .map_or(usize::MAX, |()| teller.count())
}

/// The moments of so many names of one stream, up to 65,536, are set, and then so many times the moment of one of them is found, and cleared
/// and set again if it `sets` them. The first moment at the end; the greatest number where memory ran out, or there are no or too many
/// names.
#[unsafe(no_mangle)]
pub extern "C" fn srm_moments(alloc: Global, names: u32, turns: u32, sets: bool) -> u64 {
    let Some(mut moments) = Moments::new(alloc) else {
        return u64::MAX;
    };
    moments
        .set_first(names)
        .and_then(|()| moments.turn(names, turns, sets))
        .and_then(|()| moments.next())
        .unwrap_or(u64::MAX)
}

/// So many members make calls over so many turns. If it `mingles`, in each turn one draws and all tick and give, and most of what is sent comes;
/// else two draw and hear each other by turns, and all others hear the last of all alone, so that whoever puts the journals together finds
/// them waiting until the end. The journals are put together if it `reconciles`. How many entries they have in all, what was taken included; the
/// greatest number where memory ran out, and the one below it where the journals don't fit.
#[unsafe(no_mangle)]
pub extern "C" fn srm_sessions(
    alloc: Global,
    members: u8,
    turns: u32,
    mingles: bool,
    reconciles: bool,
) -> usize {
    let session = if mingles {
        mingled(alloc, members, turns)
    } else {
        talked(alloc, members, turns)
    };
    let Some(session) = session else {
        return usize::MAX;
    };
    match session.end(reconciles) {
        Ok(entries) => entries,
        Err(Mismatch::Memory) => usize::MAX,
        Err(_) => usize::MAX - 1,
    }
}

/// A group loses drawops of member 0 and repairs them. It has a member for each seed of random numbers, 1 to 32, all with these waits; the ways
/// between them are microseconds, by sender and then receiver, and drawops that are lost come to all members but those that are cut off. What
/// becomes of each drawop is told, five numbers for each step: the moment, the member, the [`Step`](crate::step::Step), the drawop's number, and the
/// distance that a timer's wait was chosen from, else 0. Returns how many numbers were told, as far as there was room; the greatest number where memory ran
/// out, a wait is out of range, or a list is too short.
#[unsafe(no_mangle)]
pub extern "C" fn srm_losses(
    alloc: Global,
    waits: &Waits,
    plan: &Plan,
    seeds: &[u64],
    ways: &[u32],
    cut_off: &[bool],
    told: &mut [u64],
) -> usize {
    let places = Places { ways, cut_off };
    Group::new(alloc, waits, seeds, places, Teller::new(told))
        .and_then(|group| group.lose(plan))
        .unwrap_or(usize::MAX)
}

/// A group loses drawops of member 0 for a while, and then the network delivers all, as an [`Outage`](crate::outage::Outage) says. It has a member for each seed of random
/// numbers, 1 to 32; the ways between them are microseconds, by sender and then receiver. A datagram that is lost comes to all members on its sender's side of the link, and to
/// none `behind` it, or the other way round. Told are six numbers for each step: the moment, the member, the [`Step`](crate::step::Step), the drawop's number, else 0, the
/// distance that a timer's wait was chosen from, else 0, and the wait, or how long a bucket went without being empty, else 0. Returns how many numbers were told, as far as
/// there was room; the greatest number where memory ran out, a setting is out of range, or a list is too short.
#[unsafe(no_mangle)]
pub extern "C" fn srm_outages(
    alloc: Global,
    outage: &Outage,
    seeds: &[u64],
    ways: &[u32],
    behind: &[bool],
    told: &mut [u64],
) -> usize {
    let places = Places {
        ways,
        cut_off: behind,
    };
    LossyGroup::new(alloc, *outage, seeds, places, Teller::new(told))
        .and_then(|group| group.recover())
        .unwrap_or(usize::MAX)
}
