//! Ticks, and what they leave to be taken.

ghost use Rattle.std.specs.Prelude.{◌≡◌, ◌≤◌, ◌<◌};
ghost use Rattle.srm_names.specs.declared.limits.TheConstants.{LATEST_MOMENT};
ghost use Rattle.srm_ffi.specs.declared.codes.TheConstants.{MOMENT};
ghost use Rattle.srm_ffi.specs.Shapes.{raw_ticked};
ghost use Rattle.srm_ffi.specs.Calls.{DatagramCall, IsRefused, RepairCall, RequestCall, TellsHandover, TellsName, TickCall, written};

use crate::codes::{BUFFER, DONE, EMPTY, MOMENT, NOTHING, of_answer};
use crate::shapes::{RawName, RawTicked};
use srm_agent::AgentFault;
use srm_names::{LATEST_MOMENT, Name};
use srm_seat::{Handle, Handover, TickCounts};
use std::alloc::Global;

/// Does what is due, and writes how much that left to be taken. Drops what an earlier tick left and nobody took, as if it were lost on its way.
///
/// Returns `DONE` or the first of these that holds: `MOMENT`; `EMPTY`; the agent's fault, out of memory. After an error what an earlier tick left
/// stays.
#[unsafe(no_mangle)]
pub extern "C" fn srm_raw_tick(
    alloc: Global,
    handle: &mut Handle,
    now: u64,
    ticked: &mut RawTicked,
) -> u32
    ensures late { LATEST_MOMENT < now → IsRefused MOMENT result handle.old.value handle.new.value × (ticked.new ≡ ticked.old) }
    ensures ticks { now ≤ LATEST_MOMENT → TickCall now result ticked.old ticked.new handle.old.value handle.new.value }
{
    if now > LATEST_MOMENT {
        return MOMENT;
    }
    let Some(mut seat) = handle.take(alloc) else {
        return EMPTY;
    };
    let answer = seat.tick(now);
    handle.put(seat);
    write_ticked(&answer, ticked);
    of_answer(&answer)
}

fn write_ticked(answer: &Result<TickCounts, AgentFault>, to: &mut RawTicked)
    ensures { to.new ≡ written raw_ticked answer.now to.old }
{
    if let Ok(counts) = answer {
        *to = RawTicked::of(counts);
    }
}

/// Takes the next name that the last tick requested, in order, and writes it.
///
/// Returns `DONE` or the first of these that holds: `EMPTY`; `NOTHING` if there is no more.
#[unsafe(no_mangle)]
pub extern "C" fn srm_raw_request(alloc: Global, handle: &mut Handle, name: &mut RawName) -> u32
    ensures { RequestCall result name.old name.new handle.old.value handle.new.value }
{
    let Some(mut seat) = handle.take(alloc) else {
        return EMPTY;
    };
    let next = seat.next_request();
    handle.put(seat);
    tell_name(next, name)
}

/// Takes the next name that the last tick repaired, in order, and writes it.
///
/// Returns `DONE` or the first of these that holds: `EMPTY`; `NOTHING` if there is no more.
#[unsafe(no_mangle)]
pub extern "C" fn srm_raw_repair(alloc: Global, handle: &mut Handle, name: &mut RawName) -> u32
    ensures { RepairCall result name.old name.new handle.old.value handle.new.value }
{
    let Some(mut seat) = handle.take(alloc) else {
        return EMPTY;
    };
    let next = seat.next_repair();
    handle.put(seat);
    tell_name(next, name)
}

fn tell_name(name: Option<Name>, to: &mut RawName) -> u32
    ensures { TellsName name result to.old to.new }
{
    match name {
        Some(name) => {
            *to = RawName::of(name);
            DONE
        }
        None => NOTHING,
    }
}

/// Takes the next datagram that the last tick left to be sent, copies it to the front of the room and writes its length.
///
/// Returns `DONE` or the first of these that holds: `EMPTY`; `NOTHING` if there is no more; `BUFFER` if it doesn't fit. Then it stays the next, the
/// room is as it was, and its length is written.
#[unsafe(no_mangle)]
pub extern "C" fn srm_raw_datagram(
    alloc: Global,
    handle: &mut Handle,
    room: &mut [u8],
    length: &mut usize,
) -> u32
    ensures { DatagramCall result room.old room.new length.old length.new handle.old.value handle.new.value }
{
    let Some(mut seat) = handle.take(alloc) else {
        return EMPTY;
    };
    let handover = seat.next_datagram(room);
    handle.put(seat);
    tell_handover(handover, length)
}

fn tell_handover(handover: Handover, to: &mut usize) -> u32
    ensures { TellsHandover handover result to.old to.new }
{
    match handover {
        Handover::Nothing => NOTHING,
        Handover::Short(length) => {
            *to = length;
            BUFFER
        }
        Handover::Copied(length) => {
            *to = length;
            DONE
        }
    }
}
