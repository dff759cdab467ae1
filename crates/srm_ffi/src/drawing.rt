//! What a user does: drawing, showing a page and leaving.

ghost use Rattle.std.specs.Prelude.{◌≡◌, ◌≤◌, ◌<◌};
ghost use Rattle.srm_names.specs.declared.limits.TheConstants.{LATEST_MOMENT, MEMBERS};
ghost use Rattle.srm_ffi.specs.declared.codes.TheConstants.{MOMENT, PAGE};
ghost use Rattle.srm_ffi.specs.Shapes.{raw_name};
ghost use Rattle.srm_ffi.specs.Calls.{DrawCall, IsRefused, LeaveCall, ShowCall, written};

use crate::codes::{EMPTY, MOMENT, PAGE, of_answer};
use crate::shapes::RawName;
use srm_agent::AgentFault;
use srm_names::{LATEST_MOMENT, Member, Name, Page};
use srm_seat::Handle;
use std::alloc::Global;

/// Draws a copy of `body` on the page of this creator and number, and writes the name of the drawop.
///
/// Returns `DONE` or the first of these that holds: `MOMENT`; `PAGE` if `creator` is past 31; `EMPTY`; the agent's fault, where out of memory
/// may come in place of any other.
#[unsafe(no_mangle)]
pub extern "C" fn srm_raw_draw(
    alloc: Global,
    handle: &mut Handle,
    creator: u8,
    number: u16,
    body: &[u8],
    now: u64,
    name: &mut RawName,
) -> u32
    ensures late { LATEST_MOMENT < now → IsRefused MOMENT result handle.old.value handle.new.value × (name.new ≡ name.old) }
    ensures no_page { now ≤ LATEST_MOMENT → MEMBERS ≤ creator → IsRefused PAGE result handle.old.value handle.new.value × (name.new ≡ name.old) }
    ensures draws { now ≤ LATEST_MOMENT → creator < MEMBERS → DrawCall now (record { creator = creator; number = number }) body.now result name.old name.new handle.old.value handle.new.value }
{
    if now > LATEST_MOMENT {
        return MOMENT;
    }
    let Some(creator) = Member::new(creator) else {
        return PAGE;
    };
    let Some(mut seat) = handle.take(alloc) else {
        return EMPTY;
    };
    let answer = seat.draw(Page { creator, number }, body, now);
    handle.put(seat);
    write_drawn(&answer, name);
    of_answer(&answer)
}

fn write_drawn(answer: &Result<Name, AgentFault>, to: &mut RawName)
    ensures { to.new ≡ written raw_name answer.now to.old }
{
    if let Ok(name) = answer {
        *to = RawName::of(*name);
    }
}

/// Shows the page of this creator and number.
///
/// Returns `DONE` or the first of these that holds: `MOMENT`; `PAGE` if `creator` is past 31; `EMPTY`; the agent's fault.
#[unsafe(no_mangle)]
pub extern "C" fn srm_raw_show(
    alloc: Global,
    handle: &mut Handle,
    creator: u8,
    number: u16,
    now: u64,
) -> u32
    ensures late { LATEST_MOMENT < now → IsRefused MOMENT result handle.old.value handle.new.value }
    ensures no_page { now ≤ LATEST_MOMENT → MEMBERS ≤ creator → IsRefused PAGE result handle.old.value handle.new.value }
    ensures shows { now ≤ LATEST_MOMENT → creator < MEMBERS → ShowCall now (record { creator = creator; number = number }) result handle.old.value handle.new.value }
{
    if now > LATEST_MOMENT {
        return MOMENT;
    }
    let Some(creator) = Member::new(creator) else {
        return PAGE;
    };
    let Some(mut seat) = handle.take(alloc) else {
        return EMPTY;
    };
    let answer = seat.show(Page { creator, number }, now);
    handle.put(seat);
    of_answer(&answer)
}

/// Begins to leave.
///
/// Returns `DONE` or the first of these that holds: `MOMENT`; `EMPTY`; the agent's fault.
#[unsafe(no_mangle)]
pub extern "C" fn srm_raw_leave(alloc: Global, handle: &mut Handle, now: u64) -> u32
    ensures late { LATEST_MOMENT < now → IsRefused MOMENT result handle.old.value handle.new.value }
    ensures leaves { now ≤ LATEST_MOMENT → LeaveCall now result handle.old.value handle.new.value }
{
    if now > LATEST_MOMENT {
        return MOMENT;
    }
    let Some(mut seat) = handle.take(alloc) else {
        return EMPTY;
    };
    let answer = seat.leave(now);
    handle.put(seat);
    of_answer(&answer)
}
