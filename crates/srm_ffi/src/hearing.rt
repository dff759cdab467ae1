//! Hearing what others sent.

ghost use Rattle.std.specs.Prelude.{◌≡◌, ◌≤◌, ◌<◌};
ghost use Rattle.srm_names.specs.declared.limits.TheConstants.{LATEST_MOMENT};
ghost use Rattle.srm_ffi.specs.declared.codes.TheConstants.{MOMENT};
ghost use Rattle.srm_ffi.specs.Shapes.{raw_heard};
ghost use Rattle.srm_ffi.specs.Calls.{HearCall, IsRefused, written};

use crate::codes::{EMPTY, MOMENT, of_answer};
use crate::shapes::RawHeard;
use srm_agent::{AgentFault, Heard};
use srm_names::LATEST_MOMENT;
use srm_seat::Handle;
use std::alloc::Global;

/// Hears bytes that came, whatever they are, and writes what became of them: how many timers they set, and why they were ignored.
///
/// Returns `DONE`, also if the bytes are ignored, or the first of these that holds: `MOMENT`; `EMPTY`; the agent's fault, out of memory.
#[unsafe(no_mangle)]
pub extern "C" fn srm_raw_hear(
    alloc: Global,
    handle: &mut Handle,
    bytes: &[u8],
    now: u64,
    heard: &mut RawHeard,
) -> u32
    ensures late { LATEST_MOMENT < now → IsRefused MOMENT result handle.old.value handle.new.value × (heard.new ≡ heard.old) }
    ensures hears { now ≤ LATEST_MOMENT → HearCall now bytes.now result heard.old heard.new handle.old.value handle.new.value }
{
    if now > LATEST_MOMENT {
        return MOMENT;
    }
    let Some(mut seat) = handle.take(alloc) else {
        return EMPTY;
    };
    let answer = seat.hear(bytes, now);
    handle.put(seat);
    write_heard(&answer, heard);
    of_answer(&answer)
}

fn write_heard(answer: &Result<Heard, AgentFault>, to: &mut RawHeard)
    ensures { to.new ≡ written raw_heard answer.now to.old }
{
    if let Ok(heard) = answer {
        *to = RawHeard::of(heard);
    }
}
