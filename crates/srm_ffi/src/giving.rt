//! Giving the messages of a page slot.

ghost use Rattle.std.specs.Prelude.{◌≡◌, ◌≤◌, ◌<◌, length};
ghost use Rattle.srm_names.specs.declared.limits.TheConstants.{LONGEST_BODY, PAGES};
ghost use Rattle.srm_seat.specs.Calls.{laid_over};
ghost use Rattle.srm_ffi.specs.declared.codes.TheConstants.{BUFFER, SLOT};
ghost use Rattle.srm_ffi.specs.Shapes.{body_of};
ghost use Rattle.srm_ffi.specs.Calls.{GiveCall, IsRefused, TellsMessage};

use crate::codes::{BUFFER, DONE, EMPTY, NOTHING, SLOT, of_fault};
use crate::shapes::RawMessage;
use srm_agent::AgentFault;
use srm_names::{LONGEST_BODY, PAGES, PageMsg};
use srm_seat::{Handle, lay_over};
use std::alloc::Global;

/// Takes the next message of a page slot, 0 to 7, writes it, and copies its whole body, if it has one, to the front of the room.
///
/// Returns `DONE` or the first of these that holds: `SLOT`; `BUFFER` if the room has fewer bytes than the longest body, 1,024; `EMPTY`; `NOTHING`
/// if no message is left; the agent's fault.
#[unsafe(no_mangle)]
pub extern "C" fn srm_raw_give(
    alloc: Global,
    handle: &mut Handle,
    slot: u8,
    room: &mut [u8],
    message: &mut RawMessage,
) -> u32
    ensures no_slot { PAGES ≤ slot → IsRefused SLOT result handle.old.value handle.new.value × (room.new ≡ room.old) × (message.new ≡ message.old) }
    ensures short { slot < PAGES → length room.old < LONGEST_BODY → IsRefused BUFFER result handle.old.value handle.new.value × (room.new ≡ room.old) × (message.new ≡ message.old) }
    ensures gives { slot < PAGES → LONGEST_BODY ≤ length room.old → GiveCall slot result room.old room.new message.old message.new handle.old.value handle.new.value }
{
    if slot >= PAGES {
        return SLOT;
    }
    if room.len() < usize::from(LONGEST_BODY) {
        return BUFFER;
    }
    let Some(mut seat) = handle.take(alloc) else {
        return EMPTY;
    };
    let answer = seat.give(slot);
    handle.put(seat);
    tell_message(&answer, room, message)
}

fn tell_message(
    answer: &Result<Option<PageMsg>, AgentFault>,
    room: &mut [u8],
    to: &mut RawMessage,
) -> u32
    ensures { TellsMessage answer.now result room.old room.new to.old to.new }
{
    match answer {
        Ok(Some(message)) => {
            *to = RawMessage::of(message);
            copy_body(message, room);
            DONE
        }
        Ok(None) => NOTHING,
        Err(fault) => of_fault(*fault),
    }
}

/// Copies the body of a message to the front of the room, if it has one and that fits. The body of each message that an agent gives does.
fn copy_body(message: &PageMsg, room: &mut [u8])
    ensures { room.new ≡ laid_over (body_of message.now) room.old }
{
    match message {
        PageMsg::Draw(drawop) => lay_over(drawop.body.as_slice(), room),
        _ => {}
    }
}
