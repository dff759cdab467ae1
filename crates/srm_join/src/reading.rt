//! Reading a room from bytes.

ghost use Rattle.srm_join.specs.Reading.{ReadsText};

use crate::refusal::Refusal;
use srm_room::{Room, read_room};
use std::alloc::Global;

/// Bytes of a room's text, at most.
pub const LONGEST_TEXT: usize = 65_536;

/// Reads a room from TOML in UTF-8, as [`read_room`] does. Fails with [`Refusal::NoText`] if the bytes are no UTF-8 or more than 65,536, and else with [`Refusal::NoRoom`].
pub fn read_text(alloc: Global, bytes: &[u8]) -> Result<Room, Refusal>
    ensures { ReadsText bytes.now result }
{
    if bytes.len() > LONGEST_TEXT {
        return Err(Refusal::NoText);
    }
    let Ok(text) = str::from_utf8(bytes) else {
        return Err(Refusal::NoText);
    };
    match read_room(alloc, text) {
        Ok(room) => Ok(room),
        Err(error) => Err(Refusal::NoRoom(error)),
    }
}
