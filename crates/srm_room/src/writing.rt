//! Writing a room.

ghost use Rattle.std.specs.Prelude.{◌≡◌, string_bytes, Ok, IfOk};
ghost use Rattle.srm_room.specs.Readings.{said};
ghost use Rattle.srm_room.specs.Rooms.{IsRoom, content_of};

use crate::room::Room;
use crate::room_parts::RoomParts;
use crate::tables::document;
use std::alloc::{AllocError, Global};

/// Writes a room as TOML, from which [`read_room`](crate::read_room) reads this room. Fails only if out of memory.
pub fn write_room(alloc: Global, room: &Room) -> Result<String, AllocError>
    ensures { IfOk result (λ text. said (string_bytes text) ≡ Ok room.now) }
{
    write_parts(alloc, &room.parts)
}

fn write_parts(alloc: Global, parts: &RoomParts) -> Result<String, AllocError>
    requires { IsRoom (content_of parts.now) }
    ensures { IfOk result (λ text. said (string_bytes text) ≡ Ok (content_of parts.now)) }
{
    let table = document(
        alloc,
        parts.session,
        parts.key.as_slice(),
        parts.members.as_slice(),
        &parts.settings,
    )?;
    match toml::table_to_string(alloc, &table) {
        Ok(text) => Ok(text),
        // A room has no dates, so only memory can lack.
        Err(_) => Err(AllocError),
    }
}
