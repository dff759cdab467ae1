//! Reading a room.

ghost use Rattle.std.specs.Prelude.{◌≡◌};
ghost use Rattle.toml.specs.View.{table_view};
ghost use Rattle.hex.specs.Hex.{decode_of};
ghost use Rattle.srm_room.specs.Readings.{Reads, fault_of, key_in, key_of_digits, room_in, said};
ghost use Rattle.srm_room.specs.Rooms.{content_of};

use crate::fault::{Fault, RoomError};
use crate::field::{Field, Place};
use crate::lines::{line_at, line_of};
use crate::looking::{number_in, size, text_in};
use crate::people::people_in;
use crate::reading_settings::settings_at;
use crate::room::Room;
use crate::room_parts::RoomParts;
use hex::FromHexError;
use std::alloc::Global;
use toml::Table;

/// Reads a room from TOML.
///
/// Fails with the first [`Fault`] of a text that is no room, with its line if one shows it, and with [`RoomError::Memory`].
pub fn read_room(alloc: Global, text: &str) -> Result<Room, RoomError>
    ensures { Reads (λ room. room) result (said text.now) }
{
    match said(alloc, text) {
        Ok(room) => Ok(room),
        Err(error) => Err(placed(text, error)),
    }
}

// Returns the same error with its line.
fn placed(text: &str, error: RoomError) -> RoomError
    ensures { fault_of result ≡ fault_of error }
{
    match error {
        RoomError::Refused(fault, None) => RoomError::Refused(fault, line_of(text, fault)),
        error => error,
    }
}

fn said(alloc: Global, text: &str) -> Result<Room, RoomError>
    ensures { Reads (λ room. room) result (said text.now) }
{
    match toml::table_from_str(alloc, text) {
        Ok(table) => room_in(alloc, &table),
        Err(error) => {
            if error.is_memory() {
                Err(RoomError::Memory)
            } else {
                Err(RoomError::Syntax(error, line_at(text, error.span())))
            }
        }
    }
}

/// Reads a room from a document. Fails as [`read_room`] does, and tells no line.
pub(crate) fn room_in(alloc: Global, table: &Table) -> Result<Room, RoomError>
    ensures { Reads (λ room. room) result (room_in (table_view table.now)) }
{
    match parts_in(alloc, table) {
        Ok(parts) => Ok(Room { parts }),
        Err(error) => Err(error),
    }
}

#[tactic(auto, unfolding(crate::specs::Readings::room_in))]
fn parts_in(alloc: Global, table: &Table) -> Result<RoomParts, RoomError>
    ensures { Reads content_of result (room_in (table_view table.now)) }
{
    number_in(Place::Top, Field::Ringyew, 1, 1, table)?;
    let session = number_in(Place::Top, Field::Session, 0, u32::MAX, table)?;
    let key = key_in(alloc, table)?;
    let members = people_in(alloc, table)?;
    let settings = settings_at(table)?;
    if size(table) != 5 {
        return Err(RoomError::Refused(Fault::Unknown(Place::Top), None));
    }
    Ok(RoomParts {
        session,
        key,
        members,
        settings,
    })
}

#[tactic(auto, unfolding(crate::specs::Readings::key_in))]
fn key_in(alloc: Global, table: &Table) -> Result<Vec<u8>, RoomError>
    ensures { Reads (λ key. key.items) result (key_in (table_view table.now)) }
{
    let digits = text_in(Place::Top, Field::Key, table)?;
    key_of_digits(alloc, digits)
}

fn key_of_digits(alloc: Global, digits: &str) -> Result<Vec<u8>, RoomError>
    ensures { Reads (λ key. key.items) result (key_of_digits (decode_of digits.now)) }
{
    match hex::decode(alloc, digits) {
        Ok(key) => {
            if 16 <= key.len() && key.len() <= 1_024 {
                Ok(key)
            } else {
                Err(RoomError::Refused(Fault::KeyLength, None))
            }
        }
        Err(FromHexError::OutOfMemory) => Err(RoomError::Memory),
        Err(_) => Err(RoomError::Refused(Fault::Wrong(Place::Top, Field::Key), None)),
    }
}
