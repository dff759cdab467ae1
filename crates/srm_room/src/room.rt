//! A room.

ghost use Rattle.std.specs.Prelude.{◌≡◌, map};
ghost use Rattle.srm_room.specs.Documents.{document};
ghost use Rattle.srm_room.specs.Readings.{Reads, room_in};
ghost use Rattle.srm_room.specs.Rooms.{IsRoom, content, person};

use crate::fault::RoomError;
use crate::reading::room_in;
use crate::room_member::RoomMember;
use crate::room_parts::RoomParts;
use crate::room_settings::RoomSettings;
use crate::tables::document;
use std::alloc::Global;
use std::marker::Model;

/// What the members of a session have in common.
#[derive(Drop)]
pub struct Room {
    pub(crate) parts: RoomParts,
}

impl Model for Room {
    ghost use Rattle.srm_room.specs.Rooms.{Content, IsRoom, content_of};

    ghost Value = { Content };

    ghost view = { λ r. content_of r.parts };

    ghost invariant = { λ r. IsRoom (content_of r.parts) };
}

impl Room {
    /// Makes a room of copies of these. Fails with the first [`Fault`](crate::Fault) of what is no room, and with [`RoomError::Memory`].
    pub fn new(
        alloc: Global,
        session: u32,
        key: &[u8],
        members: &[RoomMember],
        settings: RoomSettings,
    ) -> Result<Room, RoomError>
        ensures { Reads (λ room. room) result (room_in (document (content session key.now members.now settings))) }
    {
        let table = document(alloc, session, key, members, &settings)?;
        room_in(alloc, &table)
    }

    /// Returns the number of the session.
    pub fn session(&self) -> u32
        ensures { result ≡ self.now.session }
    {
        self.parts.session
    }

    /// Returns the key, 16 to 1,024 bytes.
    pub fn key(&self) -> &[u8]
        ensures { result.now ≡ self.now.key }
    {
        self.parts.key.as_slice()
    }

    /// Returns the members in the order of their places, 1 to 32.
    pub fn members(&self) -> &[RoomMember]
        ensures { map person result.now ≡ self.now.people }
    {
        self.parts.members.as_slice()
    }

    /// Returns the settings.
    pub fn settings(&self) -> RoomSettings
        ensures { result ≡ self.now.settings }
    {
        self.parts.settings
    }

    /// Shows that this is a room: it has 1 to 32 members with distinct names and distinct addresses, and a key, a session and settings in their ranges.
    pub fn is_room(&self)
        ensures { IsRoom self.now }
    {
        // The proof knows the invariant of what is looked at.
        let _ = &self.parts;
    }
}
