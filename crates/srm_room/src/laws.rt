//! What holds of each room, whatever made it.

ghost use Rattle.srm_room.specs.Readings.{ReadsBack, ReadsRooms};

/// Whatever a document says is a room: 1 to 32 members with distinct names and distinct addresses, and a session, a key and settings in their ranges.
pub fn reads_rooms()
    ensures { ReadsRooms }
{}

/// The document of a room says this room.
pub fn reads_back()
    ensures { ReadsBack }
{}
