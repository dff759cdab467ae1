//! What a room is made of.

use crate::room_member::RoomMember;
use crate::room_settings::RoomSettings;

/// What a room is made of, before it is known to be one.
#[derive(Drop)]
pub struct RoomParts {
    /// The number of the session.
    pub session: u32,
    /// The key.
    pub key: Vec<u8>,
    /// The members by their places.
    pub members: Vec<RoomMember>,
    /// The settings.
    pub settings: RoomSettings,
}
