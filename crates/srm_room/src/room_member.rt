//! A member of a room.

/// A member of a room: who it is, and where it is reached.
#[derive(Debug, Drop)]
pub struct RoomMember {
    /// Its name: 1 to 40 characters without space, control character or `=`, and not digits alone.
    pub name: String,
    /// Its address: `IPv4:port`, `[IPv6]:port` or `host:port`, with a port from 1 to 65,535.
    pub address: String,
}
