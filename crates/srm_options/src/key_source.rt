//! Where a member's key comes from.

/// Where the key that all members share comes from.
#[derive(Debug, Drop)]
pub enum KeySource {
    /// The file at this path, of 16 to 1,024 bytes.
    File(String),
    /// A room, which has these 16 to 1,024 bytes.
    Room(Vec<u8>),
}
