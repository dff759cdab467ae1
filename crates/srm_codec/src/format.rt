//! The numbers of the format.

/// The first two bytes of each datagram: `SR`.
pub const MAGIC: u16 = 0x5352;

/// The version of all datagrams but packed requests.
pub const PLAIN: u8 = 1;

/// The version of a request for several names.
pub const PACKED: u8 = 2;

/// The kind of a new drawop.
pub const DATA: u8 = 1;

/// The kind of a request.
pub const REQUEST: u8 = 2;

/// The kind of a repair.
pub const REPAIR: u8 = 3;

/// The kind of a session message.
pub const SESSION_MESSAGE: u8 = 4;

/// Bytes of the head: magic, version, kind, session and sender.
pub const HEAD_BYTES: usize = 9;

/// Bytes of a name, and of a row.
pub const NAME_BYTES: usize = 8;

/// Bytes of a mask.
pub const MASK_BYTES: usize = 4;

/// Bits of a mask. Each says of one name above the first whether it is requested too.
pub const MASK_BITS: u32 = 8 * MASK_BYTES as u32;

/// Bytes of a drawop but its body: name, stamp and length.
pub const DRAWOP_BYTES: usize = 18;

/// Bytes of a session message between its head and its rows and echoes: sent, flags, shown page and the two counts.
pub const SESSION_MESSAGE_BYTES: usize = 14;

/// The most rows, or echoes, of a session message: a byte has their count.
pub const LONGEST_LIST: u8 = u8::MAX;

/// Bytes of an echo.
pub const ECHO_BYTES: usize = 17;
