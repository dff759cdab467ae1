//! The numbers of the format.

/// The first bytes of each record: `SRMC`.
pub const MAGIC: u32 = 0x5352_4d43;

/// The version of all records.
pub const VERSION: u8 = 1;

/// How many bytes stand before the first frame.
pub const BEGINNING_BYTES: usize = 55;

/// How many bytes of a frame stand before its payload: kind, moment, and the payload's length.
pub const FRAME_HEAD_BYTES: usize = 13;

/// How many bytes a page has.
pub const PAGE_BYTES: usize = 3;

/// How many bytes of a drawop that a page worker took stand before its body: kind, name and stamp.
pub const DRAW_HEAD_BYTES: usize = 17;

/// How many bytes a payload has, at most.
pub const LONGEST_PAYLOAD: usize = 0xffff_ffff;

/// The kinds of frames. None is 0, so a hole in a file is no frame.
pub const DREW: u8 = 1;

/// A datagram was heard and accepted.
pub const HEARD: u8 = 2;

/// A tick did something.
pub const TICKED: u8 = 3;

/// A page was shown.
pub const SHOWED: u8 = 4;

/// The member was asked to leave.
pub const ASKED_LEAVE: u8 = 5;

/// A page slot gave a message.
pub const GAVE: u8 = 6;

/// A page worker took a message.
pub const TOOK: u8 = 7;

/// The member ended.
pub const ENDED: u8 = 8;

/// The kinds of messages.
pub const OPEN: u8 = 1;

/// A drawop.
pub const DRAW: u8 = 2;

/// A member that left.
pub const LEFT: u8 = 3;

/// The end of a page feed.
pub const CLOSE: u8 = 4;
