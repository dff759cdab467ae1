//! The limits of a session, in one place.

/// Members of a session. They have the numbers from 0 to one below this.
pub const MEMBERS: u8 = 32;

/// Page slots of a member: it has at most 8 pages.
pub const PAGES: u8 = 8;

/// Pages that one member makes, at most. They have the numbers from 0 to one below this.
pub const PAGE_NUMBERS: u32 = 65_536;

/// Drawops of a stream. They have the numbers from 1 to this.
pub const DRAWOPS: u32 = 65_536;

/// Bytes of a body, at most.
pub const LONGEST_BODY: u16 = 1_024;

/// The greatest moment, in microseconds: 2^48.
pub const LATEST_MOMENT: u64 = 281_474_976_710_656;

/// The longest distance to a member, in microseconds.
pub const LONGEST_DISTANCE: u64 = 10_000_000;

/// Messages that a lane holds.
pub const LANE_MESSAGES: u32 = 64;

/// Strokes that the stroke queue (`Well`) holds.
pub const WELL_STROKES: u32 = 64;

/// Producers (`Pen`) that write into the stroke queue.
pub const PENS: u8 = 4;

/// Viewers of the board, at most.
pub const VIEWERS: u8 = 8;
