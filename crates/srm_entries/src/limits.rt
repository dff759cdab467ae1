//! What most members may send, and when session messages come.

use srm_bucket::GREATEST_LENGTH;

/// The rate of a member that names none: 8,000 bytes a second.
pub const DEFAULT_RATE: u32 = 8_000;

/// The depth of its bucket, 4,204 bytes: four of the longest datagrams that are charged.
pub const DEFAULT_DEPTH: u32 = 4 * GREATEST_LENGTH;

/// Microseconds of a second.
pub const SECOND: u64 = 1_000_000;

/// The least time from the making of a member to its first session message, and from each to the next, in microseconds.
pub const SHORTEST_INTERVAL: u64 = 1_000_000;

/// The session messages of all members together take one part of the rate in this many.
pub const SESSION_SHARE: u64 = 20;
