//! Distances, in microseconds.

/// The distance to a member before an echo of it counted, unless the floor is more.
pub const FIRST_DISTANCE: u64 = 100_000;

/// The shortest distance to another member, and the floor if none is set.
pub const SHORTEST_DISTANCE: u64 = 1;
