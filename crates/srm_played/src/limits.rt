//! The limits.

/// The most events that a script may have to be drawn.
pub const MOST_EVENTS: usize = 2_000;
