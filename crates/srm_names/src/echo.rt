//! Echoes of session messages.

use crate::member::Member;

/// Tells a member which of its session messages was heard and how long ago, so that it can measure the distance.
#[derive(Clone, Copy, Debug, PartialEq, Eq)]
pub struct Echo {
    /// The member whose message it was.
    pub member: Member,
    /// The moment when it sent the message, in microseconds of its clock, at most 2^48.
    pub t1: u64,
    /// Microseconds since the message was heard, at most 2^48.
    pub delay: u64,
}
