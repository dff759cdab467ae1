//! Points of a picture.

use srm_names::Member;

/// Where something happens: an entry of the trace, by its place there from 0, and the member whose entry it is.
#[derive(Clone, Copy, Debug, PartialEq, Eq)]
pub struct Point {
    /// The entry, by its place in the trace from 0.
    pub entry: usize,
    /// The member whose entry it is.
    pub member: Member,
}
