//! A drawop that a member misses.

use srm_names::Name;

/// The missing drawops that a tab is told by name, at most.
pub const NAMED: usize = 64;

/// A drawop that a member misses, and how far its stream came.
#[derive(Clone, Copy, Debug, PartialEq, Eq)]
pub struct Hole {
    /// The drawop.
    pub name: Name,
    /// The greatest number of its stream that came, as far as whoever shows it looked, or 0.
    pub reach: u32,
}
