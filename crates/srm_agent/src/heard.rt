//! What hearing bytes returns.

use srm_entries::Outcome;
use srm_names::Items;
use srm_timers::Arm;

/// What became of bytes that came.
#[derive(Debug, Drop)]
pub struct Heard {
    /// The timers that were set, in order of name; none if the bytes were ignored.
    pub arms: Items<Arm>,
    /// Whether the datagram was accepted, or why it was ignored.
    pub outcome: Outcome,
}
