//! How a member began.

use srm_agent::Config;

/// The settings of a member, and the moment when it was made, in microseconds.
#[derive(Clone, Copy, Debug)]
pub struct Start {
    /// The settings of the member.
    pub config: Config,
    /// When it was made, in microseconds, at most 2^48.
    pub made: u64,
}
