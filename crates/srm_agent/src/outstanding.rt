//! What a member that waits for others needs to know at once.

use srm_entries::AgentState;

/// What a member misses, when its timers expire, what waits to be sent, and whether it takes part.
#[derive(Clone, Copy, Debug, PartialEq, Eq)]
pub struct Outstanding {
    /// How many names are missing, over all streams.
    pub missing: u32,
    /// When the first request timer expires, in microseconds; `None` if none runs, and so nothing is missing.
    pub next_request: Option<u64>,
    /// When the first repair timer expires, in microseconds; `None` if none runs.
    pub next_repair: Option<u64>,
    /// How many requests and repairs for the page shown wait to be sent.
    pub waiting_shown: usize,
    /// How many datagrams of new data wait to be sent.
    pub waiting_new: usize,
    /// How many requests and repairs for other pages wait to be sent.
    pub waiting_other: usize,
    /// Whether the member is active, leaving or gone.
    pub state: AgentState,
}
