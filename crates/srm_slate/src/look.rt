//! What is new to one tab.

use crate::happening::Happening;
use crate::hole::Hole;
use crate::taken::Taken;
use srm_names::MEMBERS;

/// Datagrams that passed, and what the member made of them. Counts stop at 2^64 - 1.
#[derive(Clone, Copy, Debug, Default, PartialEq, Eq)]
pub struct Counts {
    /// Datagrams that were sent, each counted once for all members.
    pub sent: u64,
    /// Datagrams that came from other members.
    pub came: u64,
    /// The requests among those that were sent.
    pub requests: u64,
    /// The repairs among those that were sent.
    pub repairs: u64,
    /// Datagrams that the agent ignored.
    pub ignored: u64,
    /// What came and is no datagram of the session.
    pub noise: u64,
    /// Datagrams that came and were dropped before the agent saw them, by the wire or its guard.
    pub dropped: u64,
}

/// What is new to one tab, and how the member stands.
#[derive(Drop)]
pub struct Look {
    /// What the workers took behind the tab's cursor, 100 messages at most.
    pub taken: Vec<Taken>,
    /// What befell the member since the tab last looked, of the newest 256.
    pub happenings: Vec<Happening>,
    /// How often something befell it.
    pub happened: u64,
    /// How many drawops the member misses.
    pub missing: u32,
    /// The first of them, 64 at most.
    pub holes: Vec<Hole>,
    /// The datagrams that passed, and what the member made of them.
    pub counts: Counts,
    /// How many datagrams came from each member.
    pub heard: [u64; MEMBERS as usize],
    /// Whether memory ran out for a message: what is shown ends before it.
    pub is_lossy: bool,
    /// Whether others know of strokes that an earlier run of this member drew.
    pub is_stale: bool,
    /// Whether the member's run has ended.
    pub has_ended: bool,
}
