//! A group that loses for a while: how it is set up.

use srm_agent::{Agent, Config, Settings};
use srm_names::Member;
use srm_timers::Pcg;
use std::alloc::Global;

/// How members are set up, when the network loses what crosses one link, and when it delivers again. Times are microseconds from when all members were made.
#[derive(Clone, Copy)]
#[repr(C)]
pub struct Outage {
    /// What the random numbers start from that say which datagrams are lost.
    pub seed: u64,
    /// Bytes a second that a member may send, and bytes that its bucket holds.
    pub rate: u32,
    pub depth: u32,
    /// A distance counts as at least so long.
    pub least_distance: u32,
    /// From a tick of a member to its next.
    pub tick: u32,
    /// From when on the network loses, from when on it delivers all, and when the play ends.
    pub loses: u32,
    pub delivers: u32,
    pub ends: u32,
    /// How many drawops member 0 draws while the network loses, as far apart from each other.
    pub drawn: u32,
    /// How many of 256 datagrams are lost on the link on average.
    pub lost: u32,
    /// How many distances members wait: a request `c1` to `c1 + c2`, a repair `d1` to `d1 + d2`.
    pub c1: u8,
    pub c2: u8,
    pub d1: u8,
    pub d2: u8,
}

impl Outage {
    /// Whether the network loses at a moment.
    pub fn loses_at(&self, moment: u64) -> bool {
        u64::from(self.loses) <= moment && moment < u64::from(self.delivers)
    }

    /// When member 0 draws one of its drawops, counted from 0: the first and the last are half as far from the ends of the loss as each is from the next.
    pub fn draws_at(&self, index: u32) -> Option<u64> {
        let lasts = u64::from(self.delivers.checked_sub(self.loses)?);
        let halves = u64::from(index).saturating_mul(2).saturating_add(1);
        let all = u64::from(self.drawn).saturating_mul(2);
        let after = lasts.saturating_mul(halves).checked_div(all)?;
        Some(u64::from(self.loses).saturating_add(after))
    }

    /// When a member of so many first ticks. Members tick one after the other, as far apart from each other.
    pub fn first_tick(&self, me: u8, members: u8) -> Option<u64> {
        let place = u64::from(me).saturating_add(1);
        u64::from(self.tick)
            .saturating_mul(place)
            .checked_div(u64::from(members))
    }

    /// A member of so many in session 7. `None` if memory ran out or a setting is out of range.
    pub fn agent(&self, alloc: Global, me: u8, members: u8, seed: u64) -> Option<Agent<Pcg>> {
        let settings = Settings {
            rate: self.rate,
            depth: self.depth,
            c1: self.c1,
            c2: self.c2,
            d1: self.d1,
            d2: self.d2,
            least_distance: u64::from(self.least_distance),
        };
        let config = Config::with(Member::new(me)?, members, 7, settings)?;
        Agent::new(alloc, config, Pcg::new(seed), 0).ok()
    }
}
