//! What a command line of `srm node` says.

ghost use Rattle.std.specs.Prelude.{◌↔◌, IsTrue};
ghost use Rattle.srm_options.specs.Options.{AreInRange};

use crate::guard_options::GuardOptions;
use crate::names::Names;
use crate::own_port::names_port;
use srm_entries::Config;
use srm_names::LATEST_MOMENT;
use std::net::SocketAddr;

/// The most microseconds that a member lingers.
pub const LONGEST_LINGER: u64 = 30_000_000;

/// What a command line of `srm node` says.
#[derive(Debug, Drop)]
pub struct NodeOptions {
    /// The member, which is the place of its address, from 0; its session; its rate, depth and waits.
    pub config: Config,
    /// The seed of the random numbers that choose its waits, any number. Without `--start` it is 0, or the member's number if it is live.
    pub seed: u64,
    /// The microseconds after which it leaves, up to 2^48: since its start, or since the end of its input if it is live.
    pub stay: u64,
    /// For how many microseconds, 0 to 30,000,000, nobody must have needed what a live member holds before it leaves. 0 for any other member.
    pub linger: u64,
    /// The most turns of its node, 0 to 2^64 - 1. A live member has as many as it needs unless its line says otherwise.
    pub turns: u64,
    /// Whether it is live: it draws each line as it is typed, and prints each message as it is taken.
    pub live: bool,
    /// Whether it tells why its address can't be bound, and which call of its socket failed. A live member tells it in any case.
    pub verbose: bool,
    /// Which datagrams the member drops.
    pub guard: GuardOptions,
    /// The path of the file that the member's record is written to, if it is to be. There must be no such file.
    pub record: Option<String>,
    /// What the members are called, if a room names them.
    pub names: Names,
    /// The members' addresses by number, one for each of 1 to 32: all IPv4, or of a live member all IPv6.
    pub addresses: Vec<SocketAddr>,
}

impl NodeOptions {
    /// Returns whether each member has an address and nobody else has, a live member that isn't alone has a port that others know, the member leaves in time, lingers no longer than it
    /// may and only if it is live, and its guard is in its range.
    pub fn is_in_range(&self) -> bool
        ensures { IsTrue result ↔ AreInRange self.now }
    {
        self.addresses.len() == usize::from(self.config.members())
            && (!self.live || names_port(self.addresses.as_slice(), self.config.me().index()))
            && self.stay <= LATEST_MOMENT
            && self.linger <= LONGEST_LINGER
            && (self.live || self.linger == 0)
            && self.guard.is_in_range()
    }
}
