//! The distance to a member.

ghost use Rattle.std.specs.Prelude.{◌≡◌, ◌≤◌, ◌↔◌, ℕ, List};
ghost use Rattle.srm_names.specs.declared.limits.TheConstants.{LONGEST_DISTANCE};
ghost use Rattle.srm_entries.specs.Configs.{Config as AConfig};
ghost use Rattle.srm_entries.specs.declared.entry.Entry.{Entry as AnEntry};
ghost use Rattle.srm_entries.specs.Distances.{distance};
ghost use Rattle.srm_agent.specs.Fits.{AgentFits};

use super::Agent;
use srm_names::Member;
use srm_timers::Words;

impl<W: Words + Drop> Agent<W> {
    /// Returns the one-way distance to a member in microseconds, which bounds the waits of timers. It is 0 to this member itself, and to
    /// another [`Config::least_distance`](crate::Config::least_distance) to 10,000,000. Until an echo from a member was heard it is
    /// 100,000, or the floor if that is more.
    ///
    /// Takes no memory and changes nothing.
    pub fn distance(&self, member: Member) -> u64
        ensures value { (c : AConfig) (made : ℕ) (past : List AnEntry) → AgentFits c made past self.now → result ≡ distance c past member }
        ensures longest { result ≤ LONGEST_DISTANCE }
    {
        self.distances.distance(member)
    }
}
