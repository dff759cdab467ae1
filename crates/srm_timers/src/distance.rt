//! Distances by member.

ghost use Rattle.std.specs.Prelude.{◌≡◌, ◌<◌, ◌≤◌};
ghost use Rattle.srm_names.specs.declared.limits.TheConstants.{MEMBERS};
ghost use Rattle.srm_timers.specs.Distances.{distance_to, AreDistances};

use srm_names::{LONGEST_DISTANCE, Member};

/// The distance to a member, in microseconds.
pub(crate) fn distance_in(dist: &[u64], member: Member) -> u64
    requires { AreDistances dist.now }
    ensures value { result ≡ distance_to dist.now member }
    ensures range { result ≤ LONGEST_DISTANCE }
    ensures member { member < MEMBERS }
{
    dist[member.index()]
}
