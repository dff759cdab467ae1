//! The settings of all members.

ghost use Rattle.std.specs.Prelude.{◌≡◌, ◌≤◌, ◌<◌, length, IfOk};
ghost use Rattle.srm_names.specs.declared.limits.TheConstants.{MEMBERS, LONGEST_DISTANCE};
ghost use Rattle.srm_distance.specs.declared.limits.TheConstants.{SHORTEST_DISTANCE};
ghost use Rattle.srm_bucket.specs.declared.limits.TheConstants.{LEAST_RATE, GREATEST_RATE, LEAST_DEPTH, GREATEST_DEPTH};
ghost use Rattle.srm_world.specs.Traces.{IsRoster, started};

use srm_agent::{Config, Settings};
use srm_names::Member;
use std::alloc::{AllocError, Global};

/// The number of the session of each script.
const SCRIPT_SESSION: u32 = 1;

/// Returns the settings of the members of one roster, in order, in one session, with the same rate in bytes a second, depth in bytes and
/// floor under distances in microseconds. Fails only if out of memory.
pub fn roster(
    alloc: Global,
    members: u8,
    rate: u32,
    depth: u32,
    least_distance: u64,
) -> Result<Vec<Config>, AllocError>
    requires some { 0 < members }
    requires few { members ≤ MEMBERS }
    requires rate { (LEAST_RATE ≤ rate) × (rate ≤ GREATEST_RATE) }
    requires depth { (LEAST_DEPTH ≤ depth) × (depth ≤ GREATEST_DEPTH) }
    requires least_distance { (SHORTEST_DISTANCE ≤ least_distance) × (least_distance ≤ LONGEST_DISTANCE) }
    ensures roster { IfOk result (λ configs. IsRoster (started configs.items)) }
    ensures count { IfOk result (λ configs. length configs.items ≡ members) }
{
    let settings = Settings {
        rate,
        depth,
        least_distance,
        ..Settings::default()
    };
    let mut configs = Vec::new(alloc);
    for number in 0..members {
        let me = Member::new(number).unwrap();
        let config = Config::with(me, members, SCRIPT_SESSION, settings).unwrap();
        configs.push(config)?;
    }
    Ok(configs)
}
