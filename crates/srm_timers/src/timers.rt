//! Timers by name.

ghost use Rattle.std.specs.Prelude.{◌≡◌, true};
ghost use Rattle.srm_names.specs.Names.{ascending, name_below};
ghost use Rattle.srm_timers.specs.Arms.{arm_names};
ghost use Rattle.srm_deadlines.specs.Places.{KeepsPlaces, HasPlaces};
ghost use Rattle.srm_timers.specs.Timers.{armed_at, SetsTimers};

use crate::arm::{Arm, Armed};
use srm_deadlines::ByName;

/// These timers run from now on.
pub(crate) fn set_timers(timers: &mut ByName<Armed>, now: u64, arms: &[Arm])
    requires rising { ascending name_below (arm_names arms.now) ≡ true }
    requires places { HasPlaces (arm_names arms.now) timers.old }
    ensures sets { SetsTimers now arms.now timers.old timers.new }
    ensures keeps_places { KeepsPlaces timers.old timers.new }
{
    for arm in arms {
        timers.set(arm.name, Some(arm_at(now, *arm)));
    }
}

/// A timer that is set at a moment.
pub(crate) fn arm_at(set: u64, arm: Arm) -> Armed
    ensures { result ≡ armed_at set arm }
{
    Armed { set, arm }
}
