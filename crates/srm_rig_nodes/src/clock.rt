//! A clock without a system.

ghost use Rattle.std.specs.Prelude.{◌≡◌};

use srm_node::Clock;
use std::marker::Model;

/// A clock that goes on by so many microseconds whenever it is read.
#[derive(Drop)]
pub struct StepClock {
    now: u64,
    step: u64,
}

impl Model for StepClock {
    ghost use Rattle.srm_rig_nodes.specs.StepClocks.{StepClockView};

    ghost Value = { StepClockView };

    ghost view = { λ c. record { next = c.now; step = c.step } };
}

impl StepClock {
    /// A clock that tells this moment first.
    pub fn new(first: u64, step: u64) -> StepClock
        ensures { result ≡ record { next = first; step = step } }
    {
        StepClock { now: first, step }
    }
}

impl Clock for StepClock {
    ghost use Rattle.srm_rig_nodes.specs.StepClocks.{Steps};

    ghost reads = { Steps };

    fn now(&mut self) -> u64 {
        let told = self.now;
        self.now = told.saturating_add(self.step);
        told
    }
}
