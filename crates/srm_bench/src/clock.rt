//! The caller's clock.

ghost use Rattle.std.specs.Prelude.{◌≤◌};
ghost use Rattle.srm_names.specs.declared.limits.TheConstants.{LATEST_MOMENT};

use srm_names::LATEST_MOMENT;

/// Microseconds from 0, as far as the greatest moment.
#[derive(Clone, Copy)]
pub struct Clock {
    now: u64,
}

impl Clock {
    pub fn new() -> Clock {
        Clock { now: 0 }
    }

    /// The moment so many microseconds later.
    pub fn after(&mut self, micros: u32) -> u64
        ensures { result ≤ LATEST_MOMENT }
    {
        self.now = self
            .now
            .saturating_add(u64::from(micros))
            .min(LATEST_MOMENT);
        self.now
    }
}
