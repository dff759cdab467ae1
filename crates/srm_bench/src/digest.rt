//! A number made of answers.

use srm_agent::{Arm, ArmKind};

/// A number made of all that was added, in order.
#[derive(Clone, Copy)]
pub struct Digest {
    value: u64,
}

impl Digest {
    pub fn new() -> Digest {
        Digest { value: 1 }
    }

    pub fn value(self) -> u64 {
        self.value
    }

    pub fn add(&mut self, value: u64) {
        self.value = self.value.wrapping_mul(31).wrapping_add(value);
    }

    pub fn add_arms(&mut self, arms: &[Arm]) {
        for arm in arms {
            self.add(u64::from(arm.kind == ArmKind::Fix));
            self.add(u64::from(arm.exponent));
            self.add(arm.distance);
            self.add(arm.wait);
        }
    }
}
