//! Timers that were set.

use srm_names::Name;

/// What a timer is for.
#[derive(Clone, Copy, Debug, PartialEq, Eq)]
pub enum ArmKind {
    /// To request a drawop that is missing.
    Ask,
    /// To repair a drawop that a request named.
    Fix,
}

impl ArmKind {
    /// Returns its word in what `srm world` prints.
    pub fn printed(self) -> &'static str {
        match self {
            ArmKind::Ask => "ask",
            ArmKind::Fix => "fix",
        }
    }
}

/// A timer that was set.
#[derive(Clone, Copy, Debug, PartialEq, Eq)]
pub struct Arm {
    /// What it is for.
    pub kind: ArmKind,
    /// The drawop that it is about.
    pub name: Name,
    /// How often the wait was doubled: 0 to 8, and 0 for a repair.
    pub exponent: u8,
    /// The distance that bounds the wait, in microseconds.
    pub distance: u64,
    /// Microseconds from when the timer was set until it expires.
    pub wait: u64,
}

/// A timer, and the moment when it was set, in microseconds. It is for contracts: no call takes or returns one.
#[derive(Clone, Copy, Debug, PartialEq, Eq)]
pub struct Armed {
    /// When it was set, in microseconds.
    pub set: u64,
    /// The timer.
    pub arm: Arm,
}
