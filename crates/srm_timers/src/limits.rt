//! The ranges of what timers are set from.

use srm_names::LONGEST_DISTANCE;

/// The greatest of the four timer settings of a session, each a number of distances.
pub const GREATEST_TIMER_SETTING: u8 = 16;

/// The greatest exponent: a wait is doubled at most so often.
pub const GREATEST_EXPONENT: u8 = 8;

/// How many distances to the first asker a name is held off after its repair.
pub const HOLD_OFF: u64 = 3;

/// The longest wait, 81,920,000,000 microseconds: with the greatest settings and exponent, over the longest distance.
pub const LONGEST_WAIT: u64 = (1 << GREATEST_EXPONENT)
    * 2
    * GREATEST_TIMER_SETTING as u64
    * LONGEST_DISTANCE;
