//! The settings that most members leave as they are.

ghost use Rattle.std.specs.Prelude.{◌≡◌, ◌↔◌, true};
ghost use Rattle.srm_entries.specs.Configs.{AreInRange, default_settings};

use crate::limits::{DEFAULT_DEPTH, DEFAULT_RATE};
use srm_bucket::{GREATEST_DEPTH, GREATEST_RATE, LEAST_DEPTH, LEAST_RATE};
use srm_distance::SHORTEST_DISTANCE;
use srm_names::LONGEST_DISTANCE;
use srm_timers::GREATEST_TIMER_SETTING;

/// What a member may send and how long it waits, by name. Most members take [`Settings::default`], or all but one of it, as in
/// `Settings { rate: 100_000, ..Settings::default() }`.
#[derive(Clone, Copy, Debug, PartialEq, Eq)]
pub struct Settings {
    /// Bytes a second that the member may send, 1 to 100,000,000; by default [`DEFAULT_RATE`].
    pub rate: u32,
    /// Bytes that its bucket holds, 1,051 to 1,000,000; by default [`DEFAULT_DEPTH`].
    pub depth: u32,
    /// A request waits at least so many distances, 0 to 16; by default 2.
    pub c1: u8,
    /// How many distances more a request waits at most, 0 to 16; by default 2.
    pub c2: u8,
    /// A repair waits at least so many distances, 0 to 16; by default 1.
    pub d1: u8,
    /// How many distances more a repair waits at most, 0 to 16; by default 1.
    pub d2: u8,
    /// A distance to another member counts as at least so many microseconds, 1 to 10,000,000; by default 1, which is no floor.
    ///
    /// Timers wait for a multiple of a distance. Where members are a few microseconds apart, one that misses much would ask each
    /// millisecond, and its own strokes would wait behind its requests; 5,000 ends that, and delays a repair by a few milliseconds.
    pub least_distance: u64,
}

impl Settings {
    /// Whether each setting is in its range.
    pub(crate) fn are_in_range(&self) -> bool
        ensures { (result ≡ true) ↔ AreInRange self.now }
    {
        LEAST_RATE <= self.rate
            && self.rate <= GREATEST_RATE
            && LEAST_DEPTH <= self.depth
            && self.depth <= GREATEST_DEPTH
            && self.c1 <= GREATEST_TIMER_SETTING
            && self.c2 <= GREATEST_TIMER_SETTING
            && self.d1 <= GREATEST_TIMER_SETTING
            && self.d2 <= GREATEST_TIMER_SETTING
            && SHORTEST_DISTANCE <= self.least_distance
            && self.least_distance <= LONGEST_DISTANCE
    }
}

impl Default for Settings {
    ghost is_default = { λ settings. settings ≡ default_settings };

    fn default() -> Settings {
        Settings {
            rate: DEFAULT_RATE,
            depth: DEFAULT_DEPTH,
            c1: 2,
            c2: 2,
            d1: 1,
            d2: 1,
            least_distance: SHORTEST_DISTANCE,
        }
    }
}
