//! Brackets: timers from when they were set to their end.

use crate::point::Point;
use srm_entries::ArmKind;
use srm_names::Name;

/// How a timer ends.
#[derive(Clone, Copy, Debug, PartialEq, Eq)]
pub enum TimerEnd {
    /// It expired: the member requests or repairs the name.
    RanOut,
    /// It was set again before it expired, since another member requested the name.
    BackedOff,
    /// The drawop that it was to request came, another member sent the repair that it was to send, or the member is gone.
    Cancelled,
}

/// The entry that ends a timer, of the same member, by its place in the trace from 0; and how it ends it.
#[derive(Clone, Copy, Debug, PartialEq, Eq)]
pub struct BracketEnd {
    /// The entry that ends the timer, by its place in the trace from 0.
    pub entry: usize,
    /// How it ends the timer.
    pub ending: TimerEnd,
}

/// A timer that was set.
#[derive(Clone, Copy, Debug, PartialEq, Eq)]
pub struct Bracket {
    /// The entry that set it.
    pub from: Point,
    /// Its place from 0 among the timers that this entry set.
    pub nth: usize,
    /// Whether it is a request timer or a repair timer.
    pub kind: ArmKind,
    /// The drawop that it is about.
    pub name: Name,
    /// Its end; `None` if it still runs after the last entry.
    pub end: Option<BracketEnd>,
}
