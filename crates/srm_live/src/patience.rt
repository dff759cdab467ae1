//! When a member that lingers leaves.

ghost use Rattle.std.specs.Prelude.{◌≡◌};
ghost use Rattle.srm_live.specs.Lingering.{has_told, is_over, is_quiet, quiet_after};

/// The longest time that a member lingers, in microseconds: whoever asks on and on holds nobody for ever.
const LONGEST: u64 = 30_000_000;

/// How long it waits for what it misses itself, in microseconds, if nothing of that comes: where three repairs were lost before any distance was measured, it asks again
/// after 3.2 seconds at most.
const PATIENCE: u64 = 5_000_000;

/// So many session messages tell of its last stroke before it leaves: one alone may be lost.
const SESSIONS: u64 = 2;

/// How a member that lingers stands. Times are in microseconds.
#[derive(Clone, Copy, Debug, PartialEq, Eq)]
pub struct Lingering {
    /// How long it has lingered.
    pub lingered: u64,
    /// How long it had lingered when it was needed last, or something that it missed came.
    pub needed: u64,
    /// How many strokes it misses.
    pub missing: u32,
    /// How many session messages it sent since its last stroke.
    pub sessions: u64,
}

impl Lingering {
    /// Returns whether a member leaves that lingers for `linger` microseconds. It stays as long as it was needed or something that it misses came within that time, or
    /// within 5 seconds if it misses something, and until two session messages told of its last stroke; for 30 seconds at most. With a `linger` of 0 it leaves at once.
    pub fn is_over(&self, linger: u64) -> bool
        ensures { result ≡ is_over linger self.now }
    {
        self.lingered >= LONGEST || (self.is_quiet(linger) && self.has_told(linger))
    }

    // Whether nothing was needed for long enough.
    fn is_quiet(&self, linger: u64) -> bool
        ensures { result ≡ is_quiet linger self.now }
    {
        let quiet = self.lingered.saturating_sub(self.needed);
        quiet >= quiet_after(linger, self.missing)
    }

    // Whether enough session messages told of its last stroke.
    fn has_told(&self, linger: u64) -> bool
        ensures { result ≡ has_told linger self.now }
    {
        linger == 0 || self.sessions >= SESSIONS
    }
}

// How long nothing may have been needed before a member leaves, if it misses so many strokes.
fn quiet_after(linger: u64, missing: u32) -> u64
    ensures { result ≡ quiet_after linger missing }
{
    if missing > 0 && linger > 0 {
        linger.max(PATIENCE)
    } else {
        linger
    }
}
