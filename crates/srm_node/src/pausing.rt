//! How long a node pauses between two turns.

ghost use Rattle.std.specs.Prelude.{◌≡◌, ◌≤◌};
ghost use Rattle.srm_node.specs.Pauses.{LONGEST_PAUSE, is_full, is_idle, longest_after, pause_after, shortest_after, time_until};

use crate::limits::DATAGRAMS_A_TURN;

// The longest pause, in microseconds.
const LONGEST: u64 = 10_000;

// The longest one after a turn that gave a message, in microseconds: more may wait for room in the lane, and a worker that makes room doesn't end the pause.
const LONGEST_AFTER_A_GIVE: u64 = 1_000;

// The shortest one after a turn that heard and drew nothing, and found no command, in microseconds: what others send can make something due at once again and again,
// and would else keep a node at full speed.
const SHORTEST: u64 = 1_000;

/// What a turn did: how many datagrams it heard, how many strokes it drew and might draw at most, whether it found a command of the control, and whether it gave a
/// message.
#[derive(Clone, Copy)]
pub struct Turn {
    /// How many datagrams it heard, 0 to 64.
    pub heard: u8,
    /// How many strokes it drew.
    pub drawn: u8,
    /// How many strokes it might draw, 0 to 64.
    pub most: u8,
    /// Whether it found a command.
    pub obeyed: bool,
    /// Whether it put a message into a lane.
    pub gave: bool,
}

impl Turn {
    /// Makes a turn that heard and drew as much as it may.
    pub fn full() -> Turn {
        Turn {
            heard: DATAGRAMS_A_TURN,
            drawn: 0,
            most: 0,
            obeyed: false,
            gave: false,
        }
    }

    // Whether there may be more to hear, to draw or to carry out.
    fn is_full(self) -> bool
        ensures { result ≡ is_full self }
    {
        self.heard == DATAGRAMS_A_TURN || self.drawn == self.most || self.obeyed
    }

    fn is_idle(self) -> bool
        ensures { result ≡ is_idle self }
    {
        self.heard == 0 && self.drawn == 0 && !self.obeyed
    }

    // The longest pause after it.
    fn longest_pause(self) -> u64
        ensures { result ≡ longest_after self }
    {
        if self.gave {
            LONGEST_AFTER_A_GIVE
        } else {
            LONGEST
        }
    }

    // The shortest one, unless it was full.
    fn shortest_pause(self) -> u64
        ensures { result ≡ shortest_after self }
    {
        if self.is_idle() { SHORTEST } else { 0 }
    }
}

/// Returns how long to pause at the moment `now` after a turn, in microseconds: until something is due, at most 10,000, and at most 1,000 after a turn that gave a
/// message. After a turn that heard or drew all that it might, or found a command, it is 0, since more may be there. After a turn that heard and drew nothing, and
/// found no command, it is at least 1,000.
#[tactic(auto, using(crate::proofs::ShortPauses::pause_is_short))]
pub fn time_to_pause(last: Turn, due: Option<u64>, now: u64) -> u64
    ensures value { result ≡ pause_after last due now }
    ensures short { result ≤ LONGEST_PAUSE }
{
    if last.is_full() {
        return 0;
    }
    time_until(due, now)
        .min(last.longest_pause())
        .max(last.shortest_pause())
}

// How long until something is due; the longest pause, if nothing is.
fn time_until(due: Option<u64>, now: u64) -> u64
    ensures { result ≡ time_until due now }
{
    match due {
        Some(due) => due.saturating_sub(now),
        None => LONGEST,
    }
}
