//! Echoes that came back, and the distance that they tell.

ghost use Rattle.std.specs.Prelude.{◌≡◌, ◌≤◌, ℕ, List, [], ◌∷◌, ◌++◌};
ghost use Rattle.srm_names.specs.declared.limits.TheConstants.{LONGEST_DISTANCE};
ghost use Rattle.srm_distance.specs.Calls.{DistanceCall, Heard};

use srm_names::LONGEST_DISTANCE;

/// An echo of one of this member's own session messages. Moments and times are in microseconds.
#[derive(Clone, Copy, Debug)]
pub(crate) struct Returned {
    /// When the message was sent.
    t1: u64,
    /// How long the other member had it before it sent the echo.
    delay: u64,
    /// When the echo was heard.
    t4: u64,
}

impl Returned {
    ghost use Rattle.srm_distance.specs.Distance.{newest, half_way};

    /// The echo that tells the distance to a member after one more of it: that of the newest message, as it was heard
    /// first. One of a moment to come doesn't count.
    #[tactic(auto, using(crate::proofs::Steps::newest_heard, std::proofs::lemmas::Bool::Decides::nat_tests))]
    pub(crate) fn newer(
        kept: Option<Returned>,
        echo: Option<(u64, u64)>,
        now: u64,
    ) -> Option<Returned>
        ensures { (calls : List DistanceCall) (b sent : ℕ) → kept ≡ newest calls b
            → result ≡ newest (calls ++ Heard b sent echo now ∷ []) b }
    {
        let Some((t1, delay)) = echo else {
            return kept;
        };
        if t1 > now {
            return kept;
        }
        match kept {
            Some(kept) if t1 <= kept.t1 => Some(kept),
            _ => Some(Returned { t1, delay, t4: now }),
        }
    }

    /// The distance that the echo tells, in microseconds: from the floor `least` to 10,000,000.
    pub(crate) fn distance(self, least: u64) -> u64
        requires { least ≤ LONGEST_DISTANCE }
        ensures { result ≡ half_way least self }
    {
        let both_ways = self.t4.saturating_sub(self.t1).saturating_sub(self.delay);
        (both_ways / 2).clamp(least, LONGEST_DISTANCE)
    }
}
