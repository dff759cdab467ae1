//! Session messages that were heard.

ghost use Rattle.std.specs.Prelude.{◌≡◌, ◌≤◌, ℕ, Option, List, [], ◌∷◌, ◌++◌};
ghost use Rattle.srm_distance.specs.Calls.{DistanceCall, Heard};

use srm_names::{Echo, LATEST_MOMENT, Member};

/// A session message of a member. Moments are in microseconds.
#[derive(Clone, Copy, Debug)]
pub(crate) struct HeardMessage {
    /// When it was sent, by its sender's clock.
    sent: u64,
    /// When it was heard.
    came: u64,
}

impl HeardMessage {
    ghost use Rattle.srm_distance.specs.Echoes.{latest, echo_of, SentWithin};

    /// The session message to echo after one more was heard: the newest, as it was heard first.
    #[tactic(auto, using(crate::proofs::Steps::latest_heard, std::proofs::lemmas::Bool::Decides::nat_tests))]
    pub(crate) fn newer(kept: Option<HeardMessage>, sent: u64, now: u64) -> Option<HeardMessage>
        requires { sent ≤ LATEST_MOMENT }
        ensures value { (calls : List DistanceCall) (b : ℕ) (echo : Option (ℕ × ℕ)) → kept ≡ latest calls b
            → result ≡ latest (calls ++ Heard b sent echo now ∷ []) b }
        ensures range { SentWithin kept → SentWithin result }
    {
        match kept {
            Some(kept) if sent <= kept.sent => Some(kept),
            _ => Some(HeardMessage { sent, came: now }),
        }
    }

    /// The echo of it at a moment.
    pub(crate) fn echo(self, member: Member, now: u64) -> Echo
        ensures { result ≡ echo_of now member self }
    {
        Echo {
            member,
            t1: self.sent,
            delay: now.saturating_sub(self.came),
        }
    }
}
