//! What is kept of one member.

ghost use Rattle.std.specs.Prelude.{◌≡◌, ◌≤◌, ℕ, List, [], ◌∷◌, ◌++◌};
ghost use Rattle.srm_names.specs.declared.limits.TheConstants.{LONGEST_DISTANCE};
ghost use Rattle.srm_distance.specs.Calls.{DistanceCall, Heard, Forgot};

use crate::heard_message::HeardMessage;
use crate::limits::FIRST_DISTANCE;
use crate::returned::Returned;
use srm_names::{Echo, LATEST_MOMENT, Member};

/// What is kept of one member: the echo that tells its distance, the session message to echo, and whether it was
/// forgotten.
#[derive(Clone, Copy, Debug)]
pub(crate) struct Peer {
    returned: Option<Returned>,
    newest_message: Option<HeardMessage>,
    forgotten: bool,
}

impl Peer {
    ghost use Rattle.srm_distance.specs.Distance.{estimate};
    ghost use Rattle.srm_distance.specs.Echoes.{SentWithin};
    ghost use Rattle.srm_distance.specs.Peers.{peer_of, echo_owed_by};

    /// A member that wasn't heard.
    pub(crate) fn unknown() -> Peer
        ensures fits { (b : ℕ) → result ≡ peer_of [] b }
        ensures range { SentWithin result.newest_message }
    {
        Peer {
            returned: None,
            newest_message: None,
            forgotten: false,
        }
    }

    /// What is kept after one more session message of the member.
    pub(crate) fn after_session(self, sent: u64, echo: Option<(u64, u64)>, now: u64) -> Peer
        requires { sent ≤ LATEST_MOMENT }
        ensures fits { (calls : List DistanceCall) (b : ℕ) → self ≡ peer_of calls b
            → result ≡ peer_of (calls ++ Heard b sent echo now ∷ []) b }
        ensures range { SentWithin self.newest_message → SentWithin result.newest_message }
    {
        Peer {
            returned: Returned::newer(self.returned, echo, now),
            newest_message: HeardMessage::newer(self.newest_message, sent, now),
            forgotten: self.forgotten,
        }
    }

    /// What is kept after the member left.
    #[tactic(auto, using(crate::proofs::Steps::peer_of_forgot))]
    pub(crate) fn after_forget(self) -> Peer
        ensures fits { (calls : List DistanceCall) (b : ℕ) → self ≡ peer_of calls b
            → result ≡ peer_of (calls ++ Forgot b ∷ []) b }
        ensures distance { result.returned ≡ self.returned }
        ensures range { SentWithin self.newest_message → SentWithin result.newest_message }
    {
        Peer {
            forgotten: true,
            ..self
        }
    }

    /// The echo that is owed to the member at a moment.
    pub(crate) fn echo(self, member: Member, now: u64) -> Option<Echo>
        ensures { result ≡ echo_owed_by now member self }
    {
        if self.forgotten {
            return None;
        }
        Some(self.newest_message?.echo(member, now))
    }

    /// The distance to the member, in microseconds: from the floor `least` to 10,000,000.
    pub(crate) fn distance(self, least: u64) -> u64
        requires { least ≤ LONGEST_DISTANCE }
        ensures { result ≡ estimate least self.returned }
    {
        match self.returned {
            None => FIRST_DISTANCE.max(least),
            Some(returned) => returned.distance(least),
        }
    }
}
