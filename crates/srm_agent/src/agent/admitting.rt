//! Whether the rate lets a draw go at once.

ghost use Rattle.std.specs.Prelude.{◌≡◌};
ghost use Rattle.srm_entries.specs.Admitting.{draw_length};
ghost use Rattle.srm_agent.specs.Admitting.{DrawAdmitted, DrawAdmittedFrom};

use super::Agent;
use srm_bucket::Class;
use srm_codec::{DRAWOP_BYTES, HEAD_BYTES};
use srm_names::LONGEST_BODY;
use srm_timers::Words;

impl<W: Words + Drop> Agent<W> {
    /// Returns whether the rate would let a drawop with a body of so many bytes go at once if it were drawn at `now`, in microseconds: no request or repair for the
    /// page shown and no new data wait, or the tokens cover all of these and its datagram.
    ///
    /// A longer body counts as one of 1,024 bytes. Whether the draw would succeed it doesn't say. Takes no memory and changes nothing,
    /// the last moment too.
    #[tactic(auto, using(crate::proofs::Admitting::admitted))]
    pub fn admits_draw(&self, body_length: usize, now: u64) -> bool
        ensures { DrawAdmitted body_length now self.now result }
    {
        let moment = now.max(self.last);
        self.bucket
            .admits(Class::New, draw_length(body_length), moment)
    }

    /// Returns when [`admits_draw`](Agent::admits_draw) begins to return true for a body of so many bytes, in microseconds, if no other call comes before. It isn't
    /// before the last moment that counted, and may be past 2^48.
    ///
    /// `None` if the datagram and what waits before it are more than the bucket's depth: then something has to go first, and
    /// [`next_due`](Agent::next_due) tells when. Takes no memory and changes nothing.
    #[tactic(auto, using(crate::proofs::Admitting::never_admitted, crate::proofs::Admitting::admitted_from))]
    pub fn admits_draw_from(&self, body_length: usize) -> Option<u64>
        ensures { DrawAdmittedFrom body_length self.now result }
    {
        let first = self
            .bucket
            .admits_from(Class::New, draw_length(body_length))?;
        Some(self.last.max(first))
    }
}

/// What the rate charges for the datagram of a draw, in bytes.
fn draw_length(body_length: usize) -> u32
    ensures { result ≡ draw_length body_length }
{
    (HEAD_BYTES + DRAWOP_BYTES + body_length.min(usize::from(LONGEST_BODY))) as u32
}
