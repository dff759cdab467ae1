//! Whether page workers took what their own members gave.

ghost use Rattle.std.specs.Prelude.{◌↔◌, IsTrue, MatchOption};
ghost use Rattle.srm_audited.specs.Verdicts.{AreGiven, IsGiven, IsUngiven};

use srm_audit::{Got, gave_first};
use srm_gaps::{Told, calls_told};
use srm_names::Member;

/// Returns the member and the page slot of the first list that isn't a prefix of what the calls told of its member gave there; `None` if all are. Takes no memory.
#[tactic(auto, using(crate::proofs::Given::ungiven_at))]
pub fn first_ungiven(told: &[Told], gots: &[Got]) -> Option<(Member, u8)>
    ensures { MatchOption result (AreGiven told.now gots.now) (λ found. IsUngiven told.now gots.now found.0 found.1) }
{
    for got in gots {
        if !is_given(told, got) {
            return Some((got.member, got.slot));
        }
    }
    None
}

fn is_given(told: &[Told], got: &Got) -> bool
    ensures { IsTrue result ↔ IsGiven told.now got.now }
{
    gave_first(calls_told(told, got.member), got.slot, got.list.as_slice())
}
