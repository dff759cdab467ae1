//! Where lines first differ.

ghost use Rattle.std.specs.Prelude.{◌≡◌, ◌↔◌, Some, slice_get, IsTrue, MatchOption};
ghost use Rattle.srm_record.specs.Differing.{IsFirstOther};

use srm_frames::{Call, Line};
use srm_names::PageMsg;

/// Returns the first place at which lines aren't those that are wanted there; `None` if they are all these. Takes no memory.
#[tactic(auto, using(crate::proofs::Beside::other_at, crate::proofs::Beside::same_more, crate::proofs::Beside::more_wanted, crate::proofs::Beside::all_wanted))]
pub fn first_other(lines: &[Line], wanted: &[Line]) -> Option<usize>
    ensures { MatchOption result (lines.now ≡ wanted.now) (IsFirstOther lines.now wanted.now) }
{
    for (place, line) in lines.iter().enumerate() {
        if !is_at(wanted, place, line) {
            return Some(place);
        }
    }
    if wanted.len() > lines.len() {
        return Some(lines.len());
    }
    None
}

fn is_at(wanted: &[Line], place: usize, line: &Line) -> bool
    ensures { IsTrue result ↔ (slice_get wanted.now place ≡ Some line.now) }
{
    match wanted.get(place) {
        Some(other) => is_same(other, line),
        None => false,
    }
}

fn is_same(one: &Line, other: &Line) -> bool
    ensures { IsTrue result ↔ (one.now ≡ other.now) }
{
    one.moment == other.moment && is_same_call(&one.call, &other.call)
}

fn is_same_call(one: &Call, other: &Call) -> bool
    ensures { IsTrue result ↔ (one.now ≡ other.now) }
{
    match (one, other) {
        (Call::Drew(page, body), Call::Drew(other, text)) => page == other && body == text,
        (Call::Heard(bytes), Call::Heard(other)) => bytes == other,
        (Call::Showed(page), Call::Showed(other)) => page == other,
        (Call::Gave(slot), Call::Gave(other)) => slot == other,
        (Call::Took(slot, message), Call::Took(other, text)) => {
            slot == other && is_same_message(message, text)
        }
        (Call::Ticked, Call::Ticked)
        | (Call::AskedLeave, Call::AskedLeave)
        | (Call::Ended, Call::Ended) => true,
        _ => false,
    }
}

fn is_same_message(one: &PageMsg, other: &PageMsg) -> bool
    ensures { IsTrue result ↔ (one.now ≡ other.now) }
{
    match (one, other) {
        (PageMsg::Open(page), PageMsg::Open(other)) => page == other,
        (PageMsg::Draw(drawop), PageMsg::Draw(other)) => {
            drawop.name == other.name && drawop.stamp == other.stamp && drawop.body == other.body
        }
        (PageMsg::Left(member), PageMsg::Left(other)) => member == other,
        (PageMsg::Close, PageMsg::Close) => true,
        _ => false,
    }
}
