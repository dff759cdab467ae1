//! Sets of members.

ghost use Rattle.std.specs.Prelude.{◌≡◌};
ghost use Rattle.srm_live.specs.MemberSets as spec;
ghost use Rattle.srm_live.specs.MemberSets.{Gains, Loses};

use srm_names::Member;

/// Returns whether a member is in a set.
#[tactic(auto, using(crate::proofs::MemberBits::is_bit))]
pub fn has(set: u32, member: Member) -> bool
    ensures { result ≡ spec.has set member }
{
    let number = member.number();
    (set >> number) & 1 == 1
}

/// Returns a set with a member.
#[tactic(auto, using(crate::proofs::MemberBits::gains))]
pub fn with(set: u32, member: Member) -> u32
    ensures { Gains set member result }
{
    let number = member.number();
    set | 1 << number
}

/// Returns a set without a member.
#[tactic(auto, using(crate::proofs::MemberBits::loses))]
pub fn without(set: u32, member: Member) -> u32
    ensures { Loses set member result }
{
    let number = member.number();
    set & !(1 << number)
}
