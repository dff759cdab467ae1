//! Sending to all other members.

ghost use Rattle.std.specs.Prelude.{◌≤◌, ◌<◌, ◌∷◌, []};
ghost use Rattle.srm_names.specs.declared.limits.TheConstants.{MEMBERS};
ghost use Rattle.srm_wire.specs.Wires.{Sends, SendsEach, but, others, sends_to};

use crate::wire::Wire;
use srm_names::Member;

#[tactic(auto, using(crate::proofs::Telling::sends_to_more, crate::proofs::Telling::sends_none, crate::proofs::Dispatching::each_to_more, crate::proofs::Dispatching::each_none))]
/// Sends bytes to each other member of a roster of `members`, at most 32, in order of number, and returns whether a send failed.
///
/// Each member is tried, whatever failed before. Costs one `send` a member, and no memory beside.
pub fn send_to_others<X: Wire>(wire: &mut X, me: Member, members: u8, bytes: &[u8]) -> bool
    requires { members ≤ MEMBERS }
    ensures sends { Sends result (sends_to (others me members) bytes.now) (X.failure_count wire.old) (X.failure_count wire.new) (X.told wire.old) (X.told wire.new) }
    ensures each { SendsEach X.sends result (sends_to (others me members) bytes.now) wire.old wire.new }
{
    let mut failed = false;
    for number in 0..members {
        let lost = send_to_other(wire, me, number, bytes);
        failed = failed | lost;
    }
    failed
}

#[tactic(auto, using(crate::proofs::Telling::sends_none, crate::proofs::Telling::sends_one, crate::proofs::Dispatching::each_none, crate::proofs::Dispatching::each_one))]
// Sends bytes to a member unless it is this one, and returns whether the send failed.
fn send_to_other<X: Wire>(wire: &mut X, me: Member, number: u8, bytes: &[u8]) -> bool
    requires { number < MEMBERS }
    ensures sends { Sends result (sends_to (but me (number ∷ [])) bytes.now) (X.failure_count wire.old) (X.failure_count wire.new) (X.told wire.old) (X.told wire.new) }
    ensures each { SendsEach X.sends result (sends_to (but me (number ∷ [])) bytes.now) wire.old wire.new }
{
    if number == me.number() {
        return false;
    }
    let Some(to) = Member::new(number) else {
        unreachable!()
    };
    wire.send(to, bytes).is_err()
}
