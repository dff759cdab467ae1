//! Datagrams to all other members.

ghost use Rattle.std.specs.Prelude.{◌≤◌, map};
ghost use Rattle.srm_names.specs.declared.limits.TheConstants.{MEMBERS};
ghost use Rattle.srm_outbox.specs.declared.out.Out.{Out as SentOut};
ghost use Rattle.srm_wire.specs.Wires.{Sends, SendsEach, dispatched};

use srm_agent::Out;
use srm_names::Member;
use srm_wire::{Wire, send_to_others};

/// Sends each of these datagrams to every other member, in rising order, whatever fails. Returns whether a send failed. Takes no memory.
pub fn send_all<X: Wire>(wire: &mut X, me: Member, members: u8, outs: &[Out]) -> bool
    requires { members ≤ MEMBERS }
    ensures sends { Sends result (dispatched me members (map (λ (o : SentOut). o.bytes) outs.now)) (X.failure_count wire.old) (X.failure_count wire.new) (X.told wire.old) (X.told wire.new) }
    ensures each { SendsEach X.sends result (dispatched me members (map (λ (o : SentOut). o.bytes) outs.now)) wire.old wire.new }
{
    let mut failed = false;
    for out in outs {
        let lost = send_to_others(wire, me, members, out.bytes.as_slice());
        failed = failed | lost;
    }
    failed
}
