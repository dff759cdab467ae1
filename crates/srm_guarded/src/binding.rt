//! Binding a member's wire, with its guard.

ghost use Rattle.std.specs.Prelude.{◌≡◌, ◌<◌, vec_len, false, IfOk};
ghost use Rattle.srm_guarded.specs.Guarding.{guarded_wire, keeping_to};

use srm_entries::Config;
use srm_guard::{Guard, Seal};
use srm_options::GuardOptions;
use srm_udp::{FirstFailure, UdpWire, WireWaker};
use std::alloc::Global;
use std::io;
use std::net::{Net, SocketAddr};
use std::sync::Arc;

/// A member's wire with its guard, and the handles that other threads get.
#[derive(Drop)]
pub struct Guarded {
    /// The wire over UDP, with the guard around it.
    pub wire: Guard<UdpWire>,
    /// What ends the wire's pauses. `None` if out of memory for it: a pause then lasts to its end.
    pub waker: Option<Arc<WireWaker, Global>>,
    /// Tells which call of the wire failed first. `None` if out of memory for it.
    pub failure: Option<Arc<FirstFailure, Global>>,
}

/// Binds a socket to the address that `addresses` has for the member of `config`, and puts a guard around its wire: with the roster that `guard` asks for, and with
/// `seal`. Pass what [`seal_by`](crate::seal_by) returned for the key of these options: `guard.key` isn't read here, and with `None` the wire neither tags nor checks.
/// Nor is `guard.most_missing`, which is a limit of the node.
///
/// Fails with `InvalidInput` if the member has no address, with `OutOfMemory` if there are not some 5 MB, and with the system's error if it refuses to bind or to
/// poll.
pub fn bind_guarded(
    rt: &impl Net,
    alloc: Global,
    config: Config,
    guard: &GuardOptions,
    seal: Option<Seal>,
    addresses: Vec<SocketAddr>,
) -> io::Result<Guarded>
    ensures new { IfOk result (λ g. g.wire ≡ guarded_wire addresses.items guard.now seal) }
    ensures place { IfOk result (λ g. config.me < vec_len addresses) }
{
    let mut wire = UdpWire::bind(rt, alloc, config.me(), addresses)?;
    keep_to(&mut wire, guard.only_roster);
    let waker = wire.waker().ok();
    let failure = wire.first_failure().ok();
    let wire = Guard::new(wire, alloc, seal)?;
    Ok(Guarded {
        wire,
        waker,
        failure,
    })
}

#[tactic(auto, using(crate::proofs::Keeping::kept, crate::proofs::Keeping::unkept))]
// Makes a new wire keep to its roster, if it is to.
fn keep_to(wire: &mut UdpWire, only_roster: bool)
    requires { wire.old.inbox.only_roster ≡ false }
    ensures { wire.new ≡ keeping_to only_roster wire.old }
{
    if only_roster {
        wire.keep_to_roster();
    }
}
