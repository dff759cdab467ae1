//! A network in memory, for tests.

ghost use Rattle.std.specs.Prelude.{◌≡◌, map, IfOk};
ghost use Rattle.srm_wire.specs.Networks.{AreNewWires, NextWire, new_wire_of};

use crate::fates::Fate;
use crate::inboxes::{Inboxes, Network};
use crate::mem_wire::MemWire;
use std::alloc::{AllocError, Global};
use std::collections::VecDeque;
use std::sync::{Arc, Mutex, Wait};

#[tactic(auto, using(crate::proofs::Wiring::wiring_none, crate::proofs::Wiring::wiring_more))]
/// Makes a network in memory, and returns the wires of members 0 to `members - 1`, 32 at most, in order. `rt` locks its inboxes. The k-th list of fates is member
/// k's: its n-th copy gets the n-th fate, and passes if there is none.
///
/// Fails only if out of memory.
pub fn hub<R: Wait + Copy + Drop>(
    rt: R,
    alloc: Global,
    members: u8,
    fates: Vec<Vec<Fate>>,
) -> Result<Vec<MemWire<R>>, AllocError>
    ensures { IfOk result (λ wires. AreNewWires members (map (λ own. own.items) fates.items) wires.items) }
{
    let mut fates = VecDeque::from(fates);
    let network = Arc::new(alloc, Mutex::new(Inboxes::new(alloc, members)?))?;
    let mut wires = Vec::new(alloc);
    for me in 0..members {
        wires.push(next_wire(rt, alloc, me, &network, &mut fates)?)?;
    }
    Ok(wires)
}

// Makes the wire of the next member, which gets the first list of fates that is left.
fn next_wire<R: Wait + Drop>(
    rt: R,
    alloc: Global,
    me: u8,
    network: &Network,
    fates: &mut VecDeque<Vec<Fate>>,
) -> Result<MemWire<R>, AllocError>
    ensures { IfOk result (λ wire. NextWire me (map (λ own. own.items) fates.old.items) (map (λ own. own.items) fates.new.items) wire) }
{
    match fates.pop_front() {
        Some(own) => new_wire(rt, alloc, me, network, own),
        None => new_wire(rt, alloc, me, network, Vec::new(alloc)),
    }
}

fn new_wire<R: Wait + Drop>(
    rt: R,
    alloc: Global,
    me: u8,
    network: &Network,
    fates: Vec<Fate>,
) -> Result<MemWire<R>, AllocError>
    ensures { IfOk result (λ wire. wire ≡ new_wire_of me fates.items) }
{
    Ok(MemWire::new(rt, alloc, me, Arc::try_clone(network)?, fates))
}
