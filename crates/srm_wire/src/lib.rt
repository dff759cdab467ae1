//! Wires, which carry datagrams between the members of a session, and the clock of a node.
//!
//! A node works with any [`Wire`] and [`Clock`]. For tests there are a network in memory ([`hub`], of [`MemWire`]s) and a wire that fails one
//! call ([`Flaky`]). Contracts see what these returned and took.
//!
//! ```
//! let failed = send_to_others(&mut wire, me, 3, &bytes); // a copy to each of the two others
//! while let Ok(Some(count)) = wire.receive(&mut buffer) { /* read buffer[..count] */ }
//! wire.pause(1_000); // until a datagram may be there, or 1 ms has passed
//! ```
//!
//! Each wire says what it has counted ([`Wire::counts`]): the calls that failed, what was lost by kind, and what was dropped by cause. A wire around another one adds its own.
//!
//! **Errors.** A failed `send` or `receive` returns [`WireFault`], and the wire counts it. A datagram that is lost isn't an error. [`hub`]
//! fails only if out of memory.
#![tactic(auto)]

mod clock;
mod counts;
mod fates;
mod flaky;
mod inboxes;
mod loss;
mod mem_wire;
mod network;
mod sending;
mod sent;
mod wire;

pub use clock::Clock;
pub use counts::{Dropped, WireCounts};
pub use fates::Fate;
pub use flaky::Flaky;
pub use loss::{Loss, Losses};
pub use mem_wire::MemWire;
pub use network::hub;
pub use sending::send_to_others;
pub use sent::Sent;
pub use wire::{Wire, WireFault, count_failure};
