//! A wire over UDP with its own queue, and the system's clock.
//!
//! ```
//! let mut wire = UdpWire::bind(&rt, alloc, me, addresses)?; // the members' addresses, by number
//! wire.keep_to_roster(); // drops and counts what comes from elsewhere
//! let waker = wire.waker()?; // for another thread: `waker.wake()` ends the node's pause
//! let clock = SystemClock::new(rt)?;
//! ```
//!
//! A [`Loss`] is a kind of loss, [`Losses`] counts them, and [`Dropped`] counts what was received and dropped. A [`WireWaker`] ends pauses.
//! A [`Rested`] wire begins a pause with a rest while datagrams come close together.
//!
//! **Errors.** [`UdpWire::bind`] fails if the system refuses, and if out of memory. A `send` or `receive` fails if the system returns an error that is no loss
//! ([`loss_of`]). A lost datagram is requested again, so a member that ends and closes its port ends no other. [`UdpWire::losses`] counts losses by kind,
//! [`UdpWire::dropped`] what was received and dropped, and [`counts`](srm_wire::Wire::counts) has both. [`FirstFailure`] tells which call failed first, and why.
#![tactic(auto)]

mod backlog;
mod dropped;
mod first_failure;
mod inbox;
mod loss;
mod outlet;
mod rested;
mod room;
mod roster;
mod system_clock;
#[cfg(test)]
mod tests;
mod udp_wire;
mod wire_waker;

pub use dropped::Dropped;
pub use first_failure::{FirstFailure, WireFailure};
pub use loss::{is_loss, loss_of};
pub use rested::Rested;
pub use srm_wire::{Loss, Losses};
pub use system_clock::SystemClock;
pub use udp_wire::UdpWire;
pub use wire_waker::WireWaker;
