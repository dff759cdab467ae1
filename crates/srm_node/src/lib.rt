//! A member that takes part in a session: an agent with a wire and a clock, with page workers and producers of strokes in threads.
//!
//! A [`Node`] turns: it hears what came, draws what its producers sent, shows the page that another thread asks for, ticks, sends, and gives the page workers their messages.
//! [`host`] runs a node and its eight page workers until the member has left.
//!
//! A page worker ([`work`]) shows what it takes to a [`PageSink`]. [`host`] returns a [`Hosted`], with a [`Worked`] for each worker; [`host_with_ends`] returns the
//! node's ends of its stroke queue and its control too. [`Node::counts`] returns what came to nothing ([`Counts`]). The wires and the clock are those of `srm_wire`.
//!
//! **A limit.** With [`Node::limit_missing`] a node drops a datagram that would make more drawops missing than the member is to request. It counts what it drops
//! ([`Node::excess`]).
//!
//! ```
//! let mut node = Node::new(alloc, config, words, wire, clock, feeds, well)?;
//! let control = node.control(alloc)?; // With it another thread shows pages.
//! node.ask_leave(at);
//! let hosted = host(&rt, alloc, node, taps, sinks, turns)?;
//! ```
//!
//! **Errors.** A turn ends with a [`NodeFault`] if a call of the wire failed or memory ran out, a run also if its turns are spent; either may be called again. What makes a
//! node, a control or a host fails only if out of memory, with `AllocError`.
#![tactic(auto)]

mod counting;
mod drawing;
mod ending;
mod fault;
mod giving;
mod hosting;
mod laws;
mod limits;
mod listening;
mod missing_limit;
mod node;
mod pausing;
mod sending;
mod showing;
mod sink;
mod spare;
mod ticking;
mod working;

pub use counting::Counts;
pub use fault::NodeFault;
pub use hosting::{Hosted, NodeEnds, Worker, WorksOn, host, host_with_ends};
pub use laws::without_a_limit_all_is_heard;
pub use node::Node;
pub use sink::PageSink;
pub use srm_wire::{Clock, Fate, Flaky, MemWire, Sent, Wire, WireCounts, WireFault, hub};
pub use working::{WorkEnd, Worked, work};
