//! Several members of one session, and what they did.
//!
//! [`World`] applies events to all members, and keeps a [`Trace`]. [`Recorder`] is one member that keeps its [`Journal`]. A run is honest
//! if a member sent each datagram before another accepted it. Two laws hold of every honest run: what page workers take was drawn
//! ([`takes`]), and members at rest have released the same ([`rests`]). [`honest_runs_are_lawful`] says so for all laws at once,
//! whatever made the run.
//!
//! A recorder stores its entries in a [`Past`]: a `Vec`, or [`Forgotten`], which keeps none. A [`Start`] is how a member began.
//!
//! ```
//! let mut world = World::new(alloc, configs, words)?;
//! world.run(&[
//!     Event::Draw { member: 0, now: 10, page, body },
//!     Event::Tick { member: 0, now: 20 },
//!     Event::Deliver { member: 1, now: 30, index: 0 },
//! ])?;
//! let entries = world.trace().entries();
//! ```
//!
//! A program that keeps the journal of its member uses a [`Recorder`] in place of an agent: the calls are the same. One that runs for
//! days makes it with [`Recorder::forgetful`], which stores no entries; contracts see its journal all the same.
//!
//! [`Recorder::turned`] lets the history see the member, as a node does at the end of each turn: a program that shows how a member stands implements [`Past::turned`] and asks
//! the agent. A recorder that ends leaves its [`Journal`], or its [`History`], which says in contracts how its record begins too.
//!
//! **Errors.** A world fails only if out of memory, and is then as after the events before. If a member refuses or ignores an event, the
//! entry says so. An event is skipped if its member, datagram or slot doesn't exist.
#![tactic(auto)]

mod appending;
mod event;
mod fault;
mod forgotten;
mod history;
mod journal;
mod lane;
mod lanes;
mod laws;
mod participant;
mod past;
mod recorder;
mod sent;
mod start;
mod trace;
mod world;

pub use event::Event;
pub use fault::WorldFault;
pub use forgotten::Forgotten;
pub use history::History;
pub use journal::Journal;
pub use laws::{honest_runs_are_lawful, rests, takes};
pub use past::Past;
pub use recorder::Recorder;
pub use start::Start;
pub use trace::Trace;
pub use world::World;
