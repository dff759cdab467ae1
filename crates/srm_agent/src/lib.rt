//! One member of a session: a state machine that runs the protocol.
//!
//! An [`Agent`] has no clock, socket or thread. Its caller passes in strokes, datagrams and moments, and sends or delivers what the calls
//! return.
//!
//! [`Agent::hear`] returns a [`Heard`], [`Agent::tick`] a [`Ticked`] with an [`Out`] for each datagram. The calls that end in `_noted` return a [`Noted`] with the
//! [`Entry`]. Calls that change nothing tell what the member holds, misses and has to send: [`Agent::outstanding`] returns an [`Outstanding`].
//!
//! ```
//! let config = Config::with(me, members, session, Settings::default())?;
//! let mut agent = Agent::new(alloc, config, Pcg::new(seed), now)?;
//!
//! agent.draw(page, body, now)?;
//! agent.hear(bytes, now)?;
//! let ticked = agent.tick(now)?; // at the moment that `next_due` says
//! for sent in ticked.outs.as_slice() { /* send `sent.bytes` to all other members */ }
//! while let Some(message) = agent.give(slot)? { /* pass it to the page's worker */ }
//! ```
//!
//! The docs of [`Agent`] say in which order to call. `crates/srm_example` is a whole program.
//!
//! **Errors.** A call returns the first [`AgentFault`] that holds; its docs list the faults in order. After an error nothing has changed,
//! the last moment too. What others send is never an error: the agent accepts it, or ignores it with a [`Cause`]. The caller shows that
//! moments are at most 2^48 microseconds and slots below 8.
#![tactic(auto)]

mod agent;
mod heard;
mod noted;
mod outstanding;
mod ticked;

pub use agent::Agent;
pub use heard::Heard;
pub use noted::Noted;
pub use outstanding::Outstanding;
pub use srm_bucket::Class;
pub use srm_entries::{
    AgentFault, AgentState, Arm, ArmKind, CAUSES, Cause, Config, Effects, Entry, Input, Outcome,
    Settings, Verdict, gives, keeps_rate, responds,
};
pub use srm_outbox::Out;
pub use ticked::Ticked;
