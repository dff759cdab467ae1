//! The rules of the protocol, as definitions over entries, and the laws that follow from them.
//!
//! An *entry* says who called when, with what, and what it did. `specs/` defines what is held, known and missing after a list of
//! entries, which timers run, what may be sent, and so which entry a member may make next. The laws hold of every list that is made so.
//!
//! An [`Entry`] has an [`Input`], a [`Verdict`] and [`Effects`]. A call is refused with an [`AgentFault`]. A datagram is accepted, or ignored with a [`Cause`]: its
//! [`Outcome`]. The laws are [`responds`], [`gives`] and [`keeps_rate`].
//!
//! [`Config`] and [`Settings`] are what a member is made with:
//!
//! ```
//! let config = Config::with(me, members, session, Settings::default())?;
//! let faster = Config::with(me, members, session, Settings { rate: 100_000, ..Settings::default() })?;
//! ```
//!
//! **Errors.** There is no [`Config`] for a setting out of its range, or a member that isn't in the roster.
#![tactic(auto)]

mod cause;
mod config;
mod entry;
mod fault;
mod kind;
mod laws;
mod limits;
mod settings;
mod state;

pub use cause::{CAUSES, Cause, Outcome};
pub use config::Config;
pub use entry::{Effects, Entry, Input, Verdict};
pub use fault::AgentFault;
pub use kind::DatagramKind;
pub use laws::{gives, keeps_rate, responds};
pub use limits::{DEFAULT_DEPTH, DEFAULT_RATE, SECOND, SESSION_SHARE, SHORTEST_INTERVAL};
pub use settings::Settings;
pub use srm_timers::{Arm, ArmKind};
pub use state::AgentState;
