//! An agent's timers and its progress in each page slot, and how its store and distances change by what it hears.
//!
//! Contracts speak of the entries of the member: the timers are those that the entries set, and a slot's progress is what they gave.
//!
//! [`Timers`] has the timers, [`Progress`] what a page slot gave. [`keep`], [`learn_all`] and [`learn_datagram`] change the store, [`hear_session_message`] the
//! distances. [`page_in_range`] and [`stream_in_range`] are for proofs.
//!
//! It is for `srm_agent`; nothing else needs it.
//!
//! ```
//! let mut timers = Timers::new(alloc, &config);
//! let (asks, fixes) = (timers.asks_that_ran_out(now)?, timers.fixes_that_ran_out(now)?);
//! let arms = timers.tick(&asks, &fixes, distance_table(&distances), now, &mut words)?;
//! ```
//!
//! All times are microseconds. **Errors.** Only calls of [`Timers`] can fail, with `AllocError` if out of memory: no timer has changed then,
//! and no random number was consumed.
#![tactic(auto)]

mod distances;
mod evidence;
mod keeping;
mod progress;
mod roster;
mod session_messages;
mod timers;

pub use distances::distance_table;
pub use evidence::{greatest_in, learn_all};
pub use keeping::keep;
pub use progress::Progress;
pub use roster::{member, page_in_range, stream_in_range};
pub use session_messages::{hear_session_message, learn_datagram};
pub use timers::Timers;
