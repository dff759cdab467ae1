//! Request timers ([`Asks`]) and repair timers ([`Fixes`]), suppressed by what is heard.
//!
//! A timer that was set is an [`Arm`]. [`Pcg`] is the generator of a member, [`Listed`] one for scripts and tests.
//!
//! Contracts speak of the calls so far: timers *fit* a list of calls, each with the timers that it set, if all that they keep is what
//! the definitions in `specs/` say of this list. They keep no history.
//!
//! ```
//! let mut asks = Asks::new(alloc, Tree::new(alloc), 2, 2);
//! let arms = asks.detect(&missing, &[], &distances, now, &mut words)?; // each name waits for 2 to 4 distances
//! let again = asks.heard_request(name, &distances, now, &mut words); // another asked: this member needn't
//! asks.gained(name);
//! let names = asks.pending(later, Vec::new(alloc))?; // what has expired, to be requested
//! ```
//!
//! [`Fixes`] does so with repairs. All times are microseconds. Each timer that is set consumes one random number of 64 bits
//! ([`Words`]). **Errors**: calls fail only if out of memory, with `AllocError`, before any random number is consumed; after `room` for
//! its names a call succeeds.
#![tactic(auto)]

mod arm;
mod asks;
mod distance;
mod expiries;
mod fixes;
mod limits;
mod listed;
mod marks;
mod pcg;
mod timers;
mod wait;
mod words;

pub use arm::{Arm, ArmKind, Armed};
pub use asks::Asks;
pub use fixes::Fixes;
pub use limits::{GREATEST_EXPONENT, GREATEST_TIMER_SETTING, LONGEST_WAIT};
pub use listed::Listed;
pub use pcg::Pcg;
pub use srm_deadlines::{Deadlines, NamedValue, Ordered, Scanned, Timed, Tree, put_names};
pub use words::{Words, wait_between};
