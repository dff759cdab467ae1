//! One-way distances to the members of a session, and the echoes that are owed to them.
//!
//! A member sends a session message at `t1` by its clock. Another one's next session message has an echo: `t1`, and the time since
//! it heard that message. Half of the round trip less that time is the distance.
//!
//! Contracts speak of the calls so far: a value *fits* a list of calls if all that it keeps is what the definitions in `specs/` say
//! of that list. It keeps no history.
//!
//! ```
//! let mut distances = Distances::new(me);
//! // A session message of another, sent at 7 by its clock, with an echo: ours of 1,000, which it had for 200.
//! distances.heard_session(other, 7, Some((1_000, 200)), 5_200);
//! assert_eq!(distances.distance(other), 2_000);
//! ```
//!
//! All times are microseconds. **Errors**: only [`Distances::echoes`] can fail, if out of memory. An echo of a moment after the
//! present doesn't count.
#![tactic(auto)]

mod distances;
mod heard_message;
mod limits;
mod peer;
mod returned;

pub use distances::Distances;
pub use limits::{FIRST_DISTANCE, SHORTEST_DISTANCE};
