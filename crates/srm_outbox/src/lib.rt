//! The requests and repairs that a tick makes, and what of them the bucket lets go.
//!
//! Names to request are packed into requests, and each held name to repair becomes a repair. Each datagram is spelled, handed in with
//! its class, and waits until the bucket lets it go.
//!
//! Only `srm_agent` calls it. It exports [`Out`], and other crates' contracts cite the definitions.
//!
//! ```
//! let answers = requests_and_repairs(alloc, me, &store, &asks, &fixes)?;
//! let answers = spelled(alloc, me, session, &showing, answers)?;
//! bucket.room(answers.len())?;
//! hand_in(&mut bucket, answers);
//! let went = let_go(&mut bucket, now, Went::with_room(alloc, room)?);
//! ```
//!
//! **Errors.** Calls fail only if out of memory, with `AllocError`. [`hand_in`], [`let_go`] and [`let_time_pass`] can't fail: room is made
//! before.
#![tactic(auto)]

mod due_items;
mod out;
mod outbox;
mod packing;

pub use due_items::{DueItem, requests_and_repairs, spelled};
pub use out::{Out, Outgoing};
pub use outbox::{Went, hand_in, let_go, let_time_pass};
