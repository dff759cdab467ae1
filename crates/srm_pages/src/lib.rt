//! What the threads of a node share: lanes, the board and the stroke queue.
//!
//! A *lane* brings the page feed of one page slot to its worker, from a [`Feed`] to a [`Tap`]. The *board* shows feeds and [`Viewer`]s how
//! far each worker is. The *stroke queue* ([`ends::Well`]) brings the strokes of the local producers ([`Pen`]) to the node. None has a lock
//! that a caller could hold. Each end belongs to one thread. Contracts see in it the lists of what passed, as far as this thread knows; at run
//! time there are no such lists.
//!
//! [`Pen::done`] returns an [`Inked`], which [`ends::Well::join_pen`] compares with what was received; [`settle`] compares the two ends of a lane. The laws are
//! [`lane_keeps_its_rule`], [`board_keeps_its_rule`] and [`well_keeps_its_rule`].
//!
//! [`lanes`] and [`well`] make the ends. The types [`ends::Lanes`] and [`ends::Well`] stand in a module apart, since two names that differ
//! only in case can't stand side by side.
//!
//! ```
//! let ends = lanes(alloc, 1)?; // a feed and a tap for each slot, and one viewer
//! // The node's thread, with a feed: ask for credit, then put.
//! if feed.credit() > 0 { feed.put(&rt, message)?; }
//! // The worker's thread, with a tap.
//! while let Ok(message) = tap.take(&rt) { /* draw it */ }
//! ```
//!
//! **Errors.** [`Feed::put`] returns a message if the worker is gone, and [`Pen::stroke`] a stroke if the queue is full. [`Tap::take`] ends
//! with [`Ended::Closed`]. [`lanes`] and [`well`] fail only if out of memory; no other call can fail for that. A take waits for the next
//! message; no contract says how long.
#![tactic(auto)]

mod board;
mod closing;
mod dealer;
pub mod ends;
mod feed;
mod ink;
mod lane;
mod laws;
mod lookout;
mod making;
mod marker;
mod pen;
mod settled;
mod stroke;
mod tap;
mod viewer;

pub use closing::is_close;
pub use feed::Feed;
pub use laws::{board_keeps_its_rule, lane_keeps_its_rule, well_keeps_its_rule};
pub use making::{lanes, well};
pub use pen::{Inked, Pen};
pub use settled::{Settled, settle};
pub use stroke::Stroke;
pub use tap::{Ended, Tap};
pub use viewer::Viewer;
