//! A member of a session over UDP, as `srm node` runs it.
//!
//! ```
//! let status = match read_node(alloc, arguments) { // the arguments behind `srm node`
//!     Ok(options) => run_node(&rt, options, &mut stdin, &mut stdout, &mut stderr),
//!     Err(reply) => print_reply(&reply, &mut stdout, &mut stderr),
//! };
//! ```
//!
//! The member's node runs in the calling thread, its four producers and eight page workers in one thread each. [`run_node`] reads all of the input before it binds
//! the socket, and prints once all threads have ended. [`deal`], [`send_stroke`] and [`Station`] are its parts, for a program that binds its sockets itself, or that
//! draws strokes as they come.
//!
//! [`run_station`] runs a station and prints. [`Station::run_whole`] returns a [`Ran`], which [`settle_lanes`] and [`join_pens`] compare for contracts. [`host_if`]
//! runs a node with the caller's sinks. [`wake`] ends a pause by a [`Waking`].
//!
//! A member with a record makes its file by [`open_record`], begins it by [`beginning_of`], and ends it by [`end_record`].
//!
//! **Errors**, in this order: a wrong command line; a key file that can't be used; an input that fails, is too long or has a line that is; a record whose file can't be
//! made; an address that can't be bound; what ends a run; and a record that isn't whole. [`MemberFault`] has the text and the status of each. A bound member's [`Notes`] have which call of its wire failed and why its record lacks something; [`told_with`] tells a run's fault with them.
#![tactic(auto)]

mod dealing;
mod fault;
mod fault_line;
mod joining;
mod noting;
mod pens;
mod printing;
mod recording;
mod replying;
mod running;
mod sink;
mod station;

pub use dealing::deal;
pub use fault::MemberFault;
pub use fault_line::{Explained, RecordLine};
pub use joining::{join_pens, settle_lanes};
pub use noting::{Keeping, Notes, Noting, noted_call, noted_cause, share_keeping, told_with};
pub use pens::{Waking, send_stroke, share_waker, wake};
pub use recording::{Recorded, beginning_of, end_record, open_record};
pub use replying::print_reply;
pub use running::{run_node, run_station};
pub use station::{Ran, Station, host_if};
