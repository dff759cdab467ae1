//! A member on whose board one draws in a browser, as `srm board` runs it.
//!
//! ```
//! let input = PolledInput::new(&rt, alloc, rt.stdin(), STDIN);
//! let status = run_board(&rt, options, Some(input), rt.stderr());
//! ```
//!
//! The member's node runs in the calling thread, its eight page workers and the server of its board in threads beside it. What the workers take goes to a
//! [`Slate`](srm_slate::Slate), which browsers are shown. What is drawn in browsers goes to one producer, which all of them share.
//!
//! **Errors**, in this order: a key file that can't be used, an HTTP address that can't be bound, a record whose file can't be made, the member's own address that can't be bound, what ends a run, and
//! a record that isn't whole. [`BoardFault`] has the text and the status of each. A member that was in the session before, under the same number, is told so once, goes on, and ends
//! with the status [`WAS_BEFORE`](srm_live::WAS_BEFORE).
#![tactic(auto)]

mod binding;
mod board_desk;
mod board_fault;
mod boarding;
mod first_missing;
mod host_names;
mod hosting;
mod inkwell;
mod leaving;
mod place;
mod preparing;
mod serving;
mod slate_sink;
mod telling;
mod turning;
mod watching;

pub use board_fault::BoardFault;
pub use boarding::run_board;
pub use place::Place;
