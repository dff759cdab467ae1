//! That a replay does what was done.
//!
//! A member's record says what the member was handed, call by call, and nothing of what it did. [`replays`] states that this is enough: a run of a member that began so, by
//! the same random numbers, that is handed what acted and noise between, does what was done. What doesn't act nobody can tell from outside ([`idle_calls_are_unseen`]).
#![tactic(auto)]

mod laws;

pub use laws::{calls_decide, idle_calls_are_unseen, replays};
