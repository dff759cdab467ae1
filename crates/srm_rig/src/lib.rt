//! What tests and benchmarks start from: names by plain numbers, bodies, datagrams byte by byte, messages in short, streams that fail,
//! and scripts.
//!
//! A library may not end its process, so what is refused here is answered: a test says `expect`, or makes it again.
#![tactic(auto)]

mod bodies;
pub mod datagrams;
mod failing;
mod names;
mod prefixes;
mod ran;
pub mod scripts;
mod seen;

pub use bodies::{body, repeated};
pub use failing::{Failing, broken, wanting};
pub use names::{name, page};
pub use prefixes::counts_of_prefixes;
pub use ran::Ran;
pub use seen::{Seen, look_at};
