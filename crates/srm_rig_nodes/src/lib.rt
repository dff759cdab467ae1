//! What tests and benchmarks of nodes start from: a node with its taps and producers, clocks, wires and fates, and sinks.
//!
//! A library may not end its process, so what is refused here is answered: a test says `expect`, or makes it again.
#![tactic(auto)]

mod clock;
mod ends;
mod failing_wire;
mod fates;
mod pens;
mod replay;
mod sinks;
mod station;

pub use clock::StepClock;
pub use failing_wire::FailingWire;
pub use fates::lossy_fates;
pub use pens::{end_all, ink, ink_text};
pub use replay::Replay;
pub use sinks::{Plain, plain_sinks};
pub use station::Station;
