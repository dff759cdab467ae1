//! Whether the records of a session may be part of an honest run, if a member has no record or one that ends too early.
//!
//! ```
//! match first_stuck(alloc, told.as_slice())? {
//!     Some((member, entry)) => {}   // no honest run has these records, whatever they lack
//!     None => {}                    // all calls have an order, if members without a whole record sent what others heard
//! }
//! ```
//!
//! A member without a whole record may have done anything after the calls that its record has. So its datagrams count as sent, once all these calls are in order. [`first_stuck`] looks for
//! an order of all calls where each hears nothing, or what was sent or counts as sent before it. If there is none, no continuation of the records has an honest order.
//!
//! What is told of a member is a replay: it does what the member did, with idle ticks and noise in other places. Of a run whose members did what is told, the order goes on from what is
//! told ([`runs_go_on`]). So no such run is honest either ([`refusals_hold`]), and where all that was sent is told, what is told has an honest order by itself ([`orders_are_told`]).
#![tactic(auto)]

mod laws;
mod order;
mod possible;
mod told;

pub use laws::{orders_are_told, refusals_hold, runs_go_on};
pub use possible::first_stuck;
pub use told::{Told, are_complete, are_of_one_session, calls_told, journals_of};
