//! Checks the journals of all members of a session against each other.
//!
//! Each member's [`Journal`](srm_world::Journal) is a run of it, whatever came to it. No member can know whether the others sent what it
//! heard: [`reconcile`] finds out. It puts the journals together into one honest run of all members, if there is one. What the page
//! workers took of each source was then drawn by it. If it returns [`Mismatch::Unsent`], no honest run has that entry
//! ([`never_reached`]).
//!
//! ```
//! let mut journals = Vec::new(alloc);
//! journals.push(drawer.finish())?;
//! journals.push(viewer.finish())?;
//! let mut gots = Vec::new(alloc);
//! gots.push(Got { member: 1, slot: 0, list: tap_list })?;
//! let trace = reconcile(alloc, journals, gots)?;
//! ```
//!
//! **Errors.** [`Mismatch`] says why journals aren't those of one honest run, or that memory ran out.
#![tactic(auto)]

mod ending;
mod found;
mod got;
mod laws;
mod merge;
mod mismatch;
mod opening;
mod queue;
mod reconciling;
mod roster;
mod spellings;
mod take;

pub use found::gave_first;
pub use got::Got;
pub use laws::never_reached;
pub use mismatch::Mismatch;
pub use reconciling::reconcile;
