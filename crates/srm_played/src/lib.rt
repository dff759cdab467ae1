//! Plays scripts, and makes their pictures.
//!
//! ```
//! let played = play(alloc, read_script(alloc, text)?)?;
//! write_svg(alloc, &mut out, &played.subject(), &played.picture(alloc)?)?;
//! ```
//!
//! [`play`] plays a script to its end and keeps which datagram came in which entry, so that `srm_picture` can draw it. [`run_picture`] is
//! the whole of `srm picture`, over any streams.
//!
//! **Errors.** Those of `srm_script`, and a script of more than [`MOST_EVENTS`] events. [`PictureFault`] has the text and the status of
//! each.
#![tactic(auto)]

mod fault;
mod hearing;
mod limits;
mod played;
mod run;

pub use fault::PictureFault;
pub use limits::MOST_EVENTS;
pub use played::{Played, play};
pub use run::run_picture;
