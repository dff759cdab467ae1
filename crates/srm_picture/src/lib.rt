//! Pictures of sessions as SVG: a lifeline for each member, time downwards, and an arrow for each datagram.
//!
//! ```
//! let picture = Picture::of(alloc, entries, arrivals)?;
//! write_svg(alloc, &mut out, &Subject { members: 2, entries, lines }, &picture)?;
//! ```
//!
//! [`Picture`] says what to draw: arrows, brackets for timers, and local actions, each with the entries that it shows. [`write_svg`]
//! draws it. The caller says by [`Arrival`] which datagram came in an entry, since an entry has the datagram but not its number.
//!
//! A picture has [`Arrow`]s, each from a [`Launch`] to an [`ArrowEnd`]; [`Bracket`]s, each perhaps with a [`BracketEnd`]; and [`LocalAction`]s. Each is at a
//! [`Point`]. The law is [`entries_decide`].
//!
//! **Errors.** [`Picture::of`] and [`escaped`] fail only if out of memory; [`write_svg`] also if the output does.
#![tactic(auto)]

mod action;
mod arrow;
mod arrows;
mod bracket;
mod brackets;
mod drawing;
mod escaping;
mod laws;
mod layout;
mod picture;
mod point;
mod subject;

pub use action::{LocalAction, LocalActionKind};
pub use arrow::{Arrival, Arrow, ArrowEnd, Launch};
pub use bracket::{Bracket, BracketEnd, TimerEnd};
pub use drawing::write_svg;
pub use escaping::escaped;
pub use laws::entries_decide;
pub use picture::Picture;
pub use point::Point;
pub use srm_entries::DatagramKind;
pub use subject::Subject;
