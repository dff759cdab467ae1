//! What a member in another language joins a room with: the room that a file says, and the seal of its datagrams.
//!
//! [`RoomHandle`] and [`SealHandle`] are memory that C keeps: sixteen bytes each, zeroes at first, that own a [`Room`](srm_room::Room) or a [`Seal`](srm_guard::Seal), or nothing. `srm_ffi`
//! exports the calls on them, and `capi/srm.h` says what C sees.
//!
//! ```
//! let room = read_text(alloc, bytes)?; // what `srm room new` wrote
//! let me = room.member_of(b"ada"); // by name or place
//! let config = config_in(&room, me); // the settings of its agent
//! let mut seal = seal_in(alloc, &room, me, micros_of_the_day)?; // by the room's key
//! seal_datagram(&mut seal, to, datagram, buffer); // for each other member, in place of the datagram alone
//! seal.open(bytes); // what came
//! ```
//!
//! **Errors.** [`read_text`] returns a [`Refusal`], whose text [`explain`] gives. [`seal_by`] and [`seal_in`] return a [`SealFault`].
#![tactic(auto)]

mod buffers;
mod joining;
mod laws;
mod reading;
mod refusal;
mod room_handle;
mod seal_handle;
mod sealing;

pub use buffers::lay_start;
pub use joining::{address_at, config_in, name_at, seal_in};
pub use laws::settings_of_a_room_are_taken;
pub use reading::{LONGEST_TEXT, read_text};
pub use refusal::{Refusal, explain};
pub use room_handle::RoomHandle;
pub use seal_handle::SealHandle;
pub use sealing::{SealFault, Sealed, seal_by, seal_datagram};
