//! A room: what the members of a session have in common, as a file that each of them has.
//!
//! [`Room`] has the number of the session, the key, the members' names and addresses, and settings. [`read_room`] reads one from TOML, [`write_room`] writes it,
//! and what was written reads back as this room. [`Room::new`] makes one.
//!
//! ```
//! let room = read_room(alloc, text)?; // 1 to 32 members with distinct names and distinct addresses
//! let text = write_room(alloc, &room)?; // reads as this room
//! ```
//!
//! **Errors.** A text that is no room gets a [`RoomError`]: its first [`Fault`], with the line where one shows it, or that memory ran out.
#![tactic(auto)]

mod addressing;
mod fault;
mod field;
mod laws;
mod lines;
mod looking;
mod naming;
mod people;
mod placing;
mod reading;
mod reading_settings;
mod room;
mod room_member;
mod room_parts;
mod room_settings;
mod tables;
mod writing;

pub use addressing::is_address;
pub use fault::{Fault, RoomError};
pub use field::{Field, Place};
pub use laws::{reads_back, reads_rooms};
pub use naming::is_name;
pub use reading::read_room;
pub use room::Room;
pub use room_member::RoomMember;
pub use room_settings::RoomSettings;
pub use writing::write_room;
