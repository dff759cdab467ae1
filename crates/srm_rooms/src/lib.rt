//! The files of rooms: `srm room`, and the options of a line that names a room.
//!
//! ```
//! match node_options(&rt, alloc, &NodeLines(rt), arguments, &mut stderr) { // the arguments behind `srm node`
//!     Ok(options) => run_node(&rt, options, &mut stdin, &mut stdout, &mut stderr),
//!     Err(Unjoined::Reply(reply)) => print_reply(&reply, &mut stdout, &mut stderr),
//!     Err(Unjoined::Room(fault)) => fault.print(&mut stderr),
//! };
//! ```
//!
//! [`run_room`] is `srm room`. [`node_options`], [`board_options`] and [`audit_options`] return the options of a line, with a room or without one: [`room_line`] takes the room out of
//! it, [`Room::member_of`] finds the member, and [`read_node_in`] and [`read_board_in`] have a [`LineReader`] read the words that it stands for.
//!
//! **Errors.** A [`RoomFileFault`] tells the file, the line if there is one, what is wrong and what to do. A file that others may read is told to standard error, and used.
#![tactic(auto)]

mod checking;
mod family;
mod in_room;
mod joining;
mod line_reader;
mod making;
mod own_words;
mod room_file;
mod room_file_fault;
mod room_lines;
mod room_words;
mod running;

pub use in_room::{read_board_in, read_node_in};
pub use joining::{Unjoined, audit_options, board_options, node_options};
pub use line_reader::{BoardLines, LineReader, NodeLines};
pub use room_file_fault::RoomFileFault;
pub use room_lines::{RoomLine, room_line};
pub use running::run_room;
