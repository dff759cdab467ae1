//! The command lines of `srm`.
//!
//! [`read_node`] and [`read_node_on`] return [`NodeOptions`], with the [`GuardOptions`] of the node; [`read_board`] returns [`BoardOptions`]; [`read_audit`] returns
//! [`AuditOptions`], with how an honest session is printed ([`AuditOutput`]); [`read_world`] returns [`WorldOptions`]; [`read_picture`] returns nothing, since
//! `srm picture` has no options.
//!
//! ```
//! match read_node(alloc, arguments) { // the arguments behind `srm node`
//!     Ok(options) => run(options),
//!     Err(reply) => tell(reply),
//! }
//! ```
//!
//! **Errors.** Arguments that aren't a command line of `srm world`, `srm picture`, `srm node`, `srm board` or `srm audit` get a [`Reply`]: the help or the version if
//! they ask for it, what is wrong in them, which host isn't found, or that memory ran out.
#![tactic(auto)]

mod apart;
mod audit;
mod board;
mod guard_options;
mod help;
mod key_source;
mod live_defaults;
mod mistake;
mod names;
mod node;
mod node_options;
mod own_port;
mod path_option;
mod picture;
mod refusing;
mod reply;
mod resolving;
mod room;
mod system_cause;
mod world;

pub use audit::{AuditOptions, AuditOutput, read_audit};
pub use board::{BoardOptions, read_board};
pub use guard_options::{GuardOptions, MOST_MISSING};
pub use key_source::KeySource;
pub use names::{Called, Names, Titled};
pub use node::{read_node, read_node_on};
pub use node_options::NodeOptions;
pub use picture::read_picture;
pub use refusing::{RoomMistake, refuse_board, refuse_node};
pub use reply::{Reply, Text};
pub use room::{RoomCommand, read_room_command};
pub use system_cause::SystemCause;
pub use world::{WorldOptions, read_world};
