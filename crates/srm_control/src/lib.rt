//! Commands of another thread to a node about its pages, and their answers.
//!
//! A [`PageControl`] belongs to the thread that commands, [`PageCommands`] to the node. Two lines run between them: one for commands, one for answers. Neither end has to
//! wait for the other, each command gets one answer, and both lines keep their order.
//!
//! A [`PageAnswer`] has the page that is shown, or a [`PageRefusal`]. [`settle_control`] is for contracts.
//!
//! ```
//! let (mut control, mut commands) = page_control(alloc)?;
//! // The thread that commands.
//! control.command(&rt, PageCommand::Begin)?;
//! while let Some(answer) = control.answer(&rt) { /* the page that is shown now, or why nothing changed */ }
//! // The node's thread.
//! if let Some(command) = commands.next(&rt) { commands.answer(&rt, outcome); }
//! ```
//!
//! **Errors.** [`PageControl::command`] refuses a command with [`ControlFault::Full`] while eight answers weren't taken, and with [`ControlFault::Gone`] once the
//! node is gone. A [`PageRefusal`] in an answer says why the node showed no page. [`page_control`] fails only if out of memory; no other call takes memory.
#![tactic(auto)]

mod command;
mod commands;
mod control;
mod limits;
mod line;
mod making;
mod settled;

pub use command::{PageAnswer, PageCommand, PageRefusal};
pub use commands::PageCommands;
pub use control::{ControlFault, PageControl};
pub use limits::COMMANDS;
pub use making::page_control;
pub use settled::settle_control;
