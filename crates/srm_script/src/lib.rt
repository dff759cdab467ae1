//! Scripts: reads them, plays them in a world, and prints what happens.
//!
//! ```
//! let status = run_script(alloc, &mut stdin, &mut stdout, &mut stderr);
//! ```
//!
//! [`read_script`] reads a script into the settings and events that a world takes, and [`run_event`] plays one event and prints it.
//! `docs/SCRIPTS.md` has the language.
//!
//! [`read_script`] returns a [`Script`], [`read_script_in`] one of a [`Dialect`]. [`EntryPrinter`], [`PrintedTake`] and [`PrintedGone`] print lines. The statuses of
//! the program are [`FAILED`], [`WRONG_USAGE`], [`WIRE_FAILED`] and [`RAN_OUT`]; `srm_live` adds one.
//!
//! **Errors.** A bad line, before any event is played; a script of more than 1,000,000 bytes; input or output that fails; out of memory.
//! [`ScriptFault`] has the text and the status of each.
#![tactic(auto)]

mod fault;
mod input;
mod play;
mod printer;
mod script;
mod status;

pub use fault::{ScriptFault, print_fault};
pub use input::read_input;
pub use play::{print_newest, run_event, run_script, run_script_in};
pub use printer::{EntryPrinter, PrintedGone, PrintedTake};
pub use script::{Dialect, Script, read_script, read_script_in};
pub use status::{FAILED, RAN_OUT, WIRE_FAILED, WRONG_USAGE};
