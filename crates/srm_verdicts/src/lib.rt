//! `srm audit`: reads the records of a session, judges them, and prints the verdict.
//!
//! ```
//! let status = match read_audit(alloc, arguments) { // of srm_options: the arguments behind `srm audit`
//!     Ok(options) => run_audit(&rt, &options, &mut stdout, &mut stderr),
//!     Err(reply) => print_reply(&reply, &mut stdout, &mut stderr),
//! };
//! ```
//!
//! `srm_audited` judges; this crate has its words and statuses. [`print_audit`] judges records that were read already: its contract says what is printed.
//! [`verdict_text`] returns a verdict in words. [`script_of`] returns an honest run as a script, in the order of [`wall_order`], and [`draw_script`] its picture.
//!
//! **Errors.** [`AuditFault`] has the text and the status of each. A [`NoScript`] says why an honest run is no script.
#![tactic(auto)]

mod counting;
mod detailing;
mod drawing;
mod fault;
mod no_script;
mod ordering;
mod reading;
mod running;
mod scripting;
mod sendings;
mod showing;
mod status;
mod waiting;
mod wording;

pub use drawing::draw_script;
pub use fault::AuditFault;
pub use no_script::{LONGEST_SCRIPT, NoScript};
pub use ordering::{Placed, wall_order};
pub use reading::read_records;
pub use running::{print_audit, run_audit};
pub use scripting::script_of;
pub use status::{NOT_HONEST, UNDECIDED};
pub use wording::verdict_text;
