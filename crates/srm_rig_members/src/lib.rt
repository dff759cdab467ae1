//! What tests and benchmarks of several members start from and look at: settings, recorders, journals and what these gave.
//!
//! A library may not end its process, so what is refused here is answered: a test says `expect`, or makes it again.
#![tactic(auto)]

mod journals;
mod messages;
mod recorders;
mod settings;

pub use journals::{count_entries, sizes};
pub use messages::{copies_of, given, given_in, is_heard};
pub use recorders::{finish_all, recorder};
pub use settings::{config, config_at};
