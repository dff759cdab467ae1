//! A member's record: its calls, written to a file as they are made, and made again from that file.
//!
//! ```
//! // The past of a recorder or a node, whose calls go to a file.
//! let past = Written::new(alloc, Some(file), beginning, Forgotten::new(), None);
//! // Later, from the bytes of the file:
//! let record = read_record(alloc, bytes)?;
//! let replayed = retell(alloc, &record)?;
//! ```
//!
//! A record says what a member was handed, call by call, and what its page workers took. It says nothing of what the member did. [`Written`] writes it: a call that sends is in the file before any of its
//! datagrams leaves. [`retell`] makes the calls again with a [`Recorder`](srm_world::Recorder), and returns the journal if the record is exactly the record of that journal; if it isn't, no
//! run has this record, and [`RetellFault::Untold`] has the first line that differs. [`records_tell`] states that a run with this record did the same. [`srm_frames`] has the bytes.
//!
//! Calls that did nothing are left out: what was refused, ignored or noise, ticks at which nothing was due, and gives that found nothing.
//!
//! If the file fails, [`Written`] goes on without it, notes the cause at once in its [`RecordFailure`], and says so at its end.
#![tactic(auto)]

mod allowance;
mod differing;
mod fault;
mod framing;
mod laws;
mod record_failure;
mod record_file;
mod replaying;
mod taking;
mod telling;
mod written;

pub use allowance::{TIMERS, TIMERS_PER_LINE, timers_allowed};
pub use fault::RetellFault;
pub use laws::records_tell;
pub use record_failure::{RecordFailure, Unwritten};
pub use replaying::{Replayed, retell};
pub use telling::acts;
pub use written::{Ended, Written};
