//! The records of a session, judged: whether they are one honest run.
//!
//! ```
//! let mut records = Vec::new(alloc);
//! records.push(read_record(alloc, bytes)?)?;
//! match audit(alloc, records.as_slice())? {
//!     Verdict::Honest(trace) => {}        // the run, all of it
//!     Verdict::NotHonest(reason) => {}    // no honest run has these records
//!     Verdict::Undecided => {}            // a record is missing or cut, and the calls have a possible order
//! }
//! ```
//!
//! Contracts pin each verdict. An honest one has the run, which is lawful and honest. One that isn't honest names a record that no run of its member has and the first line of it that differs, a list that isn't what its
//! member gave, or an entry that hears what nobody can have sent, whatever stands behind the cuts of records and in those that are missing. `Undecided` comes only where a record is
//! missing or cut, and the records as they are aren't one honest run. Then all calls have a possible order: each hears what was sent, or what such a member may have sent.
//!
//! **Errors.** [`Unjudged`]: out of memory, or a record whose calls set more timers than one of its length may. So what hostile records cost is bounded by their length.
//!
//! Two laws say what verdicts tell of the runs whose members wrote the records. Where they aren't honest, there is no such honest run ([`refusals_hold`]). Where all members of an honest
//! run wrote them, whole or cut behind the last datagram that the member sent, they are ([`honest_runs_are_found`]).
//!
//! Two more laws lead from the bytes of files to such records. What a member writes is read as a record of what it did, also where its file ends early, anywhere behind its beginning
//! ([`what_is_written_is_read`]). The law on refusals needs no condition on what such files lack. The law on honest runs needs one: what a file lacks stands behind the last call that sends
//! ([`files_tell`]).
#![tactic(auto)]

mod auditing;
mod gathering;
mod giving;
mod laws;
mod unjudged;
mod verdict;

pub use auditing::audit;
pub use laws::{files_tell, honest_runs_are_found, refusals_hold, what_is_written_is_read};
pub use unjudged::Unjudged;
pub use verdict::{Reason, Verdict};
