//! What records are.

use srm_names::Member;
use srm_world::Trace;

/// What the records of a session are.
#[derive(Drop)]
pub enum Verdict {
    /// One honest run of all its members: this one.
    Honest(Trace),
    /// No honest run.
    NotHonest(Reason),
    /// A record is missing or cut, and the calls have a possible order: each member heard what was sent before, or what a member without a whole record may have sent.
    Undecided,
}

/// Why records aren't one honest run.
#[derive(Clone, Copy, Debug, PartialEq, Eq)]
pub enum Reason {
    /// The record with this place, from 0, is of no run of a member that began so: its calls, made anew, make another record. This line of it, from 0, is the first that differs.
    Untold { place: usize, line: usize },
    /// The records aren't of members of one roster in one session, or there are two of one member.
    Roster,
    /// The worker of this slot took what its member hadn't given.
    Foreign { member: Member, slot: u8 },
    /// The entry of this member, counted from 0 in its replayed journal, hears a datagram that nobody can have sent before.
    Unsent { member: Member, entry: usize },
}
