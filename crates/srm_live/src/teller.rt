//! Who tells what befalls a member while it runs.

use crate::tally::Tally;
use srm_member::{Keeping, RecordLine, noted_cause};
use srm_names::Member;
use srm_options::Names;
use std::alloc::Global;
use std::sync::Wait;
use std::sync::atomic::AtomicBool;

/// Standard error of a member, whose threads share it.
pub trait Teller {
    /// Tells a line, with its line end.
    fn tell<R: Wait>(&self, rt: &R, line: &str);

    /// Shows what goes on, each second, where there is a place for it.
    fn show<R: Wait>(&self, _rt: &R, _tally: &Tally) {}

    /// Shows it no more.
    fn close<R: Wait>(&self, _rt: &R) {}

    /// Returns the member that it tells of.
    fn me(&self) -> Member;

    /// Returns what the members of the session are called.
    fn names(&self) -> &Names;

    /// Returns the allocator for lines.
    fn alloc(&self) -> Global;

    /// Returns the flag that says whether the member's node has ended.
    fn ended(&self) -> &AtomicBool;
}

/// Tells that the member's record lacks something, with its path and the cause, as soon as that is noted and unless it was told before. Returns whether it was told. If
/// out of memory, it is told later.
pub fn tell_unwritten<R: Wait, T: Teller>(
    rt: &R,
    keeping: &Keeping,
    is_told: bool,
    teller: &T,
) -> bool {
    if is_told {
        return true;
    }
    let Some(cause) = noted_cause(teller.alloc(), keeping) else {
        return false;
    };
    match format!(in teller.alloc(); "{}\n", RecordLine(&cause)) {
        Ok(line) => {
            teller.tell(rt, line.as_str());
            true
        }
        Err(_) => false,
    }
}
