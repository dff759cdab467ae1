//! What a member's threads note while it runs: which call of its wire failed first, and why its record isn't written any more.

ghost use Rattle.std.specs.Prelude.{◌≡◌, None};
ghost use Rattle.srm_member.specs.Statuses.{IsToldOf};

use crate::fault::MemberFault;
use srm_record::{RecordFailure, Unwritten};
use srm_udp::{FirstFailure, WireFailure};
use std::alloc::Global;
use std::sync::Arc;

/// Where a member's wire notes its first failure; `None` if nobody is to be told of it, or memory ran out for it.
pub type Noting = Option<Arc<FirstFailure, Global>>;

/// Where a member's record notes why nothing more is written to its file; `None` if the member has none.
pub type Keeping = Option<Arc<RecordFailure, Global>>;

/// Where a bound member notes what fails.
#[derive(Drop)]
pub struct Notes {
    /// Its wire.
    pub wire: Noting,
    /// The file of its record.
    pub record: Keeping,
}

/// Returns the call that failed first, or `None` if none did so far, or nothing is known of it.
pub fn noted_call(noting: &Noting) -> Option<WireFailure>
    ensures { noting.now ≡ None → result ≡ None }
{
    match noting {
        Some(noting) => noting.first(),
        None => None,
    }
}

/// Returns why the file of the record lacks something, or `None` if it doesn't so far, there is none, or memory ran out for its path.
pub fn noted_cause(alloc: Global, keeping: &Keeping) -> Option<Unwritten> {
    match keeping {
        Some(failure) => failure.first(alloc),
        None => None,
    }
}

/// Returns the same note for another thread; `None` if out of memory.
pub fn share_keeping(keeping: &Keeping) -> Keeping {
    match keeping {
        Some(failure) => Arc::try_clone(failure).ok(),
        None => None,
    }
}

/// Returns why a run wasn't whole, told with the call that failed if that is noted and the wire failed, and with the path and the cause if the record isn't whole.
pub fn told_with(run: Option<MemberFault>, alloc: Global, notes: &Notes) -> Option<MemberFault>
    ensures { IsToldOf run result }
{
    match run {
        Some(fault) => {
            let fault = fault.with_call(noted_call(&notes.wire));
            Some(fault.with_cause(noted_cause(alloc, &notes.record)))
        }
        None => None,
    }
}

// Returns where the wire notes its first failure, if that is to be told.
pub(crate) fn note_if(is_told: bool, noting: Noting) -> Noting {
    if is_told { noting } else { None }
}
