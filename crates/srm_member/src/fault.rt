//! Why a member isn't run, or not to its end.

ghost use Rattle.std.specs.Prelude.{◌≡◌, ◌≤◌};
ghost use Rattle.std.specs.List.{list_all, list_any};
ghost use Rattle.std.specs.IoError.{error_kind};
ghost use Rattle.srm_names.specs.PageFeeds as spec;
ghost use Rattle.srm_script.specs.declared.fault.ScriptFault.TheVariants.{Memory};
ghost use Rattle.srm_script.specs.declared.status.TheConstants.{RAN_OUT};
ghost use Rattle.srm_member.specs.declared.fault.MemberFault.TheVariants.{Script};
ghost use Rattle.srm_member.specs.Statuses.{fault_of, fault_of_lists, fault_of_live, fault_of_bind, fault_of_binding, fault_of_key, fault_of_record, fault_with_call, fault_with_cause, lacks_memory, status_of_member};
ghost use Rattle.srm_member.specs.TakenText.{has_close};

use crate::fault_line::{FailedCall, RecordLine};
use srm_guarded::KeyFileFault;
use srm_names::PageMsg;
use srm_node::{NodeFault, WorkEnd, Worked};
use srm_options::SystemCause;
use srm_record::Unwritten;
use srm_script::{FAILED, RAN_OUT, ScriptFault, WIRE_FAILED, print_fault};
use srm_udp::WireFailure;
use srm_world::Past;
use std::alloc::{AllocError, Global};
use std::io;
use std::io::{ErrorKind, Write};
use std::net::SocketAddr;
use thiserror::Error;

/// Why a member isn't run, or not to its end. Its text is the line that goes to standard error.
#[derive(Debug, Drop, PartialEq, Eq, Error)]
pub enum MemberFault {
    /// As of a script: a stream fails, the input is refused, or memory ran out.
    #[error("{0}")]
    Script(ScriptFault),
    /// The address can't be bound, the clock can't be read, or a call of the socket failed.
    #[error("srm: wire")]
    Wire,
    /// This address can't be bound, for this cause.
    #[error("srm: cannot bind {0}: {cause}", cause = SystemCause::of_address(*.1))]
    Binding(SocketAddr, ErrorKind),
    /// This call of the socket failed, for the cause that it has.
    #[error("srm: {}", FailedCall(.0))]
    Call(WireFailure),
    /// All turns were spent before the run ended.
    #[error("srm: turns")]
    Turns,
    /// Its key file can't be used.
    #[error("{0}")]
    Key(KeyFileFault),
    /// The file of its record hasn't the whole record.
    #[error("srm: record")]
    Record,
    /// The file of its record, at this path, can't be made, or hasn't the whole record, for this cause.
    #[error("{}", RecordLine(.0))]
    Unrecorded(Unwritten),
}

impl MemberFault {
    /// Returns why a run wasn't whole, by its end and its workers; `None` if it was. Out of memory, a worker's too, comes before all else. Takes no memory.
    pub fn of_run<L: Past<PageMsg> + Drop>(
        end: Result<(), NodeFault>,
        worked: &[Worked<L>],
    ) -> Option<MemberFault>
        ensures { result ≡ fault_of end (list_any lacks_memory worked.now) }
    {
        if any_lacks_memory(worked) {
            return Some(MemberFault::Script(ScriptFault::Memory));
        }
        match end {
            Ok(()) => None,
            Err(NodeFault::Memory) => Some(MemberFault::Script(ScriptFault::Memory)),
            Err(NodeFault::Wire) => Some(MemberFault::Wire),
            Err(NodeFault::Turns) => Some(MemberFault::Turns),
        }
    }

    /// Returns why a run wasn't whole, by its end, its workers and their lists; `None` if it was.
    ///
    /// It is the fault of [`of_run`](MemberFault::of_run), if there is one. Without one each list has its close, since only a worker that is out of memory ends
    /// before: a list without it was cut short, and the fault is out of memory. Goes through the lists once, and takes no memory.
    pub fn of_whole_run(end: Result<(), NodeFault>, worked: &[Worked]) -> Option<MemberFault>
        ensures { result ≡ fault_of_lists (fault_of end (list_any lacks_memory worked.now)) (list_all has_close worked.now) }
    {
        if let Some(fault) = MemberFault::of_run(end, worked) {
            return Some(fault);
        }
        if all_have_close(worked) {
            None
        } else {
            Some(MemberFault::Script(ScriptFault::Memory))
        }
    }

    /// Returns why a live run wasn't whole, by why the node's run wasn't and what befell its streams; `None` if it was. Out of memory comes first, then the node's run. Takes no memory.
    pub fn of_live(run: Option<MemberFault>, noted: Option<ScriptFault>) -> Option<MemberFault>
        ensures { result ≡ fault_of_live run noted }
    {
        if matches!(noted, Some(ScriptFault::Memory)) {
            return Some(MemberFault::Script(ScriptFault::Memory));
        }
        if let Some(fault) = run {
            return Some(fault);
        }
        match noted {
            Some(fault) => Some(MemberFault::Script(fault)),
            None => None,
        }
    }

    /// Returns why a whole run isn't recorded, by whether its file has the whole record, or else memory ran out; `None` if it has. Takes no memory.
    pub fn of_record(recorded: Result<bool, AllocError>) -> Option<MemberFault>
        ensures { result ≡ fault_of_record recorded }
    {
        match recorded {
            Ok(true) => None,
            Ok(false) => Some(MemberFault::Record),
            Err(_) => Some(MemberFault::Script(ScriptFault::Memory)),
        }
    }

    /// Returns the fault with the call that failed, where that is known and the wire failed; any other fault stays. Takes no memory.
    pub fn with_call(self, call: Option<WireFailure>) -> MemberFault
        ensures { result ≡ fault_with_call call self }
    {
        let Some(call) = call else {
            return self;
        };
        match self {
            MemberFault::Wire => MemberFault::Call(call),
            _ => self,
        }
    }

    /// Returns the fault with where the record's file is and what it lacks something for, where that is known and it isn't whole; any other fault stays. Takes no memory.
    pub fn with_cause(self, cause: Option<Unwritten>) -> MemberFault
        ensures { result ≡ fault_with_cause cause self }
    {
        let Some(cause) = cause else {
            return self;
        };
        match self {
            MemberFault::Record => MemberFault::Unrecorded(cause),
            _ => self,
        }
    }

    /// Returns the fault of a record whose file can't be made at this path; out of memory is one by itself.
    pub fn of_opening(alloc: Global, path: &str, error: io::Error) -> MemberFault {
        let cause = error.kind();
        match String::from_str(alloc, path) {
            Ok(path) if cause != ErrorKind::OutOfMemory => {
                MemberFault::Unrecorded(Unwritten { path, cause })
            }
            _ => MemberFault::Script(ScriptFault::Memory),
        }
    }

    /// Prints the fault to `err`, as a line, and returns the status that the program ends with: 1, 3 or 4. An `err` that fails changes nothing.
    pub fn print<E: Write>(&self, err: &mut E) -> u8
        ensures status { result ≡ status_of_member self.now }
        ensures greatest { result ≤ RAN_OUT }
    {
        match self {
            MemberFault::Script(fault) => fault.print(err),
            MemberFault::Wire | MemberFault::Binding(..) | MemberFault::Call(_) => {
                print_fault(self, err, WIRE_FAILED)
            }
            MemberFault::Turns => print_fault(self, err, RAN_OUT),
            MemberFault::Key(_) | MemberFault::Record | MemberFault::Unrecorded(_) => {
                print_fault(self, err, FAILED)
            }
        }
    }

    /// Returns the fault of an address that can't be bound, with its cause; out of memory is one by itself. Takes no memory.
    pub fn of_bind(address: SocketAddr, error: io::Error) -> MemberFault
        ensures { result ≡ fault_of_bind address (error_kind error) }
    {
        match error.kind() {
            ErrorKind::OutOfMemory => MemberFault::of_binding(error),
            cause => MemberFault::Binding(address, cause),
        }
    }

    /// Returns the fault of a socket or a clock that can't be made: out of memory, or else `Wire`. Takes no memory.
    pub fn of_binding(error: io::Error) -> MemberFault
        ensures { result ≡ fault_of_binding (error_kind error) }
    {
        match error.kind() {
            ErrorKind::OutOfMemory => MemberFault::Script(ScriptFault::Memory),
            _ => MemberFault::Wire,
        }
    }
}

impl From<ScriptFault> for MemberFault {
    ghost from_gives = { λ fault gives. gives ≡ Script fault };

    fn from(fault: ScriptFault) -> MemberFault {
        MemberFault::Script(fault)
    }
}

impl From<KeyFileFault> for MemberFault {
    ghost from_gives = { λ fault gives. gives ≡ fault_of_key fault };

    fn from(fault: KeyFileFault) -> MemberFault {
        match fault {
            KeyFileFault::Memory => MemberFault::Script(ScriptFault::Memory),
            _ => MemberFault::Key(fault),
        }
    }
}

impl From<AllocError> for MemberFault {
    ghost from_gives = { λ _ gives. gives ≡ Script Memory };

    fn from(_error: AllocError) -> MemberFault {
        MemberFault::Script(ScriptFault::Memory)
    }
}

// Whether one of these workers ran out of memory.
fn any_lacks_memory<L: Past<PageMsg> + Drop>(worked: &[Worked<L>]) -> bool
    ensures { result ≡ list_any lacks_memory worked.now }
{
    worked.iter().any(ended_for_memory)
}

fn ended_for_memory<L: Past<PageMsg> + Drop>(worked: &Worked<L>) -> bool
    ensures { result ≡ lacks_memory worked.now }
{
    matches!(worked.end, WorkEnd::Memory)
}

// Whether the list of each worker has its close.
fn all_have_close(worked: &[Worked]) -> bool
    ensures { result ≡ list_all has_close worked.now }
{
    worked.iter().all(has_own_close)
}

fn has_own_close(worked: &Worked) -> bool
    ensures { result ≡ has_close worked.now }
{
    worked.list.iter().any(is_close)
}

fn is_close(message: &PageMsg) -> bool
    ensures { result ≡ spec.is_close message.now }
{
    matches!(message, PageMsg::Close)
}
