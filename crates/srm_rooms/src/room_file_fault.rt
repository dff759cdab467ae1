//! Why a room can't be used.

ghost use Rattle.std.specs.Prelude.{◌≡◌, ◌≤◌};
ghost use Rattle.srm_script.specs.declared.status.TheConstants.{RAN_OUT};
ghost use Rattle.srm_rooms.specs.declared.room_file_fault.RoomFileFault.TheVariants.{Memory};
ghost use Rattle.srm_rooms.specs.RoomStatuses.{status_of};

use srm_options::SystemCause;
use srm_room::RoomError;
use srm_script::{FAILED, RAN_OUT, print_fault};
use std::alloc::{AllocError, Global};
use std::io::{ErrorKind, Write};
use thiserror::Error;

/// Why a room can't be used. Its text is the line that standard error gets.
#[derive(Debug, Drop, Error)]
pub enum RoomFileFault {
    /// The file at this path can't be opened or read, for this cause.
    #[error("srm: cannot read room {0}: {cause}: name a file that srm room new or srm room take wrote", cause = SystemCause::of_file(*.1))]
    Unreadable(String, ErrorKind),
    /// The file at this path can't be made or written, for this cause.
    #[error("srm: cannot write room {0}: {cause}: name a file that isn't there yet, in a folder where you may write", cause = SystemCause::of_file(*.1))]
    Unwritten(String, ErrorKind),
    /// What this file has is no UTF-8, or longer than 65,536 bytes.
    #[error("srm: room {0}: that is no text of at most 65536 bytes: write a room as srm room new does")]
    NoText(String),
    /// What this file says is no room, in this line.
    #[error("srm: room {0}, line {1}: {2}")]
    InLine(String, usize, RoomError),
    /// What this file says is no room.
    #[error("srm: room {0}: {1}")]
    NoRoom(String, RoomError),
    /// The room of this file has an address of the other kind in this line.
    #[error("srm: room {0}, line {1}: the address is of another kind than those before: give all members an IPv4 address, or all an IPv6 address")]
    FamilyInLine(String, usize),
    /// The room of this file has addresses of two kinds.
    #[error("srm: room {0}: the addresses are of IPv4 and of IPv6: give all members an address of the same kind")]
    Families(String),
    /// The room of this file has no member that is named so; then come those that it has.
    #[error("srm: room {0} has no member {1}: write --me with one of {2}")]
    Nobody(String, String, String),
    /// The members that a line names make no room.
    #[error("srm: no room is made: {0}")]
    Unfit(RoomError),
    /// The system has no random bytes.
    #[error("srm: the system has no random bytes for a key: try again")]
    Random,
    /// Standard output failed.
    #[error("srm: output")]
    Output,
    /// Out of memory.
    #[error("srm: memory")]
    Memory,
}

impl From<AllocError> for RoomFileFault {
    ghost from_gives = { λ _ gives. gives ≡ Memory };

    fn from(_error: AllocError) -> RoomFileFault {
        RoomFileFault::Memory
    }
}

impl RoomFileFault {
    /// Returns the fault of a file that says no room.
    pub fn of_error(alloc: Global, path: &str, error: RoomError) -> RoomFileFault {
        let Ok(path) = String::from_str(alloc, path) else {
            return RoomFileFault::Memory;
        };
        match (error, error.line()) {
            (RoomError::Memory, _) => RoomFileFault::Memory,
            (error, Some(line)) => RoomFileFault::InLine(path, line, error),
            (error, None) => RoomFileFault::NoRoom(path, error),
        }
    }

    /// Returns the fault of a file that can't be opened or read, for this cause.
    pub fn of_read(alloc: Global, path: &str, cause: ErrorKind) -> RoomFileFault {
        match (cause, String::from_str(alloc, path)) {
            (ErrorKind::OutOfMemory, _) | (_, Err(_)) => RoomFileFault::Memory,
            (cause, Ok(path)) => RoomFileFault::Unreadable(path, cause),
        }
    }

    /// Returns the fault of a file that can't be made or written, for this cause.
    pub fn of_write(alloc: Global, path: &str, cause: ErrorKind) -> RoomFileFault {
        match (cause, String::from_str(alloc, path)) {
            (ErrorKind::OutOfMemory, _) | (_, Err(_)) => RoomFileFault::Memory,
            (cause, Ok(path)) => RoomFileFault::Unwritten(path, cause),
        }
    }

    /// Prints the fault to `err`, as a line, and returns the status that the program ends with: 1, or 4 if memory ran out. An `err` that fails changes nothing.
    pub fn print<E: Write>(&self, err: &mut E) -> u8
        ensures status { result ≡ status_of self.now }
        ensures least { 1 ≤ result }
        ensures greatest { result ≤ RAN_OUT }
    {
        match self {
            RoomFileFault::Memory => print_fault(self, err, RAN_OUT),
            _ => print_fault(self, err, FAILED),
        }
    }
}
