//! Why bytes are no record.

ghost use Rattle.std.specs.Prelude.{◌≡◌};
ghost use Rattle.srm_frames.specs.declared.fault.RecordFault.TheVariants.{Memory};

use std::alloc::AllocError;
use thiserror::Error;

/// Why bytes are no record.
#[derive(Clone, Copy, Debug, Drop, PartialEq, Eq, Error)]
pub enum RecordFault {
    /// It doesn't begin as a record does.
    #[error("no record")]
    Magic,
    /// It is of a version that isn't known, or ends before its version.
    #[error("a record of another version")]
    Version,
    /// What it begins with is too short, a setting, the member or the moment of making is out of its range, or the checksum is another.
    #[error("no settings of a member")]
    Settings,
    /// The frame with this number, from 0, has a kind, a moment or a payload that none has, or stands behind the end.
    #[error("frame {0} is none")]
    Frame(usize),
    /// Memory ran out.
    #[error("out of memory")]
    Memory,
}

impl From<AllocError> for RecordFault {
    ghost from_gives = { λ _ fault. fault ≡ Memory };

    fn from(_error: AllocError) -> RecordFault {
        RecordFault::Memory
    }
}
