//! Why bytes are no datagram.

ghost use Rattle.std.specs.Prelude.{◌≡◌};
ghost use Rattle.srm_codec.specs.declared.fault.DecodeFault.TheVariants.{Memory};

use std::alloc::AllocError;
use thiserror::Error;

/// Why bytes are no datagram of the session: the first fault, in the order of the fields. Of one field it is first that bytes are
/// missing, then its range, then its source or order. Users see the numbers.
#[derive(Clone, Copy, Debug, PartialEq, Eq, Error)]
pub enum DecodeFault {
    /// A field is not whole.
    #[error("a field is cut short")]
    Short = 1,
    /// The first two bytes aren't `SR`.
    #[error("the bytes begin as no datagram does")]
    Magic,
    /// The version is neither 1 nor 2.
    #[error("an unknown version")]
    Version,
    /// The kind isn't one of this version.
    #[error("an unknown kind")]
    Kind,
    /// The datagram is of another session.
    #[error("another session")]
    Session,
    /// A member isn't below the limit.
    #[error("a member past the limit")]
    Member,
    /// A number, a moment, a delay or a mask isn't in its range.
    #[error("a number out of its range")]
    Number,
    /// A body is longer than the limit, or bytes follow the last field.
    #[error("too many bytes")]
    Length,
    /// A row or an echo doesn't come after the one before it.
    #[error("rows or echoes out of order")]
    Order,
    /// A flag is set that has no meaning.
    #[error("an unknown flag")]
    Flags,
    /// The source of data or of a farewell's row isn't the sender.
    #[error("a source that isn't the sender")]
    Source,
    /// Out of memory for a body, rows or echoes of a valid datagram.
    #[error("out of memory")]
    Memory,
}

impl From<AllocError> for DecodeFault {
    ghost from_gives = { λ _ fault. fault ≡ Memory };

    fn from(_error: AllocError) -> DecodeFault {
        DecodeFault::Memory
    }
}
