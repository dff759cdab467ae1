//! The lines of a record.

ghost use Rattle.std.specs.Prelude.{◌≡◌};
ghost use Rattle.srm_frames.specs.Lines.{is_end};

use bytes::Bytes;
use srm_names::{Page, PageMsg};

/// A call of a member, or what stands behind its calls, and the moment in microseconds that counted.
#[derive(Debug, Drop, PartialEq, Eq)]
pub struct Line {
    /// The moment that counted, in microseconds, at most 2^48.
    pub moment: u64,
    /// The call, or what a page worker took.
    pub call: Call,
}

/// What a member was given, or, behind that, what its page workers took.
#[derive(Debug, Drop, PartialEq, Eq)]
pub enum Call {
    /// A stroke of these bytes was drawn on the page.
    Drew(Page, Bytes),
    /// These bytes came, and were accepted.
    Heard(Bytes),
    /// The caller let the member do what was due, and it did something.
    Ticked,
    /// The page was shown.
    Showed(Page),
    /// The member was asked to leave.
    AskedLeave,
    /// The caller asked for the next message of a page slot, 0 to 7.
    Gave(u8),
    /// The worker of a page slot, 0 to 7, took this.
    Took(u8, PageMsg),
    /// The member ended, and this is all.
    Ended,
}

impl Line {
    /// Returns whether the record ends with this line.
    pub fn is_end(&self) -> bool
        ensures { result ≡ is_end self.now }
    {
        matches!(self.call, Call::Ended)
    }
}
