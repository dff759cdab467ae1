//! How much a tab was told.

/// How much a tab was told: so many messages that the workers took, and so many happenings, each from the first on.
#[derive(Clone, Copy, Debug, PartialEq, Eq)]
pub struct Cursor {
    /// The messages that it was told.
    pub from: usize,
    /// The happenings that it was told.
    pub seen: u64,
}
