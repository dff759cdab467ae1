//! What the turn of a connection came to.

/// What the turn of a connection came to.
#[derive(Clone, Copy, Debug, PartialEq, Eq)]
pub enum Went {
    /// It waits until its socket is ready again.
    Waits,
    /// It has more to do.
    GoesOn,
    /// It is gone.
    Ends,
}
