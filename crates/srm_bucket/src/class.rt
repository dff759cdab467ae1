//! The classes of what a member sends.

/// What an item is for, the highest class first.
#[derive(Clone, Copy, Debug, PartialEq, Eq)]
pub enum Class {
    /// Requests and repairs for the page shown.
    Shown,
    /// New data.
    New,
    /// Requests and repairs for other pages.
    Other,
}
