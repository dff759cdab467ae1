//! Streams.

use crate::member::Member;
use crate::page::Page;

/// The drawops of one source on one page.
#[derive(Clone, Copy, Debug, PartialEq, Eq, PartialOrd, Ord, Hash)]
pub struct Stream {
    /// The member that draws.
    pub source: Member,
    /// The page that it draws on.
    pub page: Page,
}
