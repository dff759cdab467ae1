//! Commands about pages, and their answers.

use srm_names::Page;
use thiserror::Error;

/// A command to a node about its pages.
#[derive(Clone, Copy, Debug, PartialEq, Eq)]
pub enum PageCommand {
    /// Shows a page, which takes a page slot if it has none.
    Show(Page),
    /// Begins the member's next page, and shows it.
    Begin,
}

/// Why a command showed no page. The page shown before is still shown.
#[derive(Clone, Copy, Debug, PartialEq, Eq, Error)]
pub enum PageRefusal {
    /// The member has left.
    #[error("the member has left")]
    Gone = 1,
    /// The page has no page slot, and none is free.
    #[error("the table has no slot for another page")]
    NoSlot = 2,
    /// No page slot is free, or the member has no number left for a page.
    #[error("there is no slot or no number for a new page")]
    NoNewPage = 3,
}

/// The answer to a command: the page that is shown from then on, or why nothing changed.
#[derive(Clone, Copy, Debug, PartialEq, Eq)]
pub struct PageAnswer {
    /// The command that it answers.
    pub command: PageCommand,
    /// The page that is shown from then on, or why the command showed none.
    pub outcome: Result<Page, PageRefusal>,
}
