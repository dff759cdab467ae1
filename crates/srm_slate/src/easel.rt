//! What the strokes of a page go to.

ghost use Rattle.std.specs.Prelude.{ℕ, List};
ghost use Rattle.srm_names.specs.declared.page.Page.{Page as APage};
ghost use Rattle.srm_slate.specs.declared.easel.Drawn.{Drawn as WasDrawn};

use bytes::Bytes;
use srm_names::Page;
use std::sync::Wait;

/// What became of a stroke.
#[derive(Clone, Copy, Debug, PartialEq, Eq)]
pub enum Drawn {
    /// The member took it.
    Taken,
    /// Not yet: the member has as many under way as it holds. It can be drawn later.
    Full,
    /// The member draws no more.
    Over,
}

/// The member to whom a board's strokes go. `draws` says what became of a stroke with this page and body: what the easel was before, and is then. So a contract can say how
/// often a stroke was handed over.
pub trait Easel {
    ghost draws: { Self → APage → List ℕ → WasDrawn → Self → Type 0 };

    /// Draws a stroke on a page, with a body of 1,024 bytes at most. Returns what became of it. It doesn't wait: after `Full` the server calls again, with the
    /// same stroke or another tab's, each 4 ms.
    fn draw<R: Wait>(&mut self, rt: &R, page: Page, body: Bytes) -> Drawn
        ensures { draws self.old page body result self.new };

    /// Asks the member to leave once all that it took is drawn. It takes no more strokes.
    fn leave<R: Wait>(&self, rt: &R);
}
