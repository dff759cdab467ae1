//! The last message of a page feed.

ghost use Rattle.std.specs.Prelude.{◌≡◌};
ghost use Rattle.srm_names.specs.PageFeeds.{is_close};

use srm_names::PageMsg;

/// Returns whether a message is the close, the last one of a page feed.
pub fn is_close(message: &PageMsg) -> bool
    ensures { result ≡ is_close message.now }
{
    matches!(message, PageMsg::Close)
}
