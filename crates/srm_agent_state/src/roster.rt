//! Members by their numbers, and which ranges their types promise.

ghost use Rattle.std.specs.Prelude.{◌≡◌, ◌<◌};
ghost use Rattle.srm_names.specs.declared.limits.TheConstants.{MEMBERS};
ghost use Rattle.srm_codec.specs.Spelling.{is_page};

use srm_names::{Member, Page, Stream};

/// Returns the member with a number below 32.
pub fn member(number: u8) -> Member
    requires { number < MEMBERS }
    ensures { result ≡ number }
{
    Member::new(number).unwrap()
}

/// Tells proofs that a datagram can name this page, as its type promises. It does nothing when it runs, and is public only for proofs of
/// `srm_agent` and `srm_world`.
pub fn page_in_range(page: Page)
    ensures { is_page page }
{
    let _ = page.creator.number();
}

/// Tells proofs that a datagram can name this stream, as its type promises. It does nothing when it runs, and is public only for proofs of
/// `srm_agent`.
pub fn stream_in_range(stream: &Stream)
    ensures source { stream.now.source < MEMBERS }
    ensures page { is_page stream.now.page }
{
    let _ = stream.source.number();
    let page = stream.page;
    page_in_range(page);
}
