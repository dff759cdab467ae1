//! The fields of a datagram as bytes.

ghost use Rattle.std.specs.Prelude.{◌≡◌};
ghost use Rattle.srm_codec.specs.Spelling.{head, page_bytes, name_bytes};

use crate::format::{HEAD_BYTES, MAGIC, NAME_BYTES};
use srm_names::{Member, Name, Page};

/// Returns the head of a datagram as bytes.
#[tactic(auto, unfolding(crate::specs::Spelling::head))]
pub fn head_field(version: u8, kind: u8, session: u32, sender: Member) -> [u8; HEAD_BYTES]
    ensures { result ≡ head version kind session sender }
{
    let magic = MAGIC.to_be_bytes();
    let session = session.to_be_bytes();
    [
        magic[0],
        magic[1],
        version,
        kind,
        session[0],
        session[1],
        session[2],
        session[3],
        sender.number(),
    ]
}

/// Returns a page as bytes: its creator, and its number in two.
#[tactic(auto, unfolding(crate::specs::Spelling::page_bytes))]
pub fn page_field(page: Page) -> [u8; 3]
    ensures { result ≡ page_bytes page }
{
    let number = page.number.to_be_bytes();
    [page.creator.number(), number[0], number[1]]
}

/// Returns a name as bytes: its source, its page, and its number in four.
#[tactic(auto, unfolding(crate::specs::Spelling::name_bytes, crate::specs::Spelling::page_bytes))]
pub fn name_field(name: Name) -> [u8; NAME_BYTES]
    ensures { result ≡ name_bytes name }
{
    let page = page_field(name.stream().page);
    let number = name.number().to_be_bytes();
    [
        name.source().number(),
        page[0],
        page[1],
        page[2],
        number[0],
        number[1],
        number[2],
        number[3],
    ]
}
