//! How a message to a page worker is printed.

use srm_names::PageMsg;
use std::fmt;

/// What a page worker was given, in words.
#[derive(Drop)]
pub struct PrintedMessage<'a>(pub &'a PageMsg);

impl fmt::Display for PrintedMessage<'_> {
    fn fmt<W: fmt::Write>(&self, f: &mut fmt::Formatter<W>) -> fmt::Result {
        match self.0 {
            PageMsg::Open(page) => write!(
                f,
                "page {} of member {}",
                page.number,
                page.creator.number()
            ),
            PageMsg::Draw(drawop) => write!(
                f,
                "stroke {} of member {}: {}",
                drawop.name.number(),
                drawop.name.source().number(),
                str::from_utf8(&drawop.body).unwrap_or("no text")
            ),
            PageMsg::Left(member) => write!(f, "member {} left", member.number()),
            PageMsg::Close => write!(f, "the end"),
        }
    }
}
