//! What a page worker is given.

ghost use Rattle.std.specs.Prelude.{◌≡◌, IfOk};

use crate::drawop::Drawop;
use crate::member::Member;
use crate::page::Page;
use std::alloc::AllocError;

/// A message of a page feed: what a page worker gets of one page.
#[derive(Debug, Drop, PartialEq, Eq)]
pub enum PageMsg {
    /// The page. It comes first, once.
    Open(Page),
    /// The next drawop of its source, in order of number.
    Draw(Drawop),
    /// This source left, and all that it drew on the page was given.
    Left(Member),
    /// Nothing more comes.
    Close,
}

impl PageMsg {
    /// Returns an equal message that shares a body's bytes. Fails only if out of memory.
    pub fn copy(&self) -> Result<PageMsg, AllocError>
        ensures { IfOk result (λ copy. copy ≡ self.now) }
    {
        match self {
            PageMsg::Open(page) => Ok(PageMsg::Open(*page)),
            PageMsg::Draw(drawop) => Ok(PageMsg::Draw(drawop.copy()?)),
            PageMsg::Left(member) => Ok(PageMsg::Left(*member)),
            PageMsg::Close => Ok(PageMsg::Close),
        }
    }
}
