//! Messages to a page worker, in short.

use srm_names::PageMsg;

/// What a page worker takes, members by number.
#[derive(Clone, Copy, Debug, PartialEq, Eq)]
pub enum Seen {
    /// The page of a member with a number.
    Open(u8, u16),
    /// A drawop of a member: its number, how many bytes its body has, and the first of them, 0 where there is none.
    Draw(u8, u32, usize, u8),
    Left(u8),
    Close,
    /// Nothing: the lane is at its end.
    End,
}

pub fn look_at(message: &PageMsg) -> Seen {
    match message {
        PageMsg::Open(page) => Seen::Open(page.creator.number(), page.number),
        PageMsg::Draw(drawop) => Seen::Draw(
            drawop.name.source().number(),
            drawop.name.number(),
            drawop.body.len(),
            drawop.body.first().copied().unwrap_or(0),
        ),
        PageMsg::Left(source) => Seen::Left(source.number()),
        PageMsg::Close => Seen::Close,
    }
}
