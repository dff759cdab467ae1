//! Two kinds of sessions.

use crate::session::Session;
use std::alloc::Global;

/// How many turns there are on a page: a stream has at most 65,536 drawops.
const TURNS: u32 = 100_000;

/// All members draw and hear each other. `None` where memory ran out.
pub fn mingled(alloc: Global, members: u8, turns: u32) -> Option<Session> {
    let mut session = Session::new(alloc, members)?;
    for _ in 0..turns {
        session.mingle()?;
    }
    Some(session)
}

/// Members 1 and 0 draw by turns and hear each other; then member 0 draws on the eighth page, and all hear it. `None` where memory ran out, or
/// there are more turns than pages for them.
pub fn talked(alloc: Global, members: u8, turns: u32) -> Option<Session> {
    let mut session = Session::new(alloc, members)?;
    for turn in 0..turns {
        let page = u16::try_from(turn / TURNS).ok()?;
        if turn % 2 == 0 {
            session.talk(1, 0, page)?;
        } else {
            session.talk(0, 1, page)?;
        }
    }
    session.tell_all(0, 7)?;
    Some(session)
}
