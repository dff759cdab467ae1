//! What a board tells on standard error.

use crate::board_desk::BoardDesk;
use srm_live::{Tally, Teller, Told, tell_activity};
use srm_member::Keeping;
use std::alloc::Global;
use std::io::Write;
use std::sync::{Arc, Wait};
use std::thread;
use std::thread::{JoinHandle, Threads};
use std::time::Clock;

/// Tells where the page is. If standard error fails nobody is told, and the member runs all the same.
pub fn tell_address<R: Wait, E: Write>(rt: &R, address: &str, desk: &BoardDesk<E>) {
    if let Ok(line) = format!(in desk.alloc(); "srm: draw at {address}\n") {
        desk.tell(rt, line.as_str());
    }
}

/// Starts the thread that tells what befalls the member, once each: that it was in the session before, what tells that members are set differently or that nobody reaches this one, why its
/// first datagrams are dropped, and why the record that notes it in `keeping` lacks something. The thread ends with the member's node, and returns what it told. Returns `None` if out of memory, or if no thread can be started.
pub fn start_telling<R, E>(
    rt: &R,
    tally: &Arc<Tally, Global>,
    keeping: Keeping,
    desk: &Arc<BoardDesk<E>, Global>,
) -> Option<JoinHandle<Told>>
where
    R: Clock + Threads + Wait + Copy + Send + Drop + 'static,
    E: Write + Send + Drop + 'static,
{
    let own = *rt;
    let tally = Arc::try_clone(tally).ok()?;
    let desk = Arc::try_clone(desk).ok()?;
    thread::spawn(rt, move || {
        let desk: &BoardDesk<E> = &desk;
        tell_activity(&own, &tally, &keeping, desk)
    })
    .ok()
}
