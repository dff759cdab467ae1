//! What is told while a member runs: what changes, and as the title of a terminal's window what goes on.

use crate::desk::Desk;
use crate::dropped::ByCause;
use crate::lost::Lost;
use crate::news::{Told, tell_news};
use crate::remaining::remain;
use crate::tally::Tally;
use crate::teller::{Teller, tell_unwritten};
use srm_member::Keeping;
use srm_wire::{Dropped, Losses};
use std::alloc::Global;
use std::io::Write;
use std::sync::{Arc, Wait};
use std::thread;
use std::thread::{JoinHandle, Threads};
use std::time::{Clock, Duration};

/// How often it looks for what changed, and shows what goes on, in seconds.
const SECONDS: u64 = 1;

/// Starts the thread that tells what changes, on a terminal shows each second what goes on, and tells once why the record that notes it in `keeping` lacks something. The
/// thread returns what it told. Returns `None` if nothing is counted, or no thread can be started.
pub fn start_telling<R, O, E>(
    rt: &R,
    desk: &Arc<Desk<O, E>, Global>,
    keeping: Keeping,
) -> Option<JoinHandle<Told>>
where
    R: Clock + Threads + Wait + Copy + Send + Drop + 'static,
    O: Write + Send + Drop + 'static,
    E: Write + Send + Drop + 'static,
{
    match (desk.share_tally(), Arc::try_clone(desk)) {
        (Some(tally), Ok(desk)) => spawn_telling(rt, tally, keeping, desk),
        _ => None,
    }
}

fn spawn_telling<R, O, E>(
    rt: &R,
    tally: Arc<Tally, Global>,
    keeping: Keeping,
    desk: Arc<Desk<O, E>, Global>,
) -> Option<JoinHandle<Told>>
where
    R: Clock + Threads + Wait + Copy + Send + Drop + 'static,
    O: Write + Send + Drop + 'static,
    E: Write + Send + Drop + 'static,
{
    let own = *rt;
    match thread::spawn(rt, move || {
        let desk: &Desk<O, E> = &desk;
        tell_activity(&own, &tally, &keeping, desk)
    }) {
        Ok(telling) => Some(telling),
        Err(_) => None,
    }
}

/// Tells each second what changed, and shows what goes on, until the node has ended. Returns what was told.
pub fn tell_activity<R: Clock + Wait, T: Teller>(
    rt: &R,
    tally: &Tally,
    keeping: &Keeping,
    teller: &T,
) -> Told {
    let mut told = Told::nothing();
    let mut is_unwritten = false;
    for _ in rt.forever() {
        if !remain(rt, Duration::from_secs(SECONDS), teller.ended()) {
            teller.close(rt);
            return told;
        }
        told = tell_news(rt, tally, told, teller);
        is_unwritten = tell_unwritten(rt, keeping, is_unwritten, teller);
        teller.show(rt, tally);
    }
    unreachable!()
}

/// Waits for the thread that tells what changes, if there is one. Returns what it told.
pub fn told_by<R: Threads>(rt: &R, telling: Option<JoinHandle<Told>>) -> Told {
    match telling {
        Some(telling) => telling.join(rt),
        None => Told::nothing(),
    }
}

/// Tells what was lost on its way out and what was received and dropped, by cause, if anything was. If out of memory, a line is left out.
pub fn tell_wire<R: Wait, T: Teller>(rt: &R, tally: &Tally, teller: &T) {
    let losses = tally.losses();
    if losses != Losses::none() {
        if let Ok(line) = format!(in teller.alloc();
            "srm: lost on the way out: {}\n",
            Lost(losses)
        ) {
            teller.tell(rt, line.as_str());
        }
    }
    let dropped = tally.dropped();
    if dropped != Dropped::none() {
        if let Ok(line) = format!(in teller.alloc(); "srm: dropped: {}\n", ByCause(dropped)) {
            teller.tell(rt, line.as_str());
        }
    }
}
