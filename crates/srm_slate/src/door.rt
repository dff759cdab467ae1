//! The thread that serves the browsers.

use crate::easel::Easel;
use crate::floor::{Floor, Ground};
use crate::guard::Guard;
use crate::serving::Shown;
use crate::slate::Slate;
use std::alloc::Global;
use std::hash::RandomState;
use std::net::{Net, TcpListener};
use std::random::RandomSource;
use std::sync::{Arc, Wait};
use std::thread::{JoinHandle, Threads};
use std::{thread, time};

/// What a server shows of its member, and to whom.
#[derive(Drop)]
pub struct Face {
    /// The number of the member, 0 to 31.
    pub me: u8,
    /// How many members the session has, 1 to 32.
    pub members: u8,
    /// The number of the session.
    pub session: u32,
    /// What the members are called, by their numbers; none if no room names them.
    pub names: Vec<String>,
    /// Whom the server answers.
    pub guard: Guard,
}

/// The thread that serves the browsers.
#[derive(Drop)]
pub struct Door {
    thread: JoinHandle<()>,
}

impl Door {
    /// Waits for the thread. Call [`Slate::end`] first: without it the thread doesn't end. Then it ends once each tab was told all, or a second later.
    pub fn close<R: Threads>(self, rt: &R) {
        self.thread.join(rt);
    }
}

/// Serves a member's slate to the browsers that come to a listener, by one thread. Precondition: the listener doesn't block (`set_nonblocking`), or the thread
/// doesn't end.
///
/// Returns `None` if out of memory, if the thread can't be started, or if the system has no randomness or refuses to poll. No thread runs then.
pub fn open_door<R, K>(
    rt: &R,
    alloc: Global,
    listener: TcpListener,
    face: Face,
    slate: Arc<Slate, Global>,
    easel: K,
) -> Option<Door>
where
    R: Net + time::Clock + Threads + Wait + RandomSource + Copy + Send + Drop + 'static,
    K: Easel + Send + Drop + 'static,
{
    let shown = Shown {
        face,
        run: new_run(rt)?,
        slate,
        easel,
    };
    let keys = RandomState::new(rt).ok()?;
    let ground = Ground::new(rt, alloc, keys, listener, shown).ok()?;
    let own = *rt;
    let thread = thread::spawn(rt, move || serve(&own, ground)).ok()?;
    Some(Door { thread })
}

fn serve<R, K>(rt: &R, ground: Ground<K>)
where
    R: time::Clock + Wait + Copy + Drop,
    K: Easel + Drop,
{
    let began = ground.began();
    let mut floor = Floor::new(rt, ground);
    floor.run(rt, began);
}

// A number that tells a page whether this is another run than the one that it saw.
fn new_run<R: RandomSource>(rt: &R) -> Option<u64> {
    let mut bytes = [0_u8; 8];
    rt.fill_bytes(&mut bytes).ok()?;
    Some(u64::from_be_bytes(bytes))
}
