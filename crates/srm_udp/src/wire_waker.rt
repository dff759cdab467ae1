//! What ends the pause of a wire from another thread.

use mio::{Registry, Token, Waker};
use std::io;
use std::sync::atomic::{AtomicBool, Ordering};

/// Ends the pause of a [`UdpWire`](crate::UdpWire) from another thread, so that the node acts at once on what this thread asks.
#[derive(Drop)]
pub struct WireWaker {
    waker: Waker,
    // Whether a wake came that no pause has seen yet. Further ones cost no call of the system.
    woken: AtomicBool,
}

impl WireWaker {
    pub(crate) fn new(registry: &Registry, token: Token) -> io::Result<WireWaker> {
        Ok(WireWaker {
            waker: Waker::new(registry, token)?,
            woken: AtomicBool::new(false),
        })
    }

    /// Ends the pause under way, or else the next one at its start. It never blocks and allocates nothing. If the system refuses, the pause goes on.
    pub fn wake(&self) {
        if !self.woken.swap(true, Ordering::SeqCst) {
            let _ = self.waker.wake();
        }
    }

    // Returns whether a wake came since the last call.
    pub(crate) fn take(&self) -> bool {
        self.woken.swap(false, Ordering::SeqCst)
    }
}
