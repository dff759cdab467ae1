//! What tells the server's thread that there is something new.

use mio::{Registry, Token, Waker};
use std::io;
use std::sync::atomic::{AtomicBool, Ordering};

/// Ends the wait of the server's thread from another thread.
#[derive(Drop)]
pub struct Bell {
    waker: Waker,
    // Whether it was rung and nobody has looked yet. Further rings cost no call of the system.
    rung: AtomicBool,
}

impl Bell {
    /// Makes a bell that a poll reports as this token. Fails with the system's error if it refuses.
    pub fn new(registry: &Registry, token: Token) -> io::Result<Bell> {
        Ok(Bell {
            waker: Waker::new(registry, token)?,
            rung: AtomicBool::new(false),
        })
    }

    /// Ends the wait under way, or else the next one at its start. It doesn't block and takes no memory.
    pub fn ring(&self) {
        if !self.rung.swap(true, Ordering::SeqCst) {
            let _ = self.waker.wake();
        }
    }

    /// Returns whether it was rung since the last call. Call it before looking for what is new.
    pub fn take(&self) -> bool {
        self.rung.swap(false, Ordering::SeqCst)
    }
}
