//! What there is to show, which the member's threads write and that of the server reads.

ghost use Rattle.std.specs.Prelude.{◌≡◌};

use crate::bell::Bell;
use crate::record::Record;
use crate::shown::Shown;
use srm_names::PageMsg;
use std::alloc::Global;
use std::sync::atomic::{AtomicBool, Ordering};
use std::sync::{Mutex, MutexGuard, OnceLock, Wait};

/// A [`Record`] under a lock, and the bell of the server that shows it.
#[derive(Drop)]
pub struct Slate {
    record: Mutex<Record>,
    bell: OnceLock<Bell>,
    has_ended: AtomicBool,
}

impl Slate {
    /// Makes a slate of nothing. Takes no memory.
    pub fn new(alloc: Global) -> Slate {
        Slate {
            record: Mutex::new(Record::new(alloc)),
            bell: OnceLock::new(),
            has_ended: AtomicBool::new(false),
        }
    }

    /// Locks what there is to show. A caller that adds what befell the member drops the lock and then calls [`tell`](Slate::tell). Counts and what is missing need no
    /// call: tabs are told them twice a second.
    pub fn lock<'a, R: Wait>(&'a self, rt: &R) -> MutexGuard<'a, Record> {
        self.record.lock(rt)
    }

    /// Has the server tell the tabs what is new.
    pub fn tell(&self) {
        if let Some(bell) = self.bell.get() {
            bell.ring();
        }
    }

    /// Rings this bell from now on. Returns whether it is the first.
    pub(crate) fn hang<R: Wait>(&self, rt: &R, bell: Bell) -> bool {
        self.bell.set(rt, bell).is_ok()
    }

    /// Returns whether its bell was rung since the last call.
    pub(crate) fn was_told(&self) -> bool {
        self.bell.get().is_some_and(|bell| bell.take())
    }

    /// Adds a message that the worker of a page slot, 0 to 7, took, and has the tabs told. It can't fail: if out of memory, the record notes that it is
    /// lossy, and keeps no later message. Returns that it was passed this message.
    pub fn take<R: Wait>(&self, rt: &R, slot: u8, message: &PageMsg) -> Shown
        ensures { result ≡ record { slot = slot; message = message.now } }
    {
        let shown = self.lock(rt).pass(slot, message);
        self.tell();
        shown
    }

    /// Notes that the member's run has ended, and has the tabs told.
    pub fn end<R: Wait>(&self, rt: &R) {
        self.lock(rt).end();
        self.has_ended.store(true, Ordering::SeqCst);
        self.tell();
    }

    /// Returns whether the member's run has ended.
    pub fn has_ended(&self) -> bool {
        self.has_ended.load(Ordering::SeqCst)
    }

    /// Returns the flag that is set once the member's run has ended.
    pub fn ended(&self) -> &AtomicBool {
        &self.has_ended
    }
}
