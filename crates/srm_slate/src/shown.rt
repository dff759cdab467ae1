//! That a record was passed a message.

ghost use Rattle.std.specs.Prelude.{◌≡◌};
ghost use Rattle.srm_slate.specs.Showing.{Passes, ShowsOneMore};

use crate::record::Record;
use srm_names::PageMsg;
use std::marker::Model;
use std::snapshot::Snapshot;

/// A message that a record was passed, and the page slot whose worker took it, for contracts alone. Only [`Record::pass`] makes one.
#[derive(Drop)]
pub struct Shown {
    slot: u8,
    message: Snapshot<PageMsg>,
}

impl Model for Shown {
    ghost use Rattle.srm_slate.specs.declared.taken.Taken.{Taken};

    ghost Value = { Taken };

    ghost view = { λ shown. record { slot = shown.slot; message = shown.message.value } };
}

impl Record {
    /// Adds a message that the worker of a page slot, 0 to 7, took. It can't fail: if out of memory, the record notes that it is lossy, and keeps no later message. Returns that it
    /// was passed this message.
    pub fn pass(&mut self, slot: u8, message: &PageMsg) -> Shown
        ensures passed { result ≡ record { slot = slot; message = message.now } }
        ensures kept { Passes (record { slot = slot; message = message.now }) self.old self.new }
        ensures front { ShowsOneMore (record { slot = slot; message = message.now }) self.old self.new }
    {
        // Out of memory: the record says so itself.
        let _ = self.take(slot, message);
        Shown {
            slot,
            message: Snapshot::of(message),
        }
    }
}
