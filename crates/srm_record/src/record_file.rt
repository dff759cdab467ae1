//! What writes a record to a file.

ghost use Rattle.std.specs.Prelude.{◌≡◌, ◌<◌, ◌≤◌, List, [], true, false, length};
ghost use Rattle.std.specs.Io.KnownBytes.{Appends};
ghost use Rattle.srm_names.specs.declared.limits.TheConstants.{PAGES};
ghost use Rattle.srm_frames.specs.Beginnings.{beginning_text};
ghost use Rattle.srm_entries.specs.declared.entry.Entry.{Entry as AnEntry};
ghost use Rattle.srm_record.specs.Calls.{last_after};
ghost use Rattle.srm_frames.specs.Lines.{line_text, lines_text};
ghost use Rattle.srm_record.specs.Records.{whole_record};
ghost use Rattle.srm_record.specs.Takes.{lent, take_at, slot_lines, takes_at, end_at};
ghost use Rattle.srm_output.specs.Writing.{AppendsFront};
ghost use Rattle.srm_record.specs.Writing.{HasText, HasRecord, Stays, Adds, GoesOn, Writes, WritesIf, Notes, call_text, sends};

use crate::framing::{put_call, put_end};
use crate::record_failure::RecordFailure;
use crate::telling::last_after;
use srm_entries::Entry;
use srm_frames::{Beginning, beginning_bytes, put_took};
use srm_names::PageMsg;
use srm_output::write_bytes;
use std::alloc::Global;
use std::io;
use std::io::{ErrorKind, Write};
use std::marker::Model;
use std::snapshot::Snapshot;
use std::sync::Arc;

/// Fewer bytes than these wait between calls.
pub const MOST_WAITING: usize = 65_536;

/// So long they wait at most, in microseconds, if another call comes.
const LONGEST_WAIT: u64 = 200_000;

/// A file that a record is written to.
#[derive(Drop)]
pub struct RecordFile<F: Write + Drop> {
    alloc: Global,
    first: Snapshot<F>,
    file: F,
    beginning: Beginning,
    waiting: Vec<u8>,
    // The moment of the last frame, and that at which all was written.
    last: u64,
    written_at: u64,
    failed: bool,
    // Where the first cause is noted, if anywhere.
    failure: Option<Arc<RecordFailure, Global>>,
}

impl<F: Write + Drop> Model for RecordFile<F> {
    ghost use Rattle.srm_record.specs.Writing.{FileView};

    ghost Value = { FileView };

    ghost view = { λ f. record { beginning = f.beginning; first = F.contents f.first.value; now = F.contents f.file; waiting = f.waiting.items; last = f.last; failed = f.failed } };
}

impl<F: Write + Drop> RecordFile<F> {
    /// The file of a member that did nothing yet. It has what the record begins with, unless it failed or there was no memory for that. Why nothing more is written is
    /// noted in `failure`.
    pub fn new(
        alloc: Global,
        file: F,
        beginning: Beginning,
        failure: Option<Arc<RecordFailure, Global>>,
    ) -> RecordFile<F>
        ensures beginning { result.beginning ≡ beginning }
        ensures first { result.first ≡ F.contents file }
        ensures record { HasRecord result [] }
    {
        let mut made = RecordFile::unwritten(alloc, file, beginning, failure);
        made.write();
        made
    }

    // The same while all that the record begins with waits.
    fn unwritten(
        alloc: Global,
        file: F,
        beginning: Beginning,
        failure: Option<Arc<RecordFailure, Global>>,
    ) -> RecordFile<F>
        ensures beginning { result.beginning ≡ beginning }
        ensures first { result.first ≡ F.contents file }
        ensures last { result.last ≡ beginning.made }
        ensures text { HasText result (beginning_text beginning) }
    {
        match beginning_bytes(alloc, &beginning) {
            Ok(waiting) => RecordFile::with(alloc, file, beginning, waiting, false, failure),
            Err(_) => {
                note_in(&failure, &ErrorKind::OutOfMemory.into());
                RecordFile::with(alloc, file, beginning, Vec::new(alloc), true, failure)
            }
        }
    }

    fn with(
        alloc: Global,
        file: F,
        beginning: Beginning,
        waiting: Vec<u8>,
        failed: bool,
        failure: Option<Arc<RecordFailure, Global>>,
    ) -> RecordFile<F>
        ensures { result ≡ record { beginning = beginning; first = F.contents file; now = F.contents file; waiting = waiting.items; last = beginning.made; failed = failed } }
    {
        let first = Snapshot::of(&file);
        let made = beginning.made;
        RecordFile {
            alloc,
            first,
            file,
            beginning,
            waiting,
            last: made,
            written_at: made,
            failed,
            failure,
        }
    }

    /// Notes a call, and writes what waits where the call sends, where much waits, or where it waited for long. Where memory runs out for it, the file counts as
    /// failed.
    pub fn note(&mut self, entry: &Entry)
        ensures { Notes self.old self.new entry.now }
    {
        self.put(entry);
        self.write_if_due(entry);
        self.move_on(entry);
    }

    // The call's moment is the last one in the record, if it has the call.
    fn move_on(&mut self, entry: &Entry)
        ensures { self.new ≡ record self.old { last = last_after self.old.last entry.now } }
    {
        self.last = last_after(self.last, entry);
    }

    #[tactic(auto, using(crate::proofs::Filing::puts_none, crate::proofs::Filing::puts, crate::proofs::Filing::breaks))]
    fn put(&mut self, entry: &Entry)
        ensures { Adds self.old self.new (call_text self.old.beginning.config.session entry.now) }
    {
        if self.failed {
            return;
        }
        let session = self.beginning.config.session();
        match put_call(self.alloc, &mut self.waiting, session, entry) {
            Ok(()) => {}
            Err(_) => self.fail(&ErrorKind::OutOfMemory.into()),
        }
    }

    // Writes what waits where a call sends, where much waits, or where it waited for long.
    #[tactic(auto, using(crate::proofs::Filing::writes_now, crate::proofs::Filing::writes_later))]
    fn write_if_due(&mut self, entry: &Entry)
        ensures { WritesIf self.old self.new entry.now }
    {
        if !self.is_due(entry) {
            return;
        }
        self.written_at = entry.moment;
        self.write();
    }

    fn is_due(&self, entry: &Entry) -> bool
        ensures sends { sends entry.now ≡ true → result ≡ true }
        ensures few { result ≡ false → length self.now.waiting < MOST_WAITING }
    {
        !entry.effects.outs.as_slice().is_empty()
            || self.waiting.len() >= MOST_WAITING
            || entry.moment.saturating_sub(self.written_at) >= LONGEST_WAIT
    }

    /// Writes what waits, unless something failed before.
    #[tactic(auto, using(crate::proofs::Filing::writes_none, crate::proofs::Filing::writes_all, crate::proofs::Filing::writes_front))]
    pub fn write(&mut self)
        ensures { Writes self.old self.new }
    {
        if self.failed {
            return;
        }
        match write_bytes(&mut self.file, self.waiting.as_slice()) {
            Ok(()) => self.waiting.clear(),
            Err(error) => self.fail(&error),
        }
    }

    // Nothing more is written, and it is noted why.
    fn fail(&mut self, error: &io::Error)
        ensures { self.new ≡ record self.old { failed = true } }
    {
        note_in(&self.failure, error);
        self.failed = true;
    }

    /// Returns where it is noted why nothing more is written, if anywhere.
    pub fn share_failure(&self) -> Option<Arc<RecordFailure, Global>> {
        match &self.failure {
            Some(failure) => Arc::try_clone(failure).ok(),
            None => None,
        }
    }

    /// Writes what page workers took, slot by slot, and that this is all. Returns whether the file has all, and the file. Holds little more than 64 KiB of it.
    #[tactic(auto, using(crate::proofs::Ending::ended_whole, crate::proofs::Ending::ended_front))]
    pub fn end(self, taken: &[&[PageMsg]]) -> (bool, F)
        requires { length taken.now ≤ PAGES }
        ensures whole { result.0 ≡ true → (es : List AnEntry) → HasRecord self es → Appends self.first (F.contents result.1) (whole_record self.beginning es (lent taken.now)) }
        ensures front { (es : List AnEntry) → HasRecord self es → AppendsFront self.first (F.contents result.1) (whole_record self.beginning es (lent taken.now)) }
        ensures stays { Stays self.now (F.contents result.1) }
    {
        let mut file = self;
        file.put_takes(taken);
        file.put_end();
        file.write();
        (!file.failed, file.file)
    }

    fn put_takes(&mut self, taken: &[&[PageMsg]])
        requires { length taken.now ≤ PAGES }
        ensures { GoesOn self.old self.new (lines_text (takes_at self.old.last (lent taken.now))) }
    {
        for (slot, list) in taken.iter().enumerate() {
            self.put_slot(slot as u8, list);
        }
    }

    fn put_slot(&mut self, slot: u8, messages: &[PageMsg])
        ensures { GoesOn self.old self.new (lines_text (slot_lines self.old.last slot messages.now)) }
    {
        for message in messages {
            self.put_take(slot, message);
            self.write_if_much();
        }
    }

    #[tactic(auto, using(crate::proofs::Filing::puts_none, crate::proofs::Filing::puts, crate::proofs::Filing::breaks))]
    fn put_take(&mut self, slot: u8, message: &PageMsg)
        ensures { Adds self.old self.new (line_text (take_at self.old.last slot message.now)) }
    {
        if self.failed {
            return;
        }
        match put_took(&mut self.waiting, self.last, slot, message) {
            Ok(()) => {}
            Err(_) => self.fail(&ErrorKind::OutOfMemory.into()),
        }
    }

    #[tactic(auto, using(crate::proofs::Ending::goes_nowhere, crate::proofs::Ending::of_writes))]
    fn write_if_much(&mut self)
        ensures { GoesOn self.old self.new [] }
    {
        if self.waiting.len() >= MOST_WAITING {
            self.write();
        }
    }

    #[tactic(auto, using(crate::proofs::Filing::puts_none, crate::proofs::Filing::puts, crate::proofs::Filing::breaks))]
    fn put_end(&mut self)
        ensures { Adds self.old self.new (line_text (end_at self.old.last)) }
    {
        if self.failed {
            return;
        }
        match put_end(&mut self.waiting, self.last) {
            Ok(()) => {}
            Err(_) => self.fail(&ErrorKind::OutOfMemory.into()),
        }
    }
}

// Notes why nothing more is written, if that is noted anywhere.
fn note_in(failure: &Option<Arc<RecordFailure, Global>>, error: &io::Error) {
    if let Some(failure) = failure {
        failure.note(error);
    }
}
