//! What a recorder leaves.

ghost use Rattle.std.specs.Prelude.{◌≡◌};
ghost use Rattle.srm_world.specs.Claims.{IsLawfulJournal};

use crate::journal::Journal;
use crate::past::Past;
use crate::start::Start;
use srm_agent::Entry;
use std::marker::Model;

/// How a member began, and its history as it is stored, of a recorder that ended. Only a [`Recorder`](crate::Recorder) makes one. Contracts see the journal, and how the record
/// begins that the history is written to, if it is written to one.
#[derive(Debug, Drop)]
pub struct History<P: Past<Entry> + Drop = Vec<Entry>> {
    pub(crate) start: Start,
    pub(crate) past: P,
}

impl<P: Past<Entry> + Drop> Model for History<P> {
    ghost use Rattle.srm_world.specs.Traces.{IsJournal};
    ghost use Rattle.srm_world.specs.Recorders.{HistoryView, journal_of};

    ghost Value = { HistoryView };

    ghost view = { λ h. record { journal = journal_of h.start (P.appended h.past); begins = P.begins h.past } };

    ghost invariant = { λ h. IsJournal (journal_of h.start (P.appended h.past)) };
}

impl<P: Past<Entry> + Drop> History<P> {
    /// Returns how the member began. Takes no memory.
    pub fn start(&self) -> Start
        ensures { result ≡ self.now.journal.start }
    {
        self.start
    }

    /// Returns the journal. Takes no memory.
    pub fn into_journal(self) -> Journal<P>
        ensures { result ≡ self.journal }
    {
        Journal {
            start: self.start,
            past: self.past,
        }
    }

    /// Takes the history apart into how the member began, and its entries as they are stored. Takes no memory.
    pub fn into_parts(self) -> (Start, P)
        ensures start { result.0 ≡ self.journal.start }
        ensures entries { P.appended result.1 ≡ self.journal.entries }
        ensures begins { P.begins result.1 ≡ self.begins }
    {
        (self.start, self.past)
    }
}

impl History {
    /// Returns the entries of the member, oldest first, as [`Journal::entries`] does. Takes no memory.
    pub fn entries(&self) -> &[Entry]
        ensures value { result.now ≡ self.now.journal.entries }
        ensures lawful { IsLawfulJournal self.now.journal }
    {
        self.past.as_slice()
    }
}
