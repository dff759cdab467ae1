//! Journals: what one member did.

ghost use Rattle.std.specs.Prelude.{◌≡◌};
ghost use Rattle.srm_world.specs.Claims.{IsLawfulJournal};

use crate::past::Past;
use crate::start::Start;
use srm_agent::Entry;
use std::marker::Model;

/// How a member began, and what it did. Only a [`Recorder`](crate::Recorder) makes one. Contracts see it as a record with all entries of
/// the member, also those that [`Forgotten`](crate::Forgotten) didn't store.
#[derive(Debug, Drop)]
pub struct Journal<P: Past<Entry> + Drop = Vec<Entry>> {
    pub(crate) start: Start,
    pub(crate) past: P,
}

impl<P: Past<Entry> + Drop> Model for Journal<P> {
    ghost use Rattle.srm_world.specs.Traces.{Journal as Content, IsJournal};

    ghost Value = { Content };

    ghost view = { λ j. record { start = j.start; entries = P.appended j.past } };

    ghost invariant = { λ j. IsJournal (record { start = j.start; entries = P.appended j.past }) };
}

impl<P: Past<Entry> + Drop> Journal<P> {
    /// Returns how the member began. Takes no memory.
    pub fn start(&self) -> Start
        ensures { result ≡ self.now.start }
    {
        self.start
    }

    /// Takes the journal apart into how the member began, and its entries as they are stored. Takes no memory.
    pub fn into_parts(self) -> (Start, P)
        ensures start { result.0 ≡ self.start }
        ensures entries { P.appended result.1 ≡ self.entries }
    {
        (self.start, self.past)
    }
}

impl Journal {
    /// Returns the entries of the member, oldest first. They are a run of it, whatever came to it, and none is a take. Takes no memory.
    pub fn entries(&self) -> &[Entry]
        ensures value { result.now ≡ self.now.entries }
        ensures lawful { IsLawfulJournal self.now }
    {
        self.past.as_slice()
    }
}
