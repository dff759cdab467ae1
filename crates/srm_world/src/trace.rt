//! Traces: what several members did.

ghost use Rattle.std.specs.Prelude.{◌≡◌};

use crate::start::Start;
use srm_agent::Entry;
use std::marker::Model;

/// How the members of one session began, and what they did, in one order. Contracts see it as a record.
#[derive(Debug, Drop)]
pub struct Trace {
    pub(crate) starts: Vec<Start>,
    pub(crate) entries: Vec<Entry>,
}

impl Model for Trace {
    ghost use Rattle.srm_world.specs.Traces.{Trace as Content};

    ghost Value = { Content };

    ghost view = { λ t. record { starts = t.starts.items; entries = t.entries.items } };
}

impl Trace {
    /// Makes a trace of members that began so and did this, in one order. Whether it is a run of them is for the caller to show. Takes no
    /// memory.
    pub fn new(starts: Vec<Start>, entries: Vec<Entry>) -> Trace
        ensures { result ≡ record { starts = starts.items; entries = entries.items } }
    {
        Trace { starts, entries }
    }

    /// Returns how the members began, in order of their numbers. Takes no memory.
    pub fn starts(&self) -> &[Start]
        ensures { result.now ≡ self.now.starts }
    {
        self.starts.as_slice()
    }

    /// Returns the entries of all members, oldest first. Takes no memory.
    pub fn entries(&self) -> &[Entry]
        ensures { result.now ≡ self.now.entries }
    {
        self.entries.as_slice()
    }
}
