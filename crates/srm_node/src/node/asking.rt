//! What a node's member is asked. These calls do nothing else.

ghost use Rattle.std.specs.Prelude.{◌≡◌, ◌≤◌, ◌*◌, length, is_some, false, IfOk, IfSome, IsNone, IsOk, OnErr};
ghost use Rattle.srm_names.specs.declared.limits.TheConstants.{DRAWOPS, MEMBERS, PAGES};
ghost use Rattle.srm_names.specs.FullName.{FullName};
ghost use Rattle.srm_codec.specs.Judging.{judge};
ghost use Rattle.srm_timers.specs.Arms.{RunsOutFirst};
ghost use Rattle.srm_entries.specs.Entries.{is_gone, is_held, is_missing, known, missing, released, shown, slots, state};
ghost use Rattle.srm_entries.specs.Outstanding.{missing_in_all, next_missing, AreWaiting, WouldMiss};
ghost use Rattle.srm_entries.specs.Timers.{ask_running, fix_running};
ghost use Rattle.srm_entries.specs.Verdicts.{final, told};
ghost use Rattle.srm_agent.specs.Asking.{IsOutstanding};

use super::Node;
use srm_agent::{Class, Entry, Outstanding};
use srm_names::{Member, Name, Page, Stream};
use srm_timers::Words;
use srm_wire::{Clock, Wire};
use srm_world::Past;
use std::alloc::AllocError;

impl<W: Words + Drop, X: Wire + Drop, C: Clock + Drop, P: Past<Entry> + Drop> Node<W, X, C, P> {
    /// Returns the greatest number of a stream that the member knows to exist, or 0, as [`Agent::known`](srm_agent::Agent::known) does.
    pub fn known(&self, stream: Stream) -> u32
        ensures value { result ≡ known self.now.view.journal.entries stream }
        ensures last { result ≤ DRAWOPS }
    {
        self.recorder.known(stream)
    }

    /// Returns how many drawops of a stream may be released, as [`Agent::released`](srm_agent::Agent::released) does.
    pub fn released(&self, stream: Stream) -> u32
        ensures value { result ≡ length (released self.now.view.journal.entries stream) }
        ensures last { result ≤ DRAWOPS }
    {
        self.recorder.released(stream)
    }

    /// Returns whether the member holds the drawop of a name, as [`Agent::holds`](srm_agent::Agent::holds) does.
    pub fn holds(&self, name: Name) -> bool
        ensures { result ≡ is_held self.now.view.journal.entries name }
    {
        self.recorder.holds(name)
    }

    /// Returns the last number of a stream whose source has left, as [`Agent::final_of`](srm_agent::Agent::final_of) does.
    pub fn final_of(&self, stream: Stream) -> Option<u32>
        ensures value { result ≡ final self.now.view.journal.entries stream }
        ensures last { IfSome result (λ number. number ≤ DRAWOPS) }
    {
        self.recorder.final_of(stream)
    }

    /// Returns whether the member heard the farewell of another one, as [`Agent::has_left`](srm_agent::Agent::has_left) does.
    pub fn has_left(&self, member: Member) -> bool
        ensures { result ≡ is_some (told self.now.view.journal.entries member) }
    {
        self.recorder.has_left(member)
    }

    /// Returns the pages that have page slots, by slot, as [`Agent::pages`](srm_agent::Agent::pages) does.
    pub fn pages(&self) -> &[Page]
        ensures { result.now ≡ slots self.now.view.journal.entries }
    {
        self.recorder.pages()
    }

    /// Returns the page that the member shows, as [`Agent::showing`](srm_agent::Agent::showing) does.
    pub fn showing(&self) -> Page
        ensures { result ≡ shown self.now.view.journal.entries }
    {
        self.recorder.showing()
    }

    /// Returns how many names of a stream are missing, as [`Agent::missing_of`](srm_agent::Agent::missing_of) does.
    pub fn missing_of(&self, stream: Stream) -> u32
        ensures value { result ≡ length (missing self.now.view.journal.entries stream) }
        ensures last { result ≤ DRAWOPS }
    {
        self.recorder.missing_of(stream)
    }

    /// Returns how many names are missing, as [`Agent::missing`](srm_agent::Agent::missing) does.
    pub fn missing(&self) -> u32
        ensures value { result ≡ missing_in_all self.now.view.journal.entries }
        ensures few { result ≤ PAGES * (MEMBERS * DRAWOPS) }
    {
        self.recorder.missing()
    }

    /// Returns the first missing name of a stream above a number, as [`Agent::next_missing`](srm_agent::Agent::next_missing) does.
    pub fn next_missing(&self, stream: Stream, after: u32) -> Option<Name>
        ensures { result ≡ next_missing self.now.view.journal.entries stream after }
    {
        self.recorder.next_missing(stream, after)
    }

    /// Returns how many more names would be missing if the member heard these bytes, as [`Agent::would_miss`](srm_agent::Agent::would_miss) does. Fails only if out of
    /// memory, and only for a datagram of the session, to a member that isn't gone.
    pub fn would_miss(&self, bytes: &[u8]) -> Result<u32, AllocError>
        ensures ok { IfOk result (WouldMiss self.now.view.journal.start.config self.now.view.journal.entries bytes.now) }
        ensures here { OnErr result (is_gone (state self.now.view.journal.entries) ≡ false) }
        ensures spelled { OnErr result (IsOk (judge self.now.view.journal.start.config.session bytes.now)) }
    {
        self.recorder.would_miss(bytes)
    }

    /// Returns when the first request timer expires, in microseconds, as [`Agent::next_request`](srm_agent::Agent::next_request) does.
    pub fn next_request(&self) -> Option<u64>
        ensures first { RunsOutFirst (ask_running self.now.view.journal.entries) result }
        ensures nothing { IsNone result → (n : FullName) → is_missing self.now.view.journal.entries n ≡ false }
    {
        self.recorder.next_request()
    }

    /// Returns when the first repair timer expires, in microseconds, as [`Agent::next_repair`](srm_agent::Agent::next_repair) does.
    pub fn next_repair(&self) -> Option<u64>
        ensures { RunsOutFirst (fix_running self.now.view.journal.entries) result }
    {
        self.recorder.next_repair()
    }

    /// Returns how many datagrams of a class wait to be sent, as [`Agent::waiting`](srm_agent::Agent::waiting) does.
    pub fn waiting(&self, class: Class) -> usize
        ensures { AreWaiting self.now.view.journal.start.config self.now.view.journal.entries class result }
    {
        self.recorder.waiting(class)
    }

    /// Returns what the member misses, when its timers expire, what waits to be sent, and whether it takes part, as
    /// [`Agent::outstanding`](srm_agent::Agent::outstanding) does.
    pub fn outstanding(&self) -> Outstanding
        ensures { IsOutstanding self.now.view.journal.start.config self.now.view.journal.entries result }
    {
        self.recorder.outstanding()
    }
}
