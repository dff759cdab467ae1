//! What a member holds, knows and shows.

ghost use Rattle.std.specs.Prelude.{◌≡◌, ◌≤◌, ℕ, List, length, IfSome};
ghost use Rattle.srm_names.specs.declared.limits.TheConstants.{DRAWOPS};
ghost use Rattle.srm_entries.specs.Configs.{Config as AConfig};
ghost use Rattle.srm_entries.specs.declared.entry.Entry.{Entry as AnEntry};
ghost use Rattle.srm_entries.specs.Entries.{is_held, known, released, shown, slots};
ghost use Rattle.srm_entries.specs.Verdicts.{final};
ghost use Rattle.srm_agent.specs.Fits.{AgentFits};
ghost use Rattle.srm_agent.specs.SessionMessages.{SaysLeft};

use super::Agent;
use srm_names::{Member, Name, Page, Stream};
use srm_timers::Words;

impl<W: Words + Drop> Agent<W> {
    /// Returns the greatest number of a stream that the member knows to exist, 1 to 65,536, or 0 if it knows of none. Takes no memory and changes nothing.
    pub fn known(&self, stream: Stream) -> u32
        ensures value { (c : AConfig) (made : ℕ) (past : List AnEntry) → AgentFits c made past self.now → result ≡ known past stream }
        ensures last { result ≤ DRAWOPS }
    {
        self.store.known(stream)
    }

    /// Returns how many drawops of a stream may be released: those from number 1 up to the first gap. Takes no memory and changes nothing.
    pub fn released(&self, stream: Stream) -> u32
        ensures value { (c : AConfig) (made : ℕ) (past : List AnEntry) → AgentFits c made past self.now → result ≡ length (released past stream) }
        ensures last { result ≤ DRAWOPS }
    {
        self.store.released(stream)
    }

    /// Returns whether the member holds the drawop of a name. Takes no memory and changes nothing.
    pub fn holds(&self, name: Name) -> bool
        ensures { (c : AConfig) (made : ℕ) (past : List AnEntry) → AgentFits c made past self.now → result ≡ is_held past name }
    {
        self.store.holds(name)
    }

    /// Returns the last number of a stream whose source has left, 0 if it drew nothing there; `None` if the member didn't hear that the source left. Takes no memory
    /// and changes nothing; looks at the rows of one farewell.
    pub fn final_of(&self, stream: Stream) -> Option<u32>
        ensures value { (c : AConfig) (made : ℕ) (past : List AnEntry) → AgentFits c made past self.now → result ≡ final past stream }
        ensures last { IfSome result (λ number. number ≤ DRAWOPS) }
    {
        self.store.final_of(stream)
    }

    /// Returns whether the member heard the farewell of another one. Takes no memory and changes nothing.
    pub fn has_left(&self, member: Member) -> bool
        ensures { SaysLeft self.now member result }
    {
        let stream = Stream {
            source: member,
            page: Page::first(),
        };
        self.store.final_of(stream).is_some()
    }

    /// Returns the pages that have page slots, by slot: at most eight, the first page at first. Takes no memory and changes nothing.
    pub fn pages(&self) -> &[Page]
        ensures { (c : AConfig) (made : ℕ) (past : List AnEntry) → AgentFits c made past self.now → result.now ≡ slots past }
    {
        self.pages.as_slice()
    }

    /// Returns the page that the member shows. Takes no memory and changes nothing.
    pub fn showing(&self) -> Page
        ensures { (c : AConfig) (made : ℕ) (past : List AnEntry) → AgentFits c made past self.now → result ≡ shown past }
    {
        self.showing
    }
}
