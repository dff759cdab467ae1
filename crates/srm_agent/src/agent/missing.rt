//! What a member misses, and what it would miss.

ghost use Rattle.std.specs.Prelude.{◌≡◌, ◌≢◌, ◌≤◌, ◌+◌, ℕ, List, length, IfOk, IsOk, OnErr, false, true};
ghost use Rattle.srm_names.specs.declared.limits.TheConstants.{DRAWOPS};
ghost use Rattle.srm_names.specs.Names.{ascending};
ghost use Rattle.srm_codec.specs.declared.format.TheConstants.{LONGEST_LIST};
ghost use Rattle.srm_codec.specs.declared.fault.DecodeFault.TheVariants.{Memory};
ghost use Rattle.srm_codec.specs.Judging.{judge};
ghost use Rattle.srm_codec.specs.Spelling.{IsSpellable, names_in, row_below};
ghost use Rattle.srm_store.specs.Held.{greatest_in};
ghost use Rattle.srm_entries.specs.Configs.{Config as AConfig};
ghost use Rattle.srm_entries.specs.declared.entry.Entry.{Entry as AnEntry};
ghost use Rattle.srm_entries.specs.Entries.{is_gone, missing};
ghost use Rattle.srm_entries.specs.Outstanding.{next_missing};
ghost use Rattle.srm_agent.specs.Fits.{AgentFits};
ghost use Rattle.srm_agent.specs.Asking.{AreUnknownBelow, AreUnknownByRows, MissesInAll, MissesOn, ShowsMissing, WouldMissBy, WouldMissBytes};

use super::Agent;
use srm_agent_state::{greatest_in, member};
use srm_codec::{Datagram, DecodeFault, decode, names_in};
use srm_names::{DRAWOPS, MEMBERS, Name, Page, Stream};
use srm_timers::Words;
use std::alloc::AllocError;

impl<W: Words + Drop> Agent<W> {
    /// Returns how many names of a stream are missing: known to exist and not held. Takes no memory, changes nothing, and costs as much for any number.
    pub fn missing_of(&self, stream: Stream) -> u32
        ensures value { (c : AConfig) (made : ℕ) (past : List AnEntry) → AgentFits c made past self.now → result ≡ length (missing past stream) }
        ensures last { result ≤ DRAWOPS }
    {
        self.store.missing_count(stream)
    }

    /// Returns how many names are missing, over all streams. Takes no memory, changes nothing, and looks at 256 counts at most, and at none where no request timer runs.
    pub fn missing(&self) -> u32
        ensures { MissesInAll self.now result }
    {
        // Each missing name has a request timer, so most members are done here, without a look-up for each stream.
        match self.next_request() {
            Some(_) => self.missing_on_pages(),
            None => 0,
        }
    }

    /// How many names are missing on all pages.
    fn missing_on_pages(&self) -> u32
        ensures { MissesInAll self.now result }
    {
        let pages = self.pages.as_slice();
        let mut count = 0;
        for page in pages {
            count += self.missing_on(page);
        }
        count
    }

    /// How many names are missing on a page.
    fn missing_on(&self, page: &Page) -> u32
        ensures { MissesOn self.now page.now result }
    {
        let mut count = 0;
        for number in 0..MEMBERS {
            count += self.missing_of(Stream {
                source: member(number),
                page: *page,
            });
        }
        count
    }

    /// Returns the first missing name of a stream whose number is above `after`; `None` if there is none. Called with 0 and then with each number that it returned,
    /// it returns all missing names of the stream. Takes no memory and changes nothing; looks at each number up to the one that it returns.
    pub fn next_missing(&self, stream: Stream, after: u32) -> Option<Name>
        ensures { (c : AConfig) (made : ℕ) (past : List AnEntry) → AgentFits c made past self.now → result ≡ next_missing past stream after }
    {
        self.store.next_missing(stream, after)
    }

    /// Returns how many names would become missing if the member heard these bytes now; 0 if it would ignore them. A datagram makes missing the names that it shows to
    /// exist and that the member doesn't know of: up to the number of each row of a session message, up to the last name of a request, and below the drawop that it
    /// brings.
    ///
    /// Changes nothing, and consumes no random number. Fails only if out of memory, and only for a datagram of the session, to a member that isn't gone. Costs decoding
    /// the bytes, and a look at each name in them, however many become missing.
    pub fn would_miss(&self, bytes: &[u8]) -> Result<u32, AllocError>
        ensures ok { IfOk result (WouldMissBytes bytes.now self.now) }
        ensures here { OnErr result (is_gone self.now.state ≡ false) }
        ensures spelled { OnErr result (IsOk (judge self.now.config.session bytes.now)) }
    {
        if self.is_gone() {
            return Ok(0);
        }
        match decode(self.alloc, self.config.session(), bytes) {
            Ok(datagram) => self.would_miss_by(datagram),
            Err(fault) => none_by_noise(fault),
        }
    }

    /// How many names would be missing if a member that isn't gone heard a datagram.
    fn would_miss_by(&self, datagram: Datagram) -> Result<u32, AllocError>
        requires here { is_gone self.now.state ≡ false }
        requires spelled { IsSpellable datagram }
        ensures { IfOk result (WouldMissBy datagram self.now) }
    {
        let names = names_in(self.alloc, &datagram)?;
        let count = self.made_missing(&datagram, &names);
        // By a call, so that the proof has no case for each kind of datagram that goes.
        drop(datagram);
        Ok(count)
    }

    /// How many names a datagram with these names would make missing, for a member that isn't gone.
    fn made_missing(&self, datagram: &Datagram, names: &[Name]) -> u32
        requires here { is_gone self.now.state ≡ false }
        requires spelled { IsSpellable datagram.now }
        requires names { names.now ≡ names_in datagram.now }
        ensures { WouldMissBy datagram.now self.now result }
    {
        match self.cause_to_ignore(datagram, names) {
            Some(_) => 0,
            None => self.shown_missing(datagram, names),
        }
    }

    /// How many names a datagram with these names makes missing if it is accepted.
    fn shown_missing(&self, datagram: &Datagram, names: &[Name]) -> u32
        requires spelled { IsSpellable datagram.now }
        requires names { names.now ≡ names_in datagram.now }
        ensures { ShowsMissing datagram.now self.now result }
    {
        match datagram {
            Datagram::Data(drawop) | Datagram::Repair { drawop, .. } => {
                self.unknown_below(drawop.name.stream(), drawop.name.number())
            }
            Datagram::Request { name, .. } => self.unknown_up_to(name.stream(), names),
            Datagram::Session { .. } => self.unknown_by_rows(names),
        }
    }

    /// How many names of a stream aren't known of, below a number that is at most 65,537.
    fn unknown_below(&self, stream: Stream, below: u32) -> u32
        requires { below ≤ DRAWOPS + 1 }
        ensures { AreUnknownBelow stream below self.now result }
    {
        below.saturating_sub(self.known(stream) + 1)
    }

    /// How many names of a stream aren't known of, up to the greatest of these.
    fn unknown_up_to(&self, stream: Stream, names: &[Name]) -> u32
        ensures { AreUnknownBelow stream (greatest_in names.now stream + 1) self.now result }
    {
        self.unknown_below(stream, greatest_in(names, &stream) + 1)
    }

    /// How many names of the rows' streams aren't known of, up to the numbers of the rows.
    fn unknown_by_rows(&self, rows: &[Name]) -> u32
        requires few { length rows.now ≤ LONGEST_LIST }
        requires rising { ascending row_below rows.now ≡ true }
        ensures { AreUnknownByRows rows.now self.now result }
    {
        let mut count = 0;
        for row in rows {
            count += self.unknown_up_to_row(row);
        }
        count
    }

    /// How many names of a row's stream aren't known of, up to the number of the row.
    fn unknown_up_to_row(&self, row: &Name) -> u32
        ensures { AreUnknownBelow row.now.stream (row.now.number + 1) self.now result }
    {
        self.unknown_below(row.stream(), row.number() + 1)
    }
}

/// No name: noise makes none missing. Fails if memory ran out while the bytes were decoded: then they aren't noise.
fn none_by_noise(fault: DecodeFault) -> Result<u32, AllocError>
    ensures none { IfOk result (λ count. (count ≡ 0) × (fault ≢ Memory)) }
    ensures err { OnErr result (fault ≡ Memory) }
{
    match fault {
        DecodeFault::Memory => Err(AllocError),
        _ => Ok(0),
    }
}
