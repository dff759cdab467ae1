//! Whether a datagram is accepted.

ghost use Rattle.std.specs.Prelude.{◌≡◌, ◌||◌, ◌&&◌, ◌==◌, nat_lt, nat_le, ℕ, List, [], ◌∷◌, Some, None, false};
ghost use Rattle.std.specs.List.{list_any};
ghost use Rattle.srm_codec.specs.Spelling.{sender_of, names_in};
ghost use Rattle.srm_store.specs.Finals.{row_number};
ghost use Rattle.srm_entries.specs.Configs.{Config as AConfig};
ghost use Rattle.srm_entries.specs.declared.entry.Entry.{Entry as AnEntry};
ghost use Rattle.srm_entries.specs.declared.entry.Input.TheVariants.{Heard};
ghost use Rattle.srm_entries.specs.declared.entry.Verdict.TheVariants.{Ignored};
ghost use Rattle.srm_entries.specs.Causes.{ignored_for};
ghost use Rattle.srm_entries.specs.Entries.{is_gone, slots, known, held_at, drawops_in};
ghost use Rattle.srm_names.specs.Names.{stream_on};
ghost use Rattle.srm_entries.specs.Verdicts.{verdict_of, first_cause, is_stranger, is_beyond, exceeds, says_too_little, final, drawn_in, differs};
ghost use Rattle.srm_store.specs.PageTables.{table_lacks_room_for};
ghost use Rattle.srm_agent.specs.Fits.{AgentFits};

use super::Agent;
use srm_codec::Datagram;
use srm_entries::Cause;
use srm_names::{Drawop, Member, Name, Stream};
use srm_store::{row_number, same_drawop};
use srm_timers::Words;

/// Which causes to ignore a datagram hold.
#[derive(Clone, Copy)]
struct Findings {
    own: bool,
    stranger: bool,
    full: bool,
    beyond: bool,
    conflicting: bool,
}

impl Findings {
    /// The first cause that holds.
    fn cause(self) -> Option<Cause>
        ensures first { ignored_for result ≡ first_cause ((self.own, Ignored Cause.Own) ∷ (self.stranger, Ignored Cause.Stranger) ∷ (self.full, Ignored Cause.PageLimit) ∷ (self.beyond, Ignored Cause.BeyondFinal) ∷ (self.conflicting, Ignored Cause.Conflict) ∷ []) }
        ensures room { result ≡ None → self.full ≡ false }
    {
        if self.own {
            Some(Cause::Own)
        } else if self.stranger {
            Some(Cause::Stranger)
        } else if self.full {
            Some(Cause::PageLimit)
        } else if self.beyond {
            Some(Cause::BeyondFinal)
        } else if self.conflicting {
            Some(Cause::Conflict)
        } else {
            None
        }
    }
}

impl<W: Words + Drop> Agent<W> {
    /// The first cause to ignore a datagram with these names, for a member that isn't gone; `None` if it accepts the datagram.
    pub(super) fn cause_to_ignore(&self, datagram: &Datagram, names: &[Name]) -> Option<Cause>
        requires here { is_gone self.now.state ≡ false }
        requires names { names.now ≡ names_in datagram.now }
        ensures verdict { (c : AConfig) (made : ℕ) (past : List AnEntry) → AgentFits c made past self.now → ignored_for result ≡ verdict_of c past (Heard datagram.now) }
        ensures room { result ≡ None → table_lacks_room_for self.now.pages names.now ≡ false }
    {
        let findings = Findings {
            own: self.is_own(datagram),
            stranger: self.is_stranger(datagram, names),
            full: self.pages.lacks_room_for(names),
            beyond: self.is_beyond_final(datagram, names),
            conflicting: self.conflicts(datagram),
        };
        findings.cause()
    }

    fn is_own(&self, datagram: &Datagram) -> bool
        ensures { result ≡ (sender_of datagram.now == self.now.config.me) }
    {
        datagram.sender() == self.config.me()
    }

    /// Whether the sender or a source of the names isn't in the roster.
    fn is_stranger(&self, datagram: &Datagram, names: &[Name]) -> bool
        requires { names.now ≡ names_in datagram.now }
        ensures { result ≡ is_stranger self.now.config datagram.now }
    {
        let members = self.config.members();
        members <= datagram.sender().number() || has_stranger(names, members)
    }

    /// Whether the datagram names what can't be, or is a farewell that says less than is known.
    fn is_beyond_final(&self, datagram: &Datagram, names: &[Name]) -> bool
        ensures { (c : AConfig) (made : ℕ) (past : List AnEntry) → AgentFits c made past self.now → result ≡ list_any (is_beyond c.me past) names.now || says_too_little past datagram.now }
    {
        self.goes_beyond(names) || self.is_short(datagram)
    }

    /// Whether one of the names goes beyond what can be.
    fn goes_beyond(&self, names: &[Name]) -> bool
        ensures { (c : AConfig) (made : ℕ) (past : List AnEntry) → AgentFits c made past self.now → result ≡ list_any (is_beyond c.me past) names.now }
    {
        for name in names {
            if self.is_beyond(*name) {
                return true;
            }
        }
        false
    }

    /// Whether a name is above the last of a source that left, or is this member's own and above what it drew.
    fn is_beyond(&self, name: Name) -> bool
        ensures { (c : AConfig) (made : ℕ) (past : List AnEntry) → AgentFits c made past self.now → result ≡ is_beyond c.me past name }
    {
        self.is_past_final(name) || self.is_own_undrawn(name)
    }

    fn is_past_final(&self, name: Name) -> bool
        ensures { (c : AConfig) (made : ℕ) (past : List AnEntry) → AgentFits c made past self.now → result ≡ exceeds name.number (final past name.stream) }
    {
        match self.store.final_of(name.stream()) {
            Some(last) => last < name.number(),
            None => false,
        }
    }

    fn is_own_undrawn(&self, name: Name) -> bool
        ensures { (c : AConfig) (made : ℕ) (past : List AnEntry) → AgentFits c made past self.now → result ≡ (name.stream.source == c.me) && nat_lt (drawn_in past name.stream) name.number }
    {
        name.source() == self.config.me() && self.store.known(name.stream()) < name.number()
    }

    /// Whether the datagram is a farewell that says less than is known of its sender.
    fn is_short(&self, datagram: &Datagram) -> bool
        ensures { (c : AConfig) (made : ℕ) (past : List AnEntry) → AgentFits c made past self.now → result ≡ says_too_little past datagram.now }
    {
        match datagram {
            Datagram::Session {
                sender,
                farewell,
                rows,
                ..
            } => *farewell && self.knows_more(*sender, rows.as_slice()),
            _ => false,
        }
    }

    /// Whether more is known of a source, on some page, than these rows say.
    fn knows_more(&self, source: Member, rows: &[Name]) -> bool
        ensures { (c : AConfig) (made : ℕ) (past : List AnEntry) → AgentFits c made past self.now
            → result ≡ list_any (λ page. nat_lt (row_number rows.now (stream_on source page)) (known past (stream_on source page))) (slots past) }
    {
        let pages = self.pages.as_slice();
        for page in pages {
            let stream = Stream {
                source,
                page: *page,
            };
            if self.knows_past(&stream, rows) {
                return true;
            }
        }
        false
    }

    fn knows_past(&self, stream: &Stream, rows: &[Name]) -> bool
        ensures { (c : AConfig) (made : ℕ) (past : List AnEntry) → AgentFits c made past self.now → result ≡ nat_lt (row_number rows.now stream.now) (known past stream.now) }
    {
        let known = self.store.known(*stream);
        row_number(rows, *stream) < known
    }

    /// Whether the datagram brings a drawop under a name that is held with another stamp or body.
    fn conflicts(&self, datagram: &Datagram) -> bool
        ensures { (c : AConfig) (made : ℕ) (past : List AnEntry) → AgentFits c made past self.now → result ≡ list_any (λ d. differs d (held_at past d.name)) (drawops_in (Some datagram.now)) }
    {
        match datagram {
            Datagram::Data(drawop) | Datagram::Repair { drawop, .. } => self.differs(drawop),
            _ => false,
        }
    }

    fn differs(&self, drawop: &Drawop) -> bool
        ensures { (c : AConfig) (made : ℕ) (past : List AnEntry) → AgentFits c made past self.now → result ≡ differs drawop.now (held_at past drawop.now.name) }
    {
        match self.store.get(drawop.name) {
            Some(held) => !same_drawop(drawop, held),
            None => false,
        }
    }
}

/// Whether the source of one of the names isn't below this number.
fn has_stranger(names: &[Name], members: u8) -> bool
    ensures { result ≡ list_any (λ n. nat_le members n.stream.source) names.now }
{
    names.iter().any(|name| members <= name.source().number())
}
