//! Whether a member was in its session before, under the same number.

ghost use Rattle.std.specs.Prelude.{◌≡◌, ◌++◌, ◌∷◌, ℕ, List, [], OnOk};
ghost use Rattle.std.specs.List.{list_any};
ghost use Rattle.srm_agent.specs.Fits.{AgentFits};
ghost use Rattle.srm_entries.specs.Configs.{Config as AConfig};
ghost use Rattle.srm_entries.specs.declared.entry.Entry.{Entry as AnEntry};
ghost use Rattle.srm_live.specs.Claims.{claims_of, is_beyond, own_rows};

use srm_agent::Agent;
use srm_codec::Datagram;
use srm_names::{Member, Name};
use srm_timers::Words;
use std::alloc::{AllocError, Global};
use std::marker::Model;

/// What session messages that a member ignored say of its streams. Others that know of more than it drew have it from an earlier run: a member that begins anew under its number begins at 1 again, while
/// the others know what it drew before.
#[derive(Drop)]
pub struct Claims {
    rows: Vec<Name>,
}

impl Model for Claims {
    ghost use Rattle.std.specs.Prelude.{List};
    ghost use Rattle.srm_names.specs.FullName.{FullName};

    ghost Value = { List FullName };

    ghost view = { λ c. c.rows.items };
}

impl Claims {
    /// Makes claims of nothing. Takes no memory.
    pub fn new(alloc: Global) -> Claims
        ensures { result ≡ [] }
    {
        Claims {
            rows: Vec::new(alloc),
        }
    }

    /// Notes the rows of the member's own streams, if the datagram is a session message. Fails only if out of memory: then some of them aren't noted.
    pub fn note(&mut self, me: Member, datagram: &Datagram) -> Result<(), AllocError>
        ensures { OnOk result (self.new ≡ self.old ++ claims_of me datagram.now) }
    {
        match datagram {
            Datagram::Session { rows, .. } => self.note_rows(me.number(), rows.as_slice()),
            _ => Ok(()),
        }
    }

    // Notes those of these rows that are of the streams of the member of this number.
    fn note_rows(&mut self, me: u8, rows: &[Name]) -> Result<(), AllocError>
        ensures { OnOk result (self.new ≡ self.old ++ own_rows me rows.now) }
    {
        for row in rows {
            self.note_row(me, row)?;
        }
        Ok(())
    }

    fn note_row(&mut self, me: u8, row: &Name) -> Result<(), AllocError>
        ensures { OnOk result (self.new ≡ self.old ++ own_rows me (row.now ∷ [])) }
    {
        if row.source().number() == me {
            self.rows.push(*row)?;
        }
        Ok(())
    }

    /// Returns whether one of the rows is above what the member knows of its stream, which is what it drew, and forgets them all.
    pub fn settle<W: Words + Drop>(&mut self, agent: &Agent<W>) -> bool
        ensures exceeded { (c : AConfig) (made : ℕ) (past : List AnEntry) → AgentFits c made past agent.now → result ≡ list_any (is_beyond past) self.old }
        ensures none { self.new ≡ [] }
    {
        let is_exceeded = is_any_beyond(agent, self.rows.as_slice());
        self.rows.clear();
        is_exceeded
    }
}

fn is_any_beyond<W: Words + Drop>(agent: &Agent<W>, rows: &[Name]) -> bool
    ensures { (c : AConfig) (made : ℕ) (past : List AnEntry) → AgentFits c made past agent.now → result ≡ list_any (is_beyond past) rows.now }
{
    match rows {
        [] => false,
        [row, rest @ ..] => is_beyond(agent, row) || is_any_beyond(agent, rest),
    }
}

fn is_beyond<W: Words + Drop>(agent: &Agent<W>, row: &Name) -> bool
    ensures { (c : AConfig) (made : ℕ) (past : List AnEntry) → AgentFits c made past agent.now → result ≡ is_beyond past row.now }
{
    row.number() > agent.known(row.stream())
}
