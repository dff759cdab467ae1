//! How far the streams of settled members go.

ghost use Rattle.std.specs.Prelude.{◌≡◌, ◌≤◌, ◌<◌, ℕ, length, None, IfOk, IfSome, OnOk, OnErr, IsOk};
ghost use Rattle.srm_store.specs.Finals.{row_number, final_in, rows_kept, SameFinals, Settles};

use srm_names::{DRAWOPS, Items, MEMBERS, Member, Name, Stream};
use std::alloc::{AllocError, Global};
use std::marker::Model;
use std::mem;

/// The rows of each member that was settled, and an empty list with room for the rows of one more.
#[derive(Drop)]
pub struct Finals {
    alloc: Global,
    settled: Vec<Option<Items<Name>>>,
    spare: Vec<Name>,
}

impl Model for Finals {
    ghost use Rattle.srm_store.specs.Finals.{FinalsContent};

    ghost Value = { FinalsContent };

    ghost use Rattle.srm_store.specs.Inside.{finals_of, FinalsAreRight};

    ghost view = { finals_of };

    ghost invariant = { FinalsAreRight };
}

impl Finals {
    /// Makes the finals of no member. Fails only if out of memory.
    pub fn new(alloc: Global) -> Result<Finals, AllocError>
        ensures { IfOk result (λ finals. (m : ℕ) → rows_kept finals m ≡ None) }
    {
        let mut settled = Vec::with_capacity(alloc, MEMBERS as usize)?;
        for _member in 0..MEMBERS {
            settled.push(None)?;
        }
        Ok(Finals {
            alloc,
            settled,
            spare: Vec::new(alloc),
        })
    }

    /// Makes room for so many rows.
    pub fn room(&mut self, count: usize) -> Result<(), AllocError>
        ensures same { SameFinals self.old self.new }
        ensures still { self.old.room ≤ self.new.room }
        ensures ok { OnOk result (count ≤ self.new.room) }
    {
        self.spare.reserve(count)
    }

    /// Keeps the rows of a member, unless it was settled before.
    pub fn settle(&mut self, member: Member, rows: &[Name]) -> Result<(), AllocError>
        ensures ok { OnOk result (Settles member rows.now self.old self.new) }
        ensures err { OnErr result (SameFinals self.old self.new) }
        ensures still { OnErr result (self.old.room ≤ self.new.room) }
        ensures room { length rows.now ≤ self.old.room → IsOk result }
    {
        let place = member.index();
        if self.settled[place].is_some() {
            return Ok(());
        }
        self.spare.extend_from_slice(rows)?;
        let kept = mem::replace(&mut self.spare, Vec::new(self.alloc));
        self.settled[place] = Some(Items::new(kept));
        Ok(())
    }

    /// Returns how far a stream goes.
    pub fn final_of(&self, stream: Stream) -> Option<u32>
        ensures value { result ≡ final_in (rows_kept self.now stream.source) stream }
        ensures last { IfSome result (λ number. number ≤ DRAWOPS) }
        ensures source { stream.source < MEMBERS }
    {
        let rows = self.settled[stream.source.index()].as_ref()?;
        Some(row_number(rows.as_slice(), stream))
    }
}

/// Returns the number that rows have for a stream, or 0 if they have none.
pub fn row_number(rows: &[Name], stream: Stream) -> u32
    ensures value { result ≡ row_number rows.now stream }
    ensures last { result ≤ DRAWOPS }
{
    for row in rows {
        if row.stream() == stream {
            return row.number();
        }
    }
    0
}
