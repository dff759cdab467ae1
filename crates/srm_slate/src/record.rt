//! What there is to show so far.

ghost use Rattle.std.specs.Prelude.{◌≡◌, ◌-◌, [], ◌∷◌, ◌++◌, ◌&&◌, ◌==◌, nat_le, not, length, take, drop, slice_index, true, false, IfOk, OnOk, OnErr};
ghost use Rattle.srm_slate.specs.Happenings.{newest};
ghost use Rattle.srm_slate.specs.Showing.{ShowsFront, ShowsOneMore};
ghost use Rattle.srm_slate.specs.Slates.{blank, happened, gained, heard_from, is_hole, told_from, with_missing, Shows, StaysPrefix, KeepsPrefix};

use crate::happening::Happening;
use crate::happenings::Happenings;
use crate::hole::{Hole, NAMED};
use crate::look::{Counts, Look};
use crate::taken::{Taken, copies};
use srm_names::{MEMBERS, Member, Name, PageMsg};
use std::alloc::{AllocError, Global};
use std::marker::Model;

/// The messages that are told at once, at most.
pub const TOLD: usize = 100;

/// What there is to show so far.
#[derive(Drop)]
pub struct Record {
    alloc: Global,
    taken: Vec<Taken>,
    is_lossy: bool,
    // How many drawops the member misses, and the first of them, as it answered last.
    missing: u32,
    holes: Vec<Hole>,
    happenings: Happenings,
    counts: Counts,
    // The datagrams that came from each member.
    heard: [u64; MEMBERS as usize],
    is_stale: bool,
    has_ended: bool,
}

impl Model for Record {
    ghost use Rattle.srm_slate.specs.RecordView.{RecordView};

    ghost Value = { RecordView };

    ghost view = { λ r. record { taken = r.taken.items; is_lossy = r.is_lossy; missing = r.missing; holes = r.holes.items; happenings = r.happenings; counts = r.counts; heard = r.heard; is_stale = r.is_stale; has_ended = r.has_ended } };
}

impl Record {
    /// Makes a record of nothing. Takes no memory.
    #[tactic(auto, using(crate::proofs::Showing::front_of_none))]
    pub fn new(alloc: Global) -> Record
        ensures blank { result ≡ blank }
        ensures front { ShowsFront result [] }
    {
        Record {
            alloc,
            taken: Vec::new(alloc),
            is_lossy: false,
            missing: 0,
            holes: Vec::new(alloc),
            happenings: Happenings::new(alloc),
            counts: Counts::default(),
            heard: [0; MEMBERS as usize],
            is_stale: false,
            has_ended: false,
        }
    }

    /// Adds a message that the worker of a page slot, 0 to 7, took. Fails only if out of memory, and from then on always: no later message is kept, so that what is
    /// shown stays a prefix of what was taken. Whatever list of messages it showed a front of, all of them if it isn't lossy, it shows one of that list with this message behind it.
    pub fn take(&mut self, slot: u8, message: &PageMsg) -> Result<(), AllocError>
        ensures ok { OnOk result (self.new ≡ record self.old { taken = self.old.taken ++ (record { slot = slot; message = message.now }) ∷ [] }) }
        ensures whole { OnOk result (self.old.is_lossy ≡ false) }
        ensures err { OnErr result (self.new ≡ record self.old { is_lossy = true }) }
        ensures stays { StaysPrefix self.old.taken self.new.taken }
        ensures front { ShowsOneMore (record { slot = slot; message = message.now }) self.old self.new }
    {
        self.keep(slot, message)
    }

    // Keeps a message, if it kept all before.
    #[tactic(auto, using(crate::proofs::Prefixes::stays_behind, crate::proofs::Prefixes::stays_equal))]
    fn keep(&mut self, slot: u8, message: &PageMsg) -> Result<(), AllocError>
        ensures ok { OnOk result (self.new ≡ record self.old { taken = self.old.taken ++ (record { slot = slot; message = message.now }) ∷ [] }) }
        ensures whole { OnOk result (self.old.is_lossy ≡ false) }
        ensures err { OnErr result (self.new ≡ record self.old { is_lossy = true }) }
        ensures stays { StaysPrefix self.old.taken self.new.taken }
    {
        if self.is_lossy {
            return Err(AllocError);
        }
        self.is_lossy = true;
        let message = message.copy()?;
        self.taken.push(Taken { slot, message })?;
        self.is_lossy = false;
        Ok(())
    }

    /// Returns what is new to a tab that was told the first `from` messages and saw the first `seen` happenings: the next 100 messages, and the later happenings
    /// as far as they are kept. Fails only if out of memory. A tab that puts these messages behind those that it has, and asks from there, has a prefix of what was
    /// taken.
    #[tactic(auto, using(crate::proofs::Prefixes::keeps_prefix))]
    pub fn look(&self, from: usize, seen: u64) -> Result<Look, AllocError>
        ensures told { IfOk result (λ look. look.taken.items ≡ told_from from self.now.taken) }
        ensures prefix { IfOk result (λ look. KeepsPrefix from self.now.taken look.taken.items) }
        ensures happenings { IfOk result (λ look. look.happenings.items ≡ newest (self.now.happenings.count - seen) self.now.happenings.kept) }
        ensures holes { IfOk result (λ look. look.holes.items ≡ self.now.holes) }
        ensures standing { IfOk result (Shows self.now) }
    {
        let taken = copies(self.alloc, told(self.taken.as_slice(), from))?;
        Ok(Look {
            taken,
            happenings: self.happenings.behind(seen)?,
            happened: self.happenings.count(),
            missing: self.missing,
            holes: Vec::from_slice(self.alloc, self.holes.as_slice())?,
            counts: self.counts,
            heard: self.heard,
            is_lossy: self.is_lossy,
            is_stale: self.is_stale,
            has_ended: self.has_ended,
        })
    }

    /// Returns whether nothing is new to a tab that was told the first `from` messages and saw the first `seen` happenings, and more may come.
    pub fn is_old(&self, from: usize, seen: u64) -> bool
        ensures { result ≡ (nat_le (length self.now.taken) from && self.now.happenings.count == seen && not self.now.has_ended) }
    {
        self.taken.len() <= from && self.happenings.count() == seen && !self.has_ended
    }

    /// Shows from now on that the member misses so many drawops, the first of them by name; what was shown as missing before isn't any more. Of more than 64 names the first 64
    /// are shown.
    pub fn show_missing(&mut self, count: u32, holes: Vec<Hole>)
        ensures { self.new ≡ with_missing count holes.items self.old }
    {
        let mut holes = holes;
        holes.truncate(NAMED);
        self.missing = count;
        self.holes = holes;
    }

    /// Notes that a drawop came in a datagram of this member. If it is shown as missing by name, a [`Happening`] says so. Fails only if out of memory, and then nothing has changed.
    pub fn gain(&mut self, name: Name, by: Member) -> Result<(), AllocError>
        ensures ok { OnOk result (self.new ≡ gained name by self.old) }
        ensures err { OnErr result (self.new ≡ self.old) }
    {
        if self.is_hole(name) {
            self.happen(Happening::Gained(name, by))?;
        }
        Ok(())
    }

    // Whether a drawop is shown as missing by name.
    fn is_hole(&self, name: Name) -> bool
        ensures { result ≡ is_hole name self.now.holes }
    {
        self.holes.iter().any(|hole| hole.name == name)
    }

    /// Adds what befell the member; the last 256 are kept. Fails only if out of memory, and then nothing has changed.
    pub fn happen(&mut self, happening: Happening) -> Result<(), AllocError>
        ensures ok { OnOk result (self.new ≡ happened happening self.old) }
        ensures err { OnErr result (self.new ≡ self.old) }
    {
        self.happenings.push(happening)
    }

    /// Returns how often something befell the member, also those happenings that aren't kept any more.
    pub fn happened(&self) -> u64
        ensures { result ≡ self.now.happenings.count }
    {
        self.happenings.count()
    }

    /// Counts a datagram of this member that came.
    pub fn hear(&mut self, from: Member)
        ensures { self.new ≡ heard_from from self.old }
    {
        let heard = self.heard_of(from);
        self.heard[from.index()] = heard.saturating_add(1);
        self.counts.came = self.counts.came.saturating_add(1);
    }

    // How many datagrams of a member came.
    fn heard_of(&self, member: Member) -> u64
        ensures { result ≡ slice_index self.now.heard member }
    {
        self.heard[member.index()]
    }

    /// Returns what passed so far, to be counted on.
    pub fn counts(&self) -> Counts
        ensures { result ≡ self.now.counts }
    {
        self.counts
    }

    /// Shows these counts from now on.
    pub fn show_counts(&mut self, counts: Counts)
        ensures { self.new ≡ record self.old { counts = counts } }
    {
        self.counts = counts;
    }

    /// Notes that others know of strokes that an earlier run of this member drew: they take none that this one draws under the same names.
    pub fn note_stale(&mut self)
        ensures { self.new ≡ record self.old { is_stale = true } }
    {
        self.is_stale = true;
    }

    /// Notes that the member's run has ended: nothing more comes.
    pub fn end(&mut self)
        ensures { self.new ≡ record self.old { has_ended = true } }
    {
        self.has_ended = true;
    }
}

// What is told of these messages from a cursor on.
fn told(taken: &[Taken], from: usize) -> &[Taken]
    ensures { result.now ≡ told_from from taken.now }
{
    first_of(behind(taken, from))
}

#[tactic(auto, using(crate::proofs::Prefixes::drop_within))]
fn behind(taken: &[Taken], from: usize) -> &[Taken]
    ensures { result.now ≡ drop from taken.now }
{
    let (_, rest) = taken.split_at(from.min(taken.len()));
    rest
}

#[tactic(auto, using(crate::proofs::Prefixes::take_within))]
fn first_of(taken: &[Taken]) -> &[Taken]
    ensures { result.now ≡ take TOLD taken.now }
{
    let (first, _) = taken.split_at(TOLD.min(taken.len()));
    first
}
