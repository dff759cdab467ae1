//! Merging journals into one order.

ghost use Rattle.std.specs.Prelude.{◌≡◌, ◌<◌, ◌||◌, length, IfOk, IfErr, MatchOption, OnOk};
ghost use Rattle.std.specs.List.{AllByRecursion};
ghost use Rattle.srm_world.specs.Traces.{of_member};
ghost use Rattle.srm_audit.specs.Merging.{IsEmptied, IsFirstNonEmpty, IsUnsentAt, Orders, Refuses, Stops, Tries, TriesMember, TriesOne};

use crate::mismatch::Mismatch;
use crate::queue::Queue;
use crate::spellings::Spellings;
use srm_entries::Entry;
use srm_world::Start;
use std::alloc::{AllocError, Global};
use std::marker::Model;

/// What is left of each member's journal, and the entries that are in order so far. Each of these hears only what those before it sent.
#[derive(Drop)]
pub struct Merge {
    pub(crate) queues: Vec<Queue>,
    pub(crate) entries: Vec<Entry>,
    pub(crate) spellings: Spellings,
}

impl Model for Merge {
    ghost use Rattle.srm_audit.specs.Merging.{MergingContent, content_of};

    ghost Value = { MergingContent };

    ghost view = { content_of };
}

impl Merge {
    /// Moves the next entry of a member to the end of the order, unless there is none or it hears what wasn't sent. Returns whether it
    /// did.
    fn advance(&mut self, alloc: Global, member: usize) -> Result<bool, AllocError>
        requires { member < length self.old.queues }
        ensures { IfOk result (TriesOne member self.old self.new) }
    {
        let Some(entry) = self.queues[member].pop_ready(alloc, &self.spellings)? else {
            return Ok(false);
        };
        self.spellings
            .add_all(alloc, entry.effects.outs.as_slice())?;
        self.entries.push(entry)?;
        Ok(true)
    }

    /// Moves entries of a member as long as it can. Returns whether it moved any.
    fn go_on(&mut self, alloc: Global, member: usize) -> Result<bool, AllocError>
        requires { member < length self.old.queues }
        ensures { IfOk result (TriesMember member self.old self.new) }
    {
        let mut moved = false;
        while self.advance(alloc, member)? {
            moved = true;
        }
        Ok(moved)
    }

    /// Moves entries of each member in turn as long as it can. Returns whether it moved any.
    fn try_each(&mut self, alloc: Global) -> Result<bool, AllocError>
        ensures { IfOk result (Tries (length self.old.queues) self.old self.new) }
    {
        let mut moved = false;
        let members = self.queues.as_slice().len();
        for member in 0..members {
            let went = self.go_on(alloc, member)?;
            moved = either(moved, went);
        }
        Ok(moved)
    }

    /// Returns all entries of the journals in one order.
    ///
    /// Fails with [`Mismatch::Unsent`] if no journal leads further, and with [`Mismatch::Memory`].
    pub fn order(self, alloc: Global, starts: &[Start]) -> Result<Vec<Entry>, Mismatch>
        requires { length starts.now ≡ length self.queues }
        ensures ok { IfOk result (λ es. Orders self es.items) }
        ensures err { IfErr result (Refuses starts.now self) }
    {
        let mut merge = self;
        merge.run(alloc)?;
        let Some(place) = first_non_empty(&merge.queues) else {
            return Ok(merge.entries);
        };
        Err(unsent_at(starts, &merge.entries, place))
    }

    /// Moves entries until no member has one that can go.
    fn run(&mut self, alloc: Global) -> Result<(), AllocError>
        ensures { OnOk result (Stops self.old self.new) }
    {
        while self.try_each(alloc)? {}
        Ok(())
    }
}

/// The place of the first queue that isn't empty.
fn first_non_empty(queues: &[Queue]) -> Option<usize>
    ensures { MatchOption result (AllByRecursion IsEmptied queues.now) (IsFirstNonEmpty queues.now) }
{
    for (place, queue) in queues.iter().enumerate() {
        if !queue.is_empty() {
            return Some(place);
        }
    }
    None
}

/// The mismatch that names the next entry of a member, after those of it that are in order.
fn unsent_at(starts: &[Start], entries: &[Entry], member: usize) -> Mismatch
    requires { member < length starts.now }
    ensures { IsUnsentAt starts.now entries.now member result }
{
    Mismatch::Unsent {
        member: starts[member].config.me(),
        entry: count_of(entries, member),
    }
}

/// How many of the entries are of a member.
fn count_of(entries: &[Entry], member: usize) -> usize
    ensures { result ≡ length (of_member member entries.now) }
{
    entries
        .iter()
        .filter(|entry| entry.member.index() == member)
        .count()
}

fn either(a: bool, b: bool) -> bool
    ensures { result ≡ (a || b) }
{
    a || b
}
