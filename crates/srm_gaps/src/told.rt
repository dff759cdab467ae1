//! What records tell of their members.

ghost use Rattle.std.specs.Prelude.{◌≡◌, ◌≤◌, ◌↔◌, false, map, length, IsTrue, IfOk};
ghost use Rattle.std.specs.List.{AllByRecursion};
ghost use Rattle.std.specs.Option.{option_copied};
ghost use Rattle.srm_gaps.specs.Possible.{calls_told, may_miss, told_of};
ghost use Rattle.srm_gaps.specs.Orders.{IsCallOf};
ghost use Rattle.srm_gaps.specs.Gaps.{AreComplete, AreOfOneSession, IsAnother, IsComplete, journals_of};

use srm_entries::Entry;
use srm_names::Member;
use srm_world::Journal;
use std::alloc::{AllocError, Global};
use std::collections::VecDeque;

/// What a record tells of its member.
#[derive(Drop)]
pub struct Told {
    /// What the member did, as far as the record goes.
    pub journal: Journal,
    /// Whether the record ends before its member did.
    pub is_cut: bool,
}

impl Told {
    /// Returns the member whose record it is.
    pub fn member(&self) -> Member
        ensures { result ≡ self.now.journal.start.config.me }
    {
        self.journal.start().config.me()
    }
}

/// Returns the record of a member, if there is one.
fn told_of<'a>(told: &'a [Told], member: Member) -> Option<&'a Told>
    ensures { option_copied result ≡ told_of told.now member }
{
    told.iter().find(|one| one.member() == member)
}

/// Returns the calls of a member that are told; none if it has no record.
pub fn calls_told<'a>(told: &'a [Told], member: Member) -> &'a [Entry]
    ensures value { result.now ≡ calls_told told.now member }
    ensures calls { AllByRecursion (IsCallOf member) result.now }
{
    match told_of(told, member) {
        Some(one) => one.journal.entries(),
        None => &[],
    }
}

/// Returns whether a member may have done more than is told.
pub fn may_miss(told: &[Told], member: Member) -> bool
    ensures { result ≡ may_miss told.now member }
{
    match told_of(told, member) {
        Some(one) => one.is_cut,
        None => true,
    }
}

/// Returns whether there are records, and none is missing or cut.
pub fn are_complete(told: &[Told]) -> bool
    ensures { IsTrue result ↔ AreComplete told.now }
{
    if told.is_empty() {
        return false;
    }
    for one in told {
        if !is_complete(told.len(), one) {
            return false;
        }
    }
    true
}

fn is_complete(records: usize, one: &Told) -> bool
    ensures { IsTrue result ↔ IsComplete records one.now }
{
    !one.is_cut && usize::from(one.journal.start().config.members()) <= records
}

/// Returns whether the records are of different members of one roster in one session.
pub fn are_of_one_session(told: &[Told]) -> bool
    ensures { IsTrue result ↔ AreOfOneSession told.now }
{
    let mut rest = told;
    'rest: while let Some((one, others)) = rest.split_first() {
        if !are_others(one, others) {
            return false;
        }
        rest = others;
    }
    true
}

fn are_others(one: &Told, others: &[Told]) -> bool
    ensures { IsTrue result ↔ AllByRecursion (IsAnother one.now) others.now }
{
    for other in others {
        if !is_another(one, other) {
            return false;
        }
    }
    true
}

fn is_another(one: &Told, other: &Told) -> bool
    ensures { IsTrue result ↔ IsAnother one.now other.now }
{
    let config = one.journal.start().config;
    let another = other.journal.start().config;
    another.session() == config.session()
        && another.members() == config.members()
        && other.member() != one.member()
}

/// Returns the journals, in their order. Fails only if out of memory.
pub fn journals_of(alloc: Global, told: Vec<Told>) -> Result<Vec<Journal>, AllocError>
    ensures { IfOk result (λ journals. journals.items ≡ journals_of told.items) }
{
    let mut journals = Vec::new(alloc);
    let mut rest = VecDeque::from(told);
    'told: while let Some(one) = rest.pop_front() {
        journals.push(one.journal).map_err(AllocError::from)?;
    }
    Ok(journals)
}
