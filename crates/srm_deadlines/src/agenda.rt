//! Moments in order.

ghost use Rattle.std.specs.Prelude.{◌≡◌, ◌≤◌, ◌<◌, ◌+◌, [], ◌∷◌, true, length, vec_capacity, slice_get, if◌then◌else◌, OnOk, IsOk, IfSome, All};
ghost use Rattle.std.specs.List.{list_any};
ghost use Rattle.srm_names.specs.FullName.{FullName};
ghost use Rattle.srm_names.specs.Names.{among, ascending, name_below, same_name, AreExactly};
ghost use Rattle.srm_deadlines.specs.Agenda.{of_name, timed_for, is_due, timed_among, PairsHaveRoom};
ghost use Rattle.srm_deadlines.specs.Places.{names_of};

use crate::timed::Timed;
use srm_names::Name;
use std::alloc::{AllocError, Global};
use std::marker::Model;

/// Names with moments, in order of moment and then of name: what is due first stands in front.
#[derive(Drop)]
pub(crate) struct Agenda {
    pairs: Vec<Timed>,
}

impl Model for Agenda {
    ghost use Rattle.std.specs.Prelude.{IsSorted};
    ghost use Rattle.std.specs.Vec.{vec_capacity};
    ghost use Rattle.srm_deadlines.specs.Agenda.{Agenda as TheAgenda, timed_order};

    ghost Value = { TheAgenda };

    ghost view = { λ a. record { pairs = a.pairs.items; capacity = vec_capacity a.pairs } };

    ghost invariant = { λ a. IsSorted timed_order a.pairs.items };
}

impl Agenda {
    /// Nothing stands there.
    pub(crate) fn new(alloc: Global) -> Agenda
        ensures { result.pairs ≡ [] }
    {
        Agenda {
            pairs: Vec::new(alloc),
        }
    }

    /// Makes room for so many names in all.
    pub(crate) fn reserve(&mut self, names: usize) -> Result<(), AllocError>
        ensures pairs { self.new.pairs ≡ self.old.pairs }
        ensures room { self.old.capacity ≤ self.new.capacity }
        ensures ok { OnOk result (names ≤ self.new.capacity) }
    {
        self.pairs.reserve(names.saturating_sub(self.pairs.len()))
    }

    /// The first of all.
    #[tactic(auto, using(crate::proofs::Dues::first_least))]
    pub(crate) fn first(&self) -> Option<Timed>
        ensures value { result ≡ slice_get self.now.pairs 0 }
        ensures least { IfSome result (λ first. All (λ t. first.moment ≤ t.moment) self.now.pairs) }
    {
        self.pairs.first().copied()
    }

    /// Puts in a name that doesn't stand there.
    pub(crate) fn insert(&mut self, timed: Timed)
        requires absent { of_name timed.name self.old.pairs ≡ [] }
        requires room { length self.old.pairs < self.old.capacity }
        ensures each { (n : FullName) → of_name n self.new.pairs ≡ (if same_name n timed.name then timed ∷ [] else of_name n self.old.pairs) }
        ensures room { self.old.capacity ≤ self.new.capacity }
    {
        let place = self.pairs.partition_point(|pair| *pair < timed);
        let _ = self.pairs.insert(place, timed);
    }

    /// Takes out a name that stands there with its moment, if it has one.
    pub(crate) fn remove(&mut self, name: Name, moment: Option<u64>)
        requires there { of_name name self.old.pairs ≡ timed_for name moment }
        ensures each { (n : FullName) → of_name n self.new.pairs ≡ (if same_name n name then [] else of_name n self.old.pairs) }
        ensures room { self.old.capacity ≤ self.new.capacity }
    {
        let Some(moment) = moment else { return };
        if let Ok(place) = self.pairs.binary_search(&Timed { moment, name }) {
            let _ = self.pairs.remove(place);
        }
    }

    /// Takes out all that stands there of these names, which rise.
    pub(crate) fn remove_all(&mut self, names: &[Name])
        requires rising { ascending name_below names.now ≡ true }
        ensures each { (n : FullName) → of_name n self.new.pairs ≡ (if among names.now n then [] else of_name n self.old.pairs) }
        ensures room { self.old.capacity ≤ self.new.capacity }
    {
        self.pairs.retain(|pair| !is_listed(names, pair.name));
    }

    /// Takes out all that stands there of the names of these moments, which rise.
    pub(crate) fn remove_timed(&mut self, moments: &[Timed])
        requires rising { ascending name_below (names_of moments.now) ≡ true }
        ensures each { (n : FullName) → of_name n self.new.pairs ≡ (if among (names_of moments.now) n then [] else of_name n self.old.pairs) }
        ensures room { self.old.capacity ≤ self.new.capacity }
    {
        self.pairs.retain(|pair| !is_named(moments, pair.name));
    }

    /// Puts in names that don't stand there and rise.
    pub(crate) fn extend(&mut self, moments: &[Timed])
        requires rising { ascending name_below (names_of moments.now) ≡ true }
        requires once { (n : FullName) → length (of_name n self.old.pairs) ≤ 1 }
        requires absent { (n : FullName) → among (names_of moments.now) n ≡ true → of_name n self.old.pairs ≡ [] }
        requires room { length self.old.pairs + length moments.now ≤ self.old.capacity }
        ensures each { (n : FullName) → of_name n self.new.pairs ≡ timed_among moments.now n (of_name n self.old.pairs) }
        ensures room { self.old.capacity ≤ self.new.capacity }
    {
        let _ = self.pairs.extend_from_slice(moments);
        self.pairs.sort_unstable();
    }

    /// Puts the names whose deadlines have expired into a list, in order of name, each at most once.
    pub(crate) fn due(&self, now: u64, names: &mut Vec<Name>) -> Result<(), AllocError>
        requires once { (n : FullName) → length (of_name n self.now.pairs) ≤ 1 }
        ensures names { OnOk result (AreExactly (λ n. list_any (is_due now) (of_name n self.now.pairs)) names.new.items) }
        ensures capacity { vec_capacity names.old ≤ vec_capacity names.new }
        ensures room { PairsHaveRoom now self.now.pairs (vec_capacity names.old) → IsOk result }
    {
        let count = self.pairs.partition_point(|pair| pair.moment <= now);
        put_names(names, &self.pairs[..count])?;
        names.sort_unstable();
        Ok(())
    }
}

/// Puts the names into a list in their order, in place of what it holds. Fails only if the list has too little room and memory ran out; its contents are then
/// unspecified.
pub fn put_names(names: &mut Vec<Name>, pairs: &[Timed]) -> Result<(), AllocError>
    ensures names { OnOk result (names.new.items ≡ names_of pairs.now) }
    ensures capacity { vec_capacity names.old ≤ vec_capacity names.new }
    ensures room { length pairs.now ≤ vec_capacity names.old → IsOk result }
{
    names.clear();
    names.reserve(pairs.len())?;
    for pair in pairs {
        names.push(pair.name)?;
    }
    Ok(())
}

/// Whether a name is one of these, which rise.
fn is_listed(names: &[Name], name: Name) -> bool
    requires rising { ascending name_below names.now ≡ true }
    ensures { result ≡ among names.now name }
{
    names.binary_search(&name).is_ok()
}

/// Whether a name is one of those of these moments, which rise.
fn is_named(moments: &[Timed], name: Name) -> bool
    requires rising { ascending name_below (names_of moments.now) ≡ true }
    ensures { result ≡ among (names_of moments.now) name }
{
    moments
        .binary_search_by_key(&name, |timed| timed.name)
        .is_ok()
}
