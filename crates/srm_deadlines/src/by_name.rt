//! Values by name.

ghost use Rattle.std.specs.Prelude.{◌≡◌, ℕ, ◌≤◌, ◌<◌, ◌+◌, ◌^◌, List, [], ◌∷◌, true, OnOk, OnErr, IsOk, length, slice_index_or, if◌then◌else◌, nat_eq, Some, None};
ghost use Rattle.std.specs.List.{IsDistinct};
ghost use Rattle.srm_names.specs.Names.{ascending, name_below, same_name};
ghost use Rattle.srm_deadlines.specs.MomentLists.{item_at, values_of};
ghost use Rattle.srm_deadlines.specs.Places.{value_at, has_place, names_of, place_names, KeepsPlaces, GivesPlaces, KeepsValues, Sets, SetsAll, ClearsAll, HasPlaces};

use crate::timed::Timed;
use indexmap::IndexMap;
use srm_names::Name;
use std::alloc::{AllocError, Global};
use std::marker::Model;

/// A name that may have a value.
#[derive(Clone, Copy, Debug)]
pub struct NamedValue<V> {
    /// The name.
    pub name: Name,
    /// Its value, if it has one.
    pub value: Option<V>,
}

/// Values by name, each found by a hash of its name. Contracts see the places: the names, with or without a value.
#[derive(Drop)]
pub struct ByName<V> {
    places: IndexMap<Name, Option<V>>,
}

impl<V> Model for ByName<V> {
    ghost use Rattle.std.specs.Prelude.{List};
    ghost use Rattle.srm_deadlines.specs.declared.by_name.NamedValue.{NamedValue};
    ghost use Rattle.srm_deadlines.specs.PlacesOf.{places_of};

    ghost Value = { List (NamedValue V) };

    ghost view = { λ m. places_of m.places.entries };
}

impl<V: Copy> ByName<V> {
    /// Makes a table without places. Takes no memory.
    pub fn new(alloc: Global) -> Self
        ensures { result ≡ [] }
    {
        ByName {
            places: IndexMap::new(alloc),
        }
    }

    /// Returns how many names have a place.
    pub fn len(&self) -> usize
        ensures value { result ≡ length self.now }
        ensures once { IsDistinct same_name (place_names self.now) }
        ensures small { result < 2 ^ 63 }
    {
        self.places.len()
    }

    /// Returns the place at an index below [`len`](ByName::len). Any changing call may change the order.
    pub fn place(&self, index: usize) -> NamedValue<V>
        requires { index < length self.now }
        ensures place { result ≡ slice_index_or self.now index result }
        ensures value { value_at self.now result.name ≡ result.value }
    {
        let (name, value) = self.places.get_index(index).unwrap();
        NamedValue {
            name: *name,
            value: *value,
        }
    }

    /// Returns whether a name has a place.
    pub fn has_place(&self, name: Name) -> bool
        ensures { result ≡ has_place self.now name }
    {
        self.places.contains_key(&name)
    }

    /// Returns the value of a name.
    pub fn get(&self, name: Name) -> Option<V>
        ensures { result ≡ value_at self.now name }
    {
        *self.places.get(&name)?
    }

    /// Makes a place for a name, unless it has one. No value changes. Fails only if out of memory.
    pub fn make_place(&mut self, name: Name) -> Result<(), AllocError>
        ensures kept { KeepsValues self.old self.new }
        ensures keeps_places { KeepsPlaces self.old self.new }
        ensures only { GivesPlaces (name ∷ []) self.old self.new }
        ensures ok { OnOk result (has_place self.new name ≡ true) }
        ensures again { has_place self.old name ≡ true → IsOk result }
        ensures more { length self.new ≤ length self.old + 1 }
        ensures values { (i : ℕ) → item_at (values_of self.new) i ≡ item_at (values_of self.old) i }
        ensures err { OnErr result (self.new ≡ self.old) }
    {
        if !self.places.contains_key(&name) {
            self.places.insert(name, None)?;
        }
        Ok(())
    }

    /// Makes places for names. No value changes. Fails only if out of memory; some of the names may have a place then.
    pub fn room(&mut self, names: &[Name]) -> Result<(), AllocError>
        ensures kept { KeepsValues self.old self.new }
        ensures keeps_places { KeepsPlaces self.old self.new }
        ensures only { GivesPlaces names.now self.old self.new }
        ensures ok { OnOk result (HasPlaces names.now self.new) }
        ensures again { HasPlaces names.now self.old → IsOk result }
    {
        for name in names {
            self.make_place(*name)?;
        }
        Ok(())
    }

    /// Sets the value of a name that has a place, or takes it away.
    pub fn set(&mut self, name: Name, value: Option<V>)
        requires { has_place self.old name ≡ true }
        ensures sets { Sets name value self.old self.new }
        ensures keeps_places { KeepsPlaces self.old self.new }
        ensures only { GivesPlaces [] self.old self.new }
        ensures length { length self.new ≡ length self.old }
    {
        // An insert at a key that is there takes no memory.
        let _ = self.places.insert(name, value);
    }

    /// Sets the value of a name that has a place, or takes it away, and returns the index of its place.
    pub fn put(&mut self, name: Name, value: Option<V>) -> usize
        requires { has_place self.old name ≡ true }
        ensures sets { Sets name value self.old self.new }
        ensures keeps_places { KeepsPlaces self.old self.new }
        ensures only { GivesPlaces [] self.old self.new }
        ensures length { length self.new ≡ length self.old }
        ensures within { result < length self.old }
        ensures values { (i : ℕ) → item_at (values_of self.new) i ≡ (if nat_eq i result then value else item_at (values_of self.old) i) }
    {
        // An insert at a key that is there takes no memory.
        self.places.insert_full(name, value).ok().unwrap().0
    }

    /// Takes a name's value away, if it has one.
    pub fn clear(&mut self, name: Name)
        ensures sets { Sets name None self.old self.new }
        ensures keeps_places { KeepsPlaces self.old self.new }
        ensures only { GivesPlaces [] self.old self.new }
        ensures length { length self.new ≡ length self.old }
    {
        if self.has_place(name) {
            self.set(name, None);
        }
    }

    /// Takes the values of names away, of those that have one.
    #[tactic(auto, using(crate::proofs::Tables::clears_more, crate::proofs::Tables::holds_on, crate::proofs::Tables::given_on))]
    pub fn clear_all(&mut self, names: &[Name])
        ensures sets { ClearsAll names.now self.old self.new }
        ensures keeps_places { KeepsPlaces self.old self.new }
        ensures only { GivesPlaces [] self.old self.new }
        ensures length { length self.new ≡ length self.old }
    {
        for name in names {
            self.clear(*name);
        }
    }
}

impl ByName<u64> {
    /// Sets the moments of names that have places and stand in rising order.
    pub fn set_all(&mut self, moments: &[Timed])
        requires rising { ascending name_below (names_of moments.now) ≡ true }
        requires places { HasPlaces (names_of moments.now) self.old }
        ensures sets { SetsAll moments.now self.old self.new }
        ensures keeps_places { KeepsPlaces self.old self.new }
        ensures only { GivesPlaces [] self.old self.new }
        ensures length { length self.new ≡ length self.old }
    {
        for timed in moments {
            self.set(timed.name, Some(timed.moment));
        }
    }
}
