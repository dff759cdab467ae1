//! Deadlines in a list that is looked through.

ghost use Rattle.std.specs.Prelude.{◌≡◌, ℕ, ◌≤◌, ◌||◌, [], true, false, length, vec_capacity, take, drop, IfSome, OnOk, OnErr, IsOk, IsNone, Option};
ghost use Rattle.srm_names.specs.FullName.{FullName};
ghost use Rattle.srm_names.specs.Names.{among, ascending, name_below, same_name, AreExactly};
ghost use Rattle.srm_names.specs.Moments.{has_come};
ghost use Rattle.srm_deadlines.specs.Deadlines.{DueHasRoom};
ghost use Rattle.srm_deadlines.specs.Least.{lesser};
ghost use Rattle.srm_deadlines.specs.Places.{value_at};

use crate::by_name::ByName;
use crate::deadlines::Deadlines;
use crate::timed::Timed;
use srm_names::{Name, has_come};
use std::alloc::{AllocError, Global};
use std::marker::Model;

/// Deadlines by name that are all looked through: a slow implementation to compare with.
#[derive(Drop)]
pub struct Scanned {
    moments: ByName<u64>,
}

impl Model for Scanned {
    ghost use Rattle.std.specs.Prelude.{ℕ, List};
    ghost use Rattle.srm_deadlines.specs.declared.by_name.NamedValue.{NamedValue};

    ghost Value = { List (NamedValue ℕ) };

    ghost view = { λ s. s.moments };
}

impl Scanned {
    /// Makes deadlines without places. Takes no memory.
    pub fn new(alloc: Global) -> Self
        ensures { result ≡ [] }
    {
        Scanned {
            moments: ByName::new(alloc),
        }
    }

    /// Puts the names whose deadlines have expired into a list, in order of name, in place of what it holds.
    fn look_through(&self, now: u64, names: &mut Vec<Name>) -> Result<(), AllocError>
        ensures names { OnOk result (AreExactly (λ n. has_come now (value_at self.now n)) names.new.items) }
        ensures capacity { vec_capacity names.old ≤ vec_capacity names.new }
        ensures room { DueHasRoom now self.now (vec_capacity names.old) → IsOk result }
    {
        names.clear();
        for i in 0..self.moments.len() {
            let name = self.moments.place(i).name;
            if has_come(self.moments.get(name), now) {
                insert_in_order(names, name)?;
            }
        }
        Ok(())
    }
}

impl Deadlines for Scanned {
    ghost places = { λ s. s };

    fn room(&mut self, names: &[Name]) -> Result<(), AllocError> {
        self.moments.room(names)
    }

    fn set(&mut self, name: Name, moment: u64) {
        self.moments.set(name, Some(moment));
    }

    fn set_all(&mut self, moments: &[Timed]) {
        self.moments.set_all(moments);
    }

    fn clear(&mut self, name: Name) {
        self.moments.clear(name);
    }

    fn clear_all(&mut self, names: &[Name]) {
        self.moments.clear_all(names);
    }

    fn get(&self, name: Name) -> Option<u64> {
        self.moments.get(name)
    }

    fn due(&self, now: u64, names: &mut Vec<Name>) -> Result<(), AllocError> {
        self.look_through(now, names)
    }

    fn next(&self) -> Option<u64> {
        let mut least = None;
        for i in 0..self.moments.len() {
            let name = self.moments.place(i).name;
            least = lesser(least, self.moments.get(name));
        }
        least
    }
}

/// Returns the lesser of two moments, or the one that there is.
pub fn lesser(a: Option<u64>, b: Option<u64>) -> Option<u64>
    ensures { result ≡ lesser a b }
{
    match (a, b) {
        (Some(a), Some(b)) => Some(a.min(b)),
        (None, moment) | (moment, None) => moment,
    }
}

/// Where a name goes among names in order, and None where it is among them.
fn place_in_order(names: &[Name], name: Name) -> Option<usize>
    requires { ascending name_below names.now ≡ true }
    ensures inside { IfSome result (λ i. i ≤ length names.now) }
    ensures before { IfSome result (λ i. (m : FullName) → among (take i names.now) m ≡ true → name_below m name ≡ true) }
    ensures after { IfSome result (λ i. (m : FullName) → among (drop i names.now) m ≡ true → name_below name m ≡ true) }
    ensures there { IsNone result → among names.now name ≡ true }
{
    for (i, other) in names.iter().enumerate() {
        if name == *other {
            return None;
        }
        if name.is_before(*other) {
            return Some(i);
        }
    }
    Some(names.len())
}

/// Adds a name to names in order, unless it is among them.
fn insert_in_order(names: &mut Vec<Name>, name: Name) -> Result<(), AllocError>
    requires { ascending name_below names.old.items ≡ true }
    ensures capacity { vec_capacity names.old ≤ vec_capacity names.new }
    ensures full { OnErr result (vec_capacity names.old ≤ length names.old.items) }
    ensures new { OnErr result (among names.old.items name ≡ false) }
    ensures order { OnOk result (ascending name_below names.new.items ≡ true) }
    ensures exact { OnOk result ((m : FullName) → among names.new.items m ≡ among names.old.items m || same_name m name) }
{
    if let Some(i) = place_in_order(names, name) {
        names.insert(i, name)?;
    }
    Ok(())
}
