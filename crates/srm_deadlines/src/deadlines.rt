//! Moments by name.

ghost use Rattle.std.specs.Prelude.{◌≡◌, ℕ, ◌≤◌, List, [], true, vec_capacity, OnOk, IsOk, Some, None};
ghost use Rattle.srm_names.specs.Names.{AreExactly, ascending, name_below};
ghost use Rattle.srm_deadlines.specs.declared.by_name.NamedValue.{NamedValue as APlace};
ghost use Rattle.srm_names.specs.Moments.{has_come};
ghost use Rattle.srm_deadlines.specs.Deadlines.{DueHasRoom};
ghost use Rattle.srm_deadlines.specs.Places.{value_at, has_place, names_of, KeepsPlaces, GivesPlaces, KeepsValues, Sets, SetsAll, ClearsAll, HasPlaces, IsLeast};

use crate::timed::Timed;
use srm_names::Name;
use std::alloc::AllocError;

/// Deadlines by name, in microseconds.
///
/// Only [`room`](Deadlines::room) and [`due`](Deadlines::due) take memory. A name needs a place before its deadline is set. Only `room`
/// makes places, and a place stays.
pub trait Deadlines {
    // the names with a place, and the moments of those that have one, however they are kept
    ghost places: { Self → List (APlace ℕ) };

    /// Makes places for names. No deadline changes. Fails only if out of memory; no place is lost then.
    fn room(&mut self, names: &[Name]) -> Result<(), AllocError>
        ensures kept { KeepsValues (places self.old) (places self.new) }
        ensures keeps_places { KeepsPlaces (places self.old) (places self.new) }
        ensures only { GivesPlaces names.now (places self.old) (places self.new) }
        ensures ok { OnOk result (HasPlaces names.now (places self.new)) }
        ensures again { HasPlaces names.now (places self.old) → IsOk result };

    /// Sets the deadline of a name that has a place.
    fn set(&mut self, name: Name, moment: u64)
        requires { has_place (places self.old) name ≡ true }
        ensures sets { Sets name (Some moment) (places self.old) (places self.new) }
        ensures keeps_places { KeepsPlaces (places self.old) (places self.new) }
        ensures only { GivesPlaces [] (places self.old) (places self.new) };

    /// Sets the deadlines of names that have places. The names rise.
    fn set_all(&mut self, moments: &[Timed])
        requires rising { ascending name_below (names_of moments.now) ≡ true }
        requires places { HasPlaces (names_of moments.now) (places self.old) }
        ensures sets { SetsAll moments.now (places self.old) (places self.new) }
        ensures keeps_places { KeepsPlaces (places self.old) (places self.new) }
        ensures only { GivesPlaces [] (places self.old) (places self.new) };

    /// Clears a name's deadline, if it has one. Its place stays.
    fn clear(&mut self, name: Name)
        ensures sets { Sets name None (places self.old) (places self.new) }
        ensures keeps_places { KeepsPlaces (places self.old) (places self.new) }
        ensures only { GivesPlaces [] (places self.old) (places self.new) };

    /// Clears the deadlines of names, which rise. Their places stay.
    fn clear_all(&mut self, names: &[Name])
        requires { ascending name_below names.now ≡ true }
        ensures sets { ClearsAll names.now (places self.old) (places self.new) }
        ensures keeps_places { KeepsPlaces (places self.old) (places self.new) }
        ensures only { GivesPlaces [] (places self.old) (places self.new) };

    /// Returns the deadline of a name, in microseconds.
    fn get(&self, name: Name) -> Option<u64>
        ensures { result ≡ value_at (places self.now) name };

    /// Puts the names whose deadlines have expired at `now` into a list, in order of name, in place of what it holds.
    ///
    /// Fails only if the list has too little room for them and memory ran out; its contents are then unspecified.
    fn due(&self, now: u64, names: &mut Vec<Name>) -> Result<(), AllocError>
        ensures names { OnOk result (AreExactly (λ n. has_come now (value_at (places self.now) n)) names.new.items) }
        ensures capacity { vec_capacity names.old ≤ vec_capacity names.new }
        ensures room { DueHasRoom now (places self.now) (vec_capacity names.old) → IsOk result };

    /// Returns the first deadline, in microseconds; `None` if there is none.
    fn next(&self) -> Option<u64>
        ensures { IsLeast (places self.now) result };
}
