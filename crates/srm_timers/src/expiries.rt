//! When timers expire.

ghost use Rattle.std.specs.Prelude.{◌≡◌, ◌≤◌, ◌+◌, ◌++◌, true, map, length, vec_len, vec_capacity, Some, None, OnOk, IsOk};
ghost use Rattle.srm_names.specs.Names.{AreExactly, ascending, name_below};
ghost use Rattle.srm_timers.specs.Arms.{arm_names};
ghost use Rattle.srm_names.specs.Moments.{has_come};
ghost use Rattle.srm_deadlines.specs.Deadlines.{DueHasRoom};
ghost use Rattle.srm_timers.specs.Expiries.{timed_at, SetsExpiries, AreShort, HaveRoom, KeepsRoom};
ghost use Rattle.srm_deadlines.specs.Places.{value_at, has_place, KeepsValues, Sets, ClearsAll, IsLeast, HasPlaces};

use crate::arm::Arm;
use srm_deadlines::{Deadlines, Timed};
use srm_names::{LATEST_MOMENT, Name};
use std::alloc::{AllocError, Global};
use std::marker::Model;

/// Deadlines, and an empty list with room to hand over several at once.
#[derive(Drop)]
pub(crate) struct Expiries<D: Deadlines> {
    deadlines: D,
    moments: Vec<Timed>,
}

impl<D: Deadlines> Model for Expiries<D> {
    ghost use Rattle.std.specs.Prelude.{◌≡◌, [], vec_capacity};
    ghost use Rattle.srm_timers.specs.Expiries.{ExpiryContent};

    ghost Value = { ExpiryContent };

    ghost view = { λ e. record { places = D.places e.deadlines; room = vec_capacity e.moments } };

    ghost invariant = { λ e. e.moments.items ≡ [] };
}

impl<D: Deadlines> Expiries<D> {
    /// Makes expiries over deadlines, with an empty list. Takes no memory.
    pub fn new(alloc: Global, deadlines: D) -> Self
        ensures { result.places ≡ D.places deadlines }
    {
        Expiries {
            deadlines,
            moments: Vec::new(alloc),
        }
    }

    /// Makes room to set each of these names by itself. No moment changes.
    pub fn make_places(&mut self, names: &[Name]) -> Result<(), AllocError>
        ensures kept { KeepsValues self.old.places self.new.places }
        ensures keeps_room { KeepsRoom self.old self.new }
        ensures ok { OnOk result (HasPlaces names.now self.new.places) }
        ensures again { HasPlaces names.now self.old.places → IsOk result }
    {
        self.deadlines.room(names)
    }

    /// Makes room to set all these names in one call. No moment changes.
    pub fn room(&mut self, names: &[Name]) -> Result<(), AllocError>
        ensures kept { KeepsValues self.old.places self.new.places }
        ensures keeps_room { KeepsRoom self.old self.new }
        ensures ok { OnOk result (HaveRoom names.now self.new) }
        ensures again { HaveRoom names.now self.old → IsOk result }
    {
        self.deadlines.room(names)?;
        self.reserve(names.len())
    }

    /// Makes room to set so many names that have places in one call. No moment changes.
    pub fn reserve(&mut self, count: usize) -> Result<(), AllocError>
        ensures places { self.new.places ≡ self.old.places }
        ensures room { self.old.room ≤ self.new.room }
        ensures ok { OnOk result (count ≤ self.new.room) }
        ensures again { count ≤ self.old.room → IsOk result }
    {
        self.moments.reserve(count)
    }

    /// Returns when the timer of a name expires, in microseconds; `None` if none runs.
    pub fn get(&self, name: Name) -> Option<u64>
        ensures { result ≡ value_at self.now.places name }
    {
        self.deadlines.get(name)
    }

    /// Lets one timer run until a moment.
    pub fn set(&mut self, name: Name, moment: u64)
        requires { has_place self.old.places name ≡ true }
        ensures sets { Sets name (Some moment) self.old.places self.new.places }
        ensures keeps_room { KeepsRoom self.old self.new }
    {
        self.deadlines.set(name, moment);
    }

    /// Lets these timers run from now on.
    pub fn set_all(&mut self, now: u64, arms: &[Arm])
        requires rising { ascending name_below (arm_names arms.now) ≡ true }
        requires room { HaveRoom (arm_names arms.now) self.old }
        requires now { now ≤ LATEST_MOMENT }
        requires short { AreShort arms.now }
        ensures sets { SetsExpiries now arms.now self.old.places self.new.places }
        ensures keeps_room { KeepsRoom self.old self.new }
    {
        add_moments(&mut self.moments, now, arms);
        self.deadlines.set_all(&self.moments);
        self.moments.clear();
    }

    /// Clears the timer of a name, if one runs.
    pub fn clear(&mut self, name: Name)
        ensures sets { Sets name None self.old.places self.new.places }
        ensures keeps_room { KeepsRoom self.old self.new }
    {
        self.deadlines.clear(name);
    }

    /// Clears the timers of names that rise.
    pub fn clear_all(&mut self, names: &[Name])
        requires { ascending name_below names.now ≡ true }
        ensures sets { ClearsAll names.now self.old.places self.new.places }
        ensures keeps_room { KeepsRoom self.old self.new }
    {
        self.deadlines.clear_all(names);
    }

    /// Puts the names whose deadlines have expired into a list, in order of name, in place of what it holds.
    pub fn due(&self, now: u64, names: &mut Vec<Name>) -> Result<(), AllocError>
        ensures names { OnOk result (AreExactly (λ n. has_come now (value_at self.now.places n)) names.new.items) }
        ensures capacity { vec_capacity names.old ≤ vec_capacity names.new }
        ensures room { DueHasRoom now self.now.places (vec_capacity names.old) → IsOk result }
    {
        self.deadlines.due(now, names)
    }

    /// Returns the least moment.
    pub fn next(&self) -> Option<u64>
        ensures { IsLeast self.now.places result }
    {
        self.deadlines.next()
    }
}

/// Adds when timers that are set now expire.
fn add_moments(moments: &mut Vec<Timed>, now: u64, arms: &[Arm])
    requires room { vec_len moments.old + length arms.now ≤ vec_capacity moments.old }
    requires now { now ≤ LATEST_MOMENT }
    requires short { AreShort arms.now }
    ensures items { moments.new.items ≡ moments.old.items ++ map (timed_at now) arms.now }
    ensures capacity { vec_capacity moments.old ≤ vec_capacity moments.new }
{
    for arm in arms {
        let moment = now + arm.wait;
        moments
            .push(Timed {
                name: arm.name,
                moment,
            })
            .unwrap();
    }
}
