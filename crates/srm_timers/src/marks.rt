//! Who asked for names first, and until when they are held off.

ghost use Rattle.std.specs.Prelude.{◌≡◌, ◌≤◌, ◌<◌, ◌+◌, ◌*◌, [], true, unwrap_or, OnOk, IsOk};
ghost use Rattle.srm_names.specs.declared.limits.TheConstants.{MEMBERS};
ghost use Rattle.srm_deadlines.specs.Places.{value_at, has_place, HasPlaces, KeepsValues};
ghost use Rattle.srm_timers.specs.Distances.{AreDistances};
ghost use Rattle.srm_timers.specs.FixCalls.{HoldsOff, HoldAllOff, asker_at, held_off_until, held_until};
ghost use Rattle.srm_timers.specs.Marks.{HaveMarks, MarksKeepPlaces, NotesAsker, OffAsBefore};

use crate::distance::distance_in;
use crate::limits::HOLD_OFF;
use srm_deadlines::ByName;
use srm_names::{LATEST_MOMENT, LONGEST_DISTANCE, Member, Name};
use std::alloc::{AllocError, Global};
use std::marker::Model;

/// What is kept of a name: who asked for it first, and until when it is held off, in microseconds. At 0 it isn't.
#[derive(Clone, Copy, Debug)]
pub(crate) struct Mark {
    asker: Option<Member>,
    until: u64,
}

/// The marks of names, in one table, so that a name is looked up once for both.
#[derive(Drop)]
pub(crate) struct Marks {
    places: ByName<Mark>,
}

impl Model for Marks {
    ghost use Rattle.srm_timers.specs.Marks.{MarkContent, marks_of};

    ghost Value = { MarkContent };

    ghost view = { λ m. marks_of m.places };
}

impl Marks {
    /// Makes marks: nobody asked for any name, and none is held off.
    pub fn new(alloc: Global) -> Self
        ensures askers { result.askers ≡ [] }
        ensures held_off { result.held_off ≡ [] }
    {
        Marks {
            places: ByName::new(alloc),
        }
    }

    /// Makes room for marks of these names. Nothing else changes. Fails only if out of memory.
    #[tactic(auto, using(crate::proofs::Marking::keeps_askers, crate::proofs::Marking::keeps_holds, crate::proofs::Marking::marks_hold, crate::proofs::Marking::have_marks, crate::proofs::Marking::had_places))]
    pub fn room(&mut self, names: &[Name]) -> Result<(), AllocError>
        ensures askers { KeepsValues self.old.askers self.new.askers }
        ensures held_off { KeepsValues self.old.held_off self.new.held_off }
        ensures keeps_places { MarksKeepPlaces self.old self.new }
        ensures ok { OnOk result (HaveMarks names.now self.new) }
        ensures again { HasPlaces names.now self.old.held_off → IsOk result }
    {
        self.places.room(names)
    }

    /// The mark of a name, and one that says nothing where it has none.
    fn mark(&self, name: Name) -> Mark
        ensures asker { result.asker ≡ value_at self.now.askers name }
        ensures until { result.until ≡ unwrap_or (value_at self.now.held_off name) 0 }
    {
        match self.places.get(name) {
            Some(mark) => mark,
            None => Mark {
                asker: None,
                until: 0,
            },
        }
    }

    /// Returns who asked for a name first, else its source. Takes no memory.
    pub fn asker(&self, name: Name) -> Member
        ensures { result ≡ asker_at self.now.askers name }
    {
        asker_or_source(&self.mark(name), name)
    }

    /// Returns until when a name is held off, and 0 if it isn't. Takes no memory.
    pub fn until(&self, name: Name) -> u64
        ensures { result ≡ unwrap_or (value_at self.now.held_off name) 0 }
    {
        self.mark(name).until
    }

    /// Notes who asked for a name, unless one asked before. Takes no memory.
    pub fn note(&mut self, name: Name, from: Member)
        requires place { has_place self.old.askers name ≡ true }
        ensures noted { NotesAsker name from self.old.askers self.new.askers }
        ensures off { OffAsBefore self.old.held_off self.new.held_off }
        ensures keeps_places { MarksKeepPlaces self.old self.new }
    {
        let mark = self.mark(name);
        if mark.asker.is_none() {
            let noted = Mark {
                asker: Some(from),
                until: mark.until,
            };
            self.places.set(name, Some(noted));
        }
    }

    /// Holds a name off for three of these distances, unless it is held off for longer. Takes no memory.
    pub fn hold_off(&mut self, name: Name, distance: u64, now: u64)
        requires place { has_place self.old.held_off name ≡ true }
        requires distance { distance ≤ LONGEST_DISTANCE }
        requires now { now ≤ LATEST_MOMENT }
        ensures off { HoldsOff name (held_until now distance) self.old.held_off self.new.held_off }
        ensures askers { KeepsValues self.old.askers self.new.askers }
        ensures keeps_places { MarksKeepPlaces self.old self.new }
    {
        let mark = self.mark(name);
        self.hold_until(name, &mark, now + HOLD_OFF * distance);
    }

    /// Holds names off for three distances to those who asked for them first. Takes no memory.
    pub fn hold_all_off(&mut self, names: &[Name], dist: &[u64], now: u64)
        requires places { HasPlaces names.now self.old.held_off }
        requires distances { AreDistances dist.now }
        requires now { now ≤ LATEST_MOMENT }
        ensures off { HoldAllOff now dist.now names.now self.old.askers self.old.held_off self.new.held_off }
        ensures askers { KeepsValues self.old.askers self.new.askers }
        ensures keeps_places { MarksKeepPlaces self.old self.new }
    {
        for name in names {
            self.hold_for_asker(*name, dist, now);
        }
    }

    /// Holds a name off for three distances to the one who asked for it first, unless it is held off for longer.
    fn hold_for_asker(&mut self, name: Name, dist: &[u64], now: u64)
        requires place { has_place self.old.held_off name ≡ true }
        requires distances { AreDistances dist.now }
        requires now { now ≤ LATEST_MOMENT }
        ensures off { HoldsOff name (held_off_until now dist.now self.old.askers name) self.old.held_off self.new.held_off }
        ensures near { asker_at self.old.askers name < MEMBERS }
        ensures askers { KeepsValues self.old.askers self.new.askers }
        ensures keeps_places { MarksKeepPlaces self.old self.new }
    {
        let mark = self.mark(name);
        let distance = distance_in(dist, asker_or_source(&mark, name));
        self.hold_until(name, &mark, now + HOLD_OFF * distance);
    }

    /// Holds a name with this mark off until a moment, unless it is held off for longer.
    fn hold_until(&mut self, name: Name, mark: &Mark, until: u64)
        requires place { has_place self.old.held_off name ≡ true }
        requires asker { mark.now.asker ≡ value_at self.old.askers name }
        requires off { mark.now.until ≡ unwrap_or (value_at self.old.held_off name) 0 }
        ensures off { HoldsOff name until self.old.held_off self.new.held_off }
        ensures askers { KeepsValues self.old.askers self.new.askers }
        ensures keeps_places { MarksKeepPlaces self.old self.new }
    {
        if mark.until < until {
            let held = Mark {
                asker: mark.asker,
                until,
            };
            self.places.set(name, Some(held));
        }
    }
}

/// Who asked first for a name with this mark, else its source.
fn asker_or_source(mark: &Mark, name: Name) -> Member
    ensures { result ≡ unwrap_or mark.now.asker name.stream.source }
{
    match mark.asker {
        Some(member) => member,
        None => name.source(),
    }
}
