//! Repair timers: when a member repairs what others request.

ghost use Rattle.std.specs.Prelude.{◌≡◌, ◌≤◌, ◌+◌, List, [], ◌∷◌, true, not, ◌&&◌, option_to_list, vec_capacity, IfOk, OnOk, OnErr, IsOk, IfSome};
ghost use Rattle.srm_names.specs.FullName.{FullName};
ghost use Rattle.srm_names.specs.Names.{ascending, name_below};
ghost use Rattle.srm_timers.specs.Arms.{plan_of, arm_names, low_of, high_of, AreChosen, IsFix, AreFixes, wait_basis};
ghost use Rattle.srm_timers.specs.FixCalls.{Asked, Repaired, sets_fix, fix_plan, FixFits, FixAdds, FixRepairs, FixDue, FixNext, FixIsFree, FixFirstAsker, NotesRequest, FixStays, FixPlace, FixPlaces, FixReady, FixKeepsRoom, fix_basis, held_until};
ghost use Rattle.srm_deadlines.specs.Deadlines.{DueAmong, DueHasRoom};
ghost use Rattle.srm_timers.specs.Distances.{distance_to, AreDistances};
ghost use Rattle.srm_timers.specs.Expiries.{HaveRoom, AreShort};
ghost use Rattle.srm_deadlines.specs.Places.{HasPlaces, KeepsValues};

use crate::arm::{Arm, ArmKind};
use crate::distance::distance_in;
use crate::expiries::Expiries;
use crate::limits::{GREATEST_TIMER_SETTING, LONGEST_WAIT};
use crate::marks::Marks;
use crate::wait::choose_wait;
use crate::words::Words;
use srm_deadlines::Deadlines;
use srm_names::{LATEST_MOMENT, LONGEST_DISTANCE, Member, Name};
use std::alloc::{AllocError, Global};
use std::marker::Model;
use std::mem;

/// The repair timers of a member, the first asker of each name, and until when names are held off.
///
/// Moments are microseconds, at most 2^48, and distances microseconds, at most 10,000,000. After an error nothing has changed, and no
/// random number was consumed.
#[derive(Drop)]
pub struct Fixes<D: Deadlines> {
    alloc: Global,
    d1: u8,
    d2: u8,
    expiries: Expiries<D>,
    marks: Marks,
    /// Room for what `due` answers next.
    list: Vec<Name>,
}

impl<D: Deadlines> Model for Fixes<D> {
    ghost use Rattle.std.specs.Prelude.{vec_capacity};
    ghost use Rattle.srm_timers.specs.FixCalls.{FixContent, FixIsRight};

    ghost Value = { FixContent };

    ghost view = { λ a. record { d1 = a.d1; d2 = a.d2; expiries = a.expiries; askers = a.marks.askers; held_off = a.marks.held_off; due_room = vec_capacity a.list } };

    ghost invariant = { λ a. FixIsRight (record { d1 = a.d1; d2 = a.d2; expiries = a.expiries; askers = a.marks.askers; held_off = a.marks.held_off; due_room = vec_capacity a.list }) };
}

impl<D: Deadlines> Fixes<D> {
    /// Makes repair timers over deadlines without places. None runs. A wait lies between `d1` and `d1 + d2` distances to the member that asks; each is 0 to 16.
    /// Takes no memory.
    pub fn new(alloc: Global, deadlines: D, d1: u8, d2: u8) -> Self
        requires empty { D.places deadlines ≡ [] }
        requires d1 { d1 ≤ GREATEST_TIMER_SETTING }
        requires d2 { d2 ≤ GREATEST_TIMER_SETTING }
        ensures { FixFits d1 d2 [] result }
    {
        Fixes {
            alloc,
            d1,
            d2,
            expiries: Expiries::new(alloc, deadlines),
            marks: Marks::new(alloc),
            list: Vec::new(alloc),
        }
    }

    /// Makes room: afterwards every call on one of these names succeeds, and one `due` with no other names due, and `set_all` takes no
    /// memory for them. Nothing else changes. Fails only if out of memory.
    pub fn room(&mut self, names: &[Name]) -> Result<(), AllocError>
        ensures kept { FixStays self.old self.new }
        ensures expiries { KeepsValues self.old.expiries.places self.new.expiries.places }
        ensures keeps_room { FixKeepsRoom self.old self.new }
        ensures ready { OnOk result (FixReady names.now self.new) }
    {
        self.make_places(names)?;
        self.expiries.room(names)?;
        self.list.reserve(names.len())?;
        Ok(())
    }

    /// Makes room: afterwards every call on this name alone succeeds. Nothing else changes. Fails only if out of memory.
    #[tactic(auto, using(crate::proofs::FixSteps::one_place, crate::proofs::FixSteps::one_placed))]
    pub fn make_place(&mut self, name: Name) -> Result<(), AllocError>
        ensures kept { FixStays self.old self.new }
        ensures keeps_room { FixKeepsRoom self.old self.new }
        ensures d1 { self.new.d1 ≡ self.old.d1 }
        ensures d2 { self.new.d2 ≡ self.old.d2 }
        ensures ok { OnOk result (FixPlace self.new name) }
        ensures again { FixPlace self.old name → IsOk result }
    {
        self.make_places(&[name])
    }

    /// Makes room: afterwards every call on one of these names alone succeeds. Nothing else changes. Fails only if out of memory.
    #[tactic(auto, using(crate::proofs::FixSteps::fix_stays, crate::proofs::AskSteps::keeps_self))]
    pub fn make_places(&mut self, names: &[Name]) -> Result<(), AllocError>
        ensures kept { FixStays self.old self.new }
        ensures expiries { KeepsValues self.old.expiries.places self.new.expiries.places }
        ensures keeps_room { FixKeepsRoom self.old self.new }
        ensures d1 { self.new.d1 ≡ self.old.d1 }
        ensures d2 { self.new.d2 ≡ self.old.d2 }
        ensures ok { OnOk result (FixPlaces names.now self.new) }
        ensures again { FixPlaces names.now self.old → IsOk result }
    {
        self.expiries.make_places(names)?;
        self.marks.room(names)
    }

    /// Notes a request for a name. The first member that asks counts as its first asker, whether the name is held or not. Sets a timer and returns it, and consumes
    /// one random number, if the name is held, none of its timers runs and it isn't held off; else returns `None`.
    ///
    /// Fails only if out of memory.
    #[tactic(auto, using(crate::proofs::FixSteps::adds_after, crate::proofs::FixSteps::answers_after))]
    pub fn heard_request<W: Words>(
        &mut self,
        name: Name,
        from: Member,
        held: bool,
        dist: &[u64],
        now: u64,
        words: &mut W,
    ) -> Result<Option<Arm>, AllocError>
        requires distances { AreDistances dist.now }
        requires now { now ≤ LATEST_MOMENT }
        ensures fits { IfOk result (λ arm. FixAdds (Asked name from ∷ sets_fix now (option_to_list arm)) self.old self.new) }
        ensures arm { IfOk result (NotesRequest name (distance_to dist.now from) held now self.old) }
        ensures wait_basis { IfOk result (λ arm. IfSome arm (λ a. wait_basis a ≡ fix_basis (distance_to dist.now from))) }
        ensures chosen { IfOk result (λ arm. AreChosen W.next_word (low_of self.old.d1) (high_of self.old.d1 self.old.d2) words.old (option_to_list arm) words.new) }
        ensures kept { OnErr result (FixStays self.old self.new) }
        ensures unchosen { OnErr result (words.new ≡ words.old) }
        ensures keeps_room { FixKeepsRoom self.old self.new }
        ensures room { FixPlace self.old name → IsOk result }
    {
        self.make_place(name)?;
        Ok(self.note_request(name, from, held, dist, now, words))
    }

    /// Does what [`heard_request`](Fixes::heard_request) does, for a name that has room. Takes no memory.
    #[tactic(auto, using(crate::proofs::FixSteps::asks_then_sets, crate::proofs::FixSteps::answers_with, crate::proofs::FixSteps::answers_not))]
    pub fn note_request<W: Words>(
        &mut self,
        name: Name,
        from: Member,
        held: bool,
        dist: &[u64],
        now: u64,
        words: &mut W,
    ) -> Option<Arm>
        requires place { FixPlace self.old name }
        requires distances { AreDistances dist.now }
        requires now { now ≤ LATEST_MOMENT }
        ensures fits { FixAdds (Asked name from ∷ sets_fix now (option_to_list result)) self.old self.new }
        ensures arm { NotesRequest name (distance_to dist.now from) held now self.old result }
        ensures wait_basis { IfSome result (λ arm. wait_basis arm ≡ fix_basis (distance_to dist.now from)) }
        ensures chosen { AreChosen W.next_word (low_of self.old.d1) (high_of self.old.d1 self.old.d2) words.old (option_to_list result) words.new }
        ensures keeps_room { FixKeepsRoom self.old self.new }
    {
        let answers = both(held, self.is_free(name, now));
        self.note_asker(name, from);
        if answers {
            let arm = self.arm(name, distance_in(dist, from), words);
            self.set(now, &arm);
            Some(arm)
        } else {
            None
        }
    }

    /// Notes a repair by another: cancels the name's timer, and holds the name off for three distances to its first asker, or to its
    /// source if nobody asked, unless it is held off for longer. Fails only if out of memory.
    #[tactic(auto, using(crate::proofs::FixSteps::repairs_after))]
    pub fn heard_repair(&mut self, name: Name, dist: &[u64], now: u64) -> Result<(), AllocError>
        requires distances { AreDistances dist.now }
        requires now { now ≤ LATEST_MOMENT }
        ensures fits { OnOk result (FixRepairs now dist.now (name ∷ []) self.old self.new) }
        ensures kept { OnErr result (FixStays self.old self.new) }
        ensures keeps_room { FixKeepsRoom self.old self.new }
        ensures room { FixPlace self.old name → IsOk result }
    {
        self.make_place(name)?;
        self.note_repair(name, dist, now);
        Ok(())
    }

    /// Returns the names whose timers have expired, in order of name: those that `due` would return. They come in the list that is
    /// passed in, in place of what it holds.
    ///
    /// Fails only if that list has too little room and no memory is left. It needs no [`room`](Fixes::room): a caller that makes room for
    /// what is due asks here which names these are.
    #[tactic(auto, using(crate::proofs::FixSteps::fix_due_is))]
    pub fn pending(&self, now: u64, names: Vec<Name>) -> Result<Vec<Name>, AllocError>
        ensures due { IfOk result (λ names. FixDue now self.now names.items) }
        ensures among { IfOk result (λ names. DueAmong now self.now.expiries.places names.items) }
        ensures rising { IfOk result (λ names. ascending name_below names.items ≡ true) }
        ensures room { DueHasRoom now self.now.expiries.places (vec_capacity names) → IsOk result }
    {
        let mut names = names;
        self.expiries.due(now, &mut names)?;
        Ok(names)
    }

    /// Returns the names whose timers have expired, in order of name, to be repaired now. Their timers are gone, and they are held off as
    /// if a repair had been heard. Fails only if out of memory.
    #[tactic(auto, using(crate::proofs::FixSteps::fix_due_is, crate::proofs::FixSteps::fix_stays, crate::proofs::AskSteps::keeps_self))]
    pub fn due(&mut self, now: u64, dist: &[u64]) -> Result<Vec<Name>, AllocError>
        requires distances { AreDistances dist.now }
        requires now { now ≤ LATEST_MOMENT }
        ensures fits { IfOk result (λ names. FixRepairs now dist.now names.items self.old self.new) }
        ensures names { IfOk result (λ names. FixDue now self.old names.items) }
        ensures kept { OnErr result (FixStays self.old self.new) }
        ensures keeps_room { FixKeepsRoom (record self.old { due_room = 0 }) self.new }
        ensures list { OnErr result (self.old.due_room ≤ self.new.due_room) }
        ensures room { (names : List FullName) → FixReady names self.old → DueAmong now self.old.expiries.places names → IsOk result }
    {
        self.expiries.due(now, &mut self.list)?;
        self.marks.room(&self.list)?;
        let names = mem::replace(&mut self.list, Vec::new(self.alloc));
        self.repair_all(&names, dist, now);
        Ok(names)
    }

    /// Makes room to hold these names off. Nothing else changes. Fails only if out of memory.
    #[tactic(auto, using(crate::proofs::FixSteps::fix_stays, crate::proofs::AskSteps::keeps_self))]
    pub fn room_to_hold_off(&mut self, names: &[Name]) -> Result<(), AllocError>
        ensures kept { FixStays self.old self.new }
        ensures keeps_room { FixKeepsRoom self.old self.new }
        ensures places { OnOk result (HasPlaces names.now self.new.held_off) }
    {
        self.marks.room(names)
    }

    /// Notes that names, which rise, are repaired now: what `due` does with the names that [`pending`](Fixes::pending) returns, for a
    /// caller that has these and made [room](Fixes::room_to_hold_off). Takes no memory.
    #[tactic(auto, using(crate::proofs::FixSteps::repairs_all))]
    pub fn repair_all(&mut self, names: &[Name], dist: &[u64], now: u64)
        requires rising { ascending name_below names.now ≡ true }
        requires places { HasPlaces names.now self.old.held_off }
        requires distances { AreDistances dist.now }
        requires now { now ≤ LATEST_MOMENT }
        ensures fits { FixRepairs now dist.now names.now self.old self.new }
        ensures keeps_room { FixKeepsRoom self.old self.new }
    {
        self.expiries.clear_all(names);
        self.marks.hold_all_off(names, dist, now);
    }

    /// Does what [`heard_repair`](Fixes::heard_repair) does, for a name that has room. Takes no memory.
    pub fn note_repair(&mut self, name: Name, dist: &[u64], now: u64)
        requires place { FixPlace self.old name }
        requires distances { AreDistances dist.now }
        requires now { now ≤ LATEST_MOMENT }
        ensures fits { FixRepairs now dist.now (name ∷ []) self.old self.new }
        ensures keeps_room { FixKeepsRoom self.old self.new }
    {
        self.repair_all(&[name], dist, now);
    }

    /// Returns when the first timer expires, in microseconds; `None` if none runs. Takes no memory.
    #[tactic(auto, using(crate::proofs::FixSteps::fix_next_is))]
    pub fn next(&self) -> Option<u64>
        ensures { FixNext self.now result }
    {
        self.expiries.next()
    }

    /// Returns whether a request for a held name, heard now, sets its timer: none runs, and the name isn't held off. Takes no memory.
    #[tactic(auto, using(crate::proofs::FixSteps::is_free_is))]
    pub fn is_free(&self, name: Name, now: u64) -> bool
        ensures { FixIsFree name now self.now result }
    {
        let runs = self.expiries.get(name).is_some();
        let off = now < self.marks.until(name);
        neither(runs, off)
    }

    /// Returns the first asker of a name, or its source if nobody asked. Takes no memory.
    #[tactic(auto, using(crate::proofs::FixSteps::first_is))]
    pub fn first_asker(&self, name: Name) -> Member
        ensures { FixFirstAsker name self.now result }
    {
        self.marks.asker(name)
    }

    /// Notes who asked for a name, unless one asked before. Takes no memory.
    #[tactic(auto, using(crate::proofs::FixSteps::note_adds))]
    pub fn note_asker(&mut self, name: Name, from: Member)
        requires { FixPlace self.old name }
        ensures fits { FixAdds (Asked name from ∷ []) self.old self.new }
        ensures keeps_room { FixKeepsRoom self.old self.new }
        ensures d1 { self.new.d1 ≡ self.old.d1 }
        ensures d2 { self.new.d2 ≡ self.old.d2 }
    {
        self.marks.note(name, from);
    }

    /// Returns a repair timer for a name, over a distance in microseconds, at most 10,000,000. Consumes one random number for its wait. Sets no timer.
    pub fn arm<W: Words>(&self, name: Name, distance: u64, words: &mut W) -> Arm
        requires { distance ≤ LONGEST_DISTANCE }
        ensures plan { plan_of result ≡ fix_plan name distance }
        ensures chosen { AreChosen W.next_word (low_of self.now.d1) (high_of self.now.d1 self.now.d2) words.old (result ∷ []) words.new }
        ensures fix { IsFix result }
        ensures short { result.wait ≤ LONGEST_WAIT }
    {
        let wait = choose_wait(self.d1, self.d2, 0, distance, words);
        Arm {
            kind: ArmKind::Fix,
            name,
            exponent: 0,
            distance,
            wait,
        }
    }

    /// Sets one timer. The caller has made room. Takes no memory.
    #[tactic(auto, using(crate::proofs::FixSteps::set_adds_fix))]
    fn set(&mut self, now: u64, arm: &Arm)
        requires place { FixPlace self.old arm.now.name }
        requires now { now ≤ LATEST_MOMENT }
        requires short { arm.now.wait ≤ LONGEST_WAIT }
        ensures fits { FixAdds (sets_fix now (arm.now ∷ [])) self.old self.new }
        ensures keeps_room { FixKeepsRoom self.old self.new }
    {
        self.expiries.set(arm.name, now + arm.wait);
    }

    /// Sets these timers of repairs, whose names rise and have room. Takes no memory.
    #[tactic(auto, using(crate::proofs::FixSteps::sets_adds_fix))]
    pub fn set_all(&mut self, now: u64, arms: &[Arm])
        requires rising { ascending name_below (arm_names arms.now) ≡ true }
        requires room { HaveRoom (arm_names arms.now) self.old.expiries }
        requires now { now ≤ LATEST_MOMENT }
        requires fixes { AreFixes arms.now }
        requires short { AreShort arms.now }
        ensures fits { FixAdds (sets_fix now arms.now) self.old self.new }
        ensures keeps_room { FixKeepsRoom self.old self.new }
    {
        self.expiries.set_all(now, arms);
    }

    /// Notes that a name was repaired, by this member or another: cancels its timer, and holds it off for three of these distances,
    /// unless it is held off for longer. Takes no memory.
    #[tactic(auto, using(crate::proofs::FixSteps::repaired_adds))]
    pub fn repaired(&mut self, name: Name, distance: u64, now: u64)
        requires place { FixPlace self.old name }
        requires distance { distance ≤ LONGEST_DISTANCE }
        requires now { now ≤ LATEST_MOMENT }
        ensures fits { FixAdds (Repaired name (held_until now distance) ∷ []) self.old self.new }
        ensures keeps_room { FixKeepsRoom self.old self.new }
    {
        self.expiries.clear(name);
        self.marks.hold_off(name, distance, now);
    }
}

fn neither(a: bool, b: bool) -> bool
    ensures { result ≡ (not a && not b) }
{
    !a && !b
}

fn both(a: bool, b: bool) -> bool
    ensures { result ≡ (a && b) }
{
    a && b
}
