//! Request timers: when a member asks for what it misses.

ghost use Rattle.std.specs.Prelude.{◌≡◌, ℕ, ◌≤◌, List, [], ◌∷◌, true, map, length, option_map, option_to_list, vec_capacity, IfOk, OnOk, OnErr, IsOk, IfSome};
ghost use Rattle.srm_names.specs.FullName.{FullName};
ghost use Rattle.srm_names.specs.Names.{among, ascending, name_below};
ghost use Rattle.srm_timers.specs.Arms.{backs_off, next_exponent, plan_of, arm_names, low_of, high_of, AreChosen, IsAsk, AreAsks, AreOfMembers};
ghost use Rattle.srm_timers.specs.declared.arm.ArmKind.TheVariants.{Ask};
ghost use Rattle.srm_timers.specs.AskCalls.{AskCall, Gained, ask_timer, sets, ask_plan, first_exponent, found_plan, again_plan, AskFits, AskAdds, AskExponentWhenHeard, AskExponentWhenDue, AskNext, AskDue, ArmsOfFound, ArmsSetAgain, AskStays, AskReady, DetectReady, DueReady, DetectAndDueReady, AskKeepsRoom, DetectStaysReady, DueStaysReady, AskTimersRun};
ghost use Rattle.srm_deadlines.specs.Deadlines.{DueAmong, DueHasRoom};
ghost use Rattle.srm_timers.specs.Distances.{distance_to, AreDistances};
ghost use Rattle.srm_timers.specs.Expiries.{AreShort};
ghost use Rattle.srm_deadlines.specs.Places.{value_at, has_place, KeepsValues};

use crate::arm::{Arm, ArmKind, Armed};
use crate::distance::distance_in;
use crate::expiries::Expiries;
use crate::limits::{GREATEST_EXPONENT, GREATEST_TIMER_SETTING, LONGEST_WAIT};
use crate::timers::{arm_at, set_timers};
use crate::wait::choose_wait;
use crate::words::Words;
use srm_deadlines::{ByName, Deadlines};
use srm_names::{LATEST_MOMENT, LONGEST_DISTANCE, Name};
use std::alloc::{AllocError, Global};
use std::marker::Model;
use std::mem;

/// The request timers of a member: one for each missing name.
///
/// Moments are microseconds, at most 2^48, and distances microseconds, at most 10,000,000. `dist` has the distance to each member by its number, as `Distances::all`
/// returns it. After an error nothing has changed, and no random number was consumed.
#[derive(Drop)]
pub struct Asks<D: Deadlines> {
    alloc: Global,
    c1: u8,
    c2: u8,
    expiries: Expiries<D>,
    timers: ByName<Armed>,
    /// Empty, with room for what `detect` answers next.
    detect_list: Vec<Arm>,
    /// Empty, with room for what `due` answers next.
    due_list: Vec<Arm>,
    /// Room for the names that `due` looks up.
    names: Vec<Name>,
}

impl<D: Deadlines> Model for Asks<D> {
    ghost use Rattle.std.specs.Prelude.{vec_capacity};
    ghost use Rattle.srm_timers.specs.AskCalls.{AskContent, AskIsRight};

    ghost Value = { AskContent };

    ghost view = { λ a. record { c1 = a.c1; c2 = a.c2; expiries = a.expiries; timers = a.timers; detect_room = vec_capacity a.detect_list; due_room = vec_capacity a.due_list; names_room = vec_capacity a.names } };

    ghost invariant = { λ a. AskIsRight (record { c1 = a.c1; c2 = a.c2; expiries = a.expiries; timers = a.timers; detect_room = vec_capacity a.detect_list; due_room = vec_capacity a.due_list; names_room = vec_capacity a.names }) a.detect_list.items a.due_list.items };
}

impl<D: Deadlines> Asks<D> {
    /// Makes request timers over deadlines without places. None runs. The first wait for a name lies between `c1` and `c1 + c2` distances to its source; each is 0
    /// to 16. Takes no memory.
    pub fn new(alloc: Global, deadlines: D, c1: u8, c2: u8) -> Self
        requires empty { D.places deadlines ≡ [] }
        requires c1 { c1 ≤ GREATEST_TIMER_SETTING }
        requires c2 { c2 ≤ GREATEST_TIMER_SETTING }
        ensures { AskFits c1 c2 [] result }
    {
        Asks {
            alloc,
            c1,
            c2,
            expiries: Expiries::new(alloc, deadlines),
            timers: ByName::new(alloc),
            detect_list: Vec::new(alloc),
            due_list: Vec::new(alloc),
            names: Vec::new(alloc),
        }
    }

    /// Makes room: afterwards one `detect` of these names and one `due` with no other names due succeed in either order, and `set_all`
    /// takes no memory for them. No timer changes.
    ///
    /// Fails only if out of memory; earlier room stays.
    pub fn room(&mut self, names: &[Name]) -> Result<(), AllocError>
        ensures kept { AskStays self.old self.new }
        ensures expiries { KeepsValues self.old.expiries.places self.new.expiries.places }
        ensures keeps_room { AskKeepsRoom self.old self.new }
        ensures ready { OnOk result (DetectAndDueReady names.now self.new) }
    {
        self.room_to_set(names)?;
        self.names.reserve(names.len())?;
        self.detect_list.reserve(names.len())?;
        self.due_list.reserve(names.len())?;
        Ok(())
    }

    /// Makes room to set the timers of these names in one call.
    #[tactic(auto, using(crate::proofs::AskSteps::stays_kept, crate::proofs::AskSteps::keeps_self))]
    fn room_to_set(&mut self, names: &[Name]) -> Result<(), AllocError>
        ensures kept { AskStays self.old self.new }
        ensures timers { (n : FullName) → value_at self.new.timers n ≡ value_at self.old.timers n }
        ensures expiries { KeepsValues self.old.expiries.places self.new.expiries.places }
        ensures c1 { self.new.c1 ≡ self.old.c1 }
        ensures c2 { self.new.c2 ≡ self.old.c2 }
        ensures detect_room { self.new.detect_room ≡ self.old.detect_room }
        ensures due_room { self.new.due_room ≡ self.old.due_room }
        ensures keeps_room { AskKeepsRoom self.old self.new }
        ensures ok { OnOk result (AskReady names.now self.new) }
        ensures again { AskReady names.now self.old → IsOk result }
    {
        self.expiries.room(names)?;
        self.timers.room(names)
    }

    /// The empty list for what `detect` answers, with room for so many arms.
    #[tactic(auto, using(crate::proofs::AskSteps::stays_kept, crate::proofs::AskSteps::keeps_self))]
    fn take_list(&mut self, count: usize) -> Result<Vec<Arm>, AllocError>
        ensures same { self.new ≡ record self.old { detect_room = self.new.detect_room } }
        ensures kept { AskStays self.old self.new }
        ensures empty { IfOk result (λ list. list.items ≡ []) }
        ensures capacity { IfOk result (λ list. count ≤ vec_capacity list) }
        ensures list { OnErr result (self.old.detect_room ≤ self.new.detect_room) }
        ensures again { count ≤ self.old.detect_room → IsOk result }
    {
        self.detect_list.reserve(count)?;
        Ok(mem::replace(&mut self.detect_list, Vec::new(self.alloc)))
    }

    /// Sets timers for names, which rise, that were found missing, and returns them in order of name. The exponent is 1 for a name among
    /// `asked`, where a request was heard, else 0. Consumes one random number for each.
    ///
    /// Fails only if out of memory, and then sets none. Room for `due` stays.
    #[tactic(auto, using(crate::proofs::AskSteps::sets_after, crate::proofs::AskSteps::found_rise, crate::proofs::Fitting::as_many))]
    pub fn detect<W: Words>(
        &mut self,
        names: &[Name],
        asked: &[Name],
        dist: &[u64],
        now: u64,
        words: &mut W,
    ) -> Result<Vec<Arm>, AllocError>
        requires rising { ascending name_below names.now ≡ true }
        requires distances { AreDistances dist.now }
        requires now { now ≤ LATEST_MOMENT }
        ensures fits { IfOk result (λ arms. AskAdds (sets now arms.items) self.old self.new) }
        ensures arms { IfOk result (λ arms. ArmsOfFound names.now asked.now dist.now arms.items) }
        ensures few { IfOk result (λ arms. length arms.items ≤ length names.now) }
        ensures chosen { IfOk result (λ arms. AreChosen W.next_word (low_of self.old.c1) (high_of self.old.c1 self.old.c2) words.old arms.items words.new) }
        ensures kept { OnErr result (AskStays self.old self.new) }
        ensures unchosen { OnErr result (words.new ≡ words.old) }
        ensures keeps_room { AskKeepsRoom (record self.old { detect_room = 0 }) self.new }
        ensures list { OnErr result (self.old.detect_room ≤ self.new.detect_room) }
        ensures room { DetectReady names.now self.old → IsOk result }
        ensures due { DueStaysReady self.old self.new }
    {
        self.room_to_set(names)?;
        let list = self.take_list(names.len())?;
        let arms = self.found(list, names, asked, dist, words);
        self.set_all(now, &arms);
        Ok(arms)
    }

    /// Adds the timers of names that were found missing to an empty list that has room for them.
    fn found<W: Words>(
        &self,
        mut arms: Vec<Arm>,
        names: &[Name],
        asked: &[Name],
        dist: &[u64],
        words: &mut W,
    ) -> Vec<Arm>
        requires empty { arms.items ≡ [] }
        requires room { length names.now ≤ vec_capacity arms }
        requires rising { ascending name_below names.now ≡ true }
        requires distances { AreDistances dist.now }
        ensures arms { ArmsOfFound names.now asked.now dist.now result.items }
        ensures plans { map plan_of result.items ≡ map (found_plan asked.now dist.now) names.now }
        ensures chosen { AreChosen W.next_word (low_of self.now.c1) (high_of self.now.c1 self.now.c2) words.old result.items words.new }
        ensures asks { AreAsks result.items }
        ensures short { AreShort result.items }
    {
        for name in names {
            let exponent = first_exponent(asked, *name);
            let arm = self.arm(*name, exponent, distance_in(dist, name.source()), words);
            arms.push(arm).unwrap();
        }
        arms
    }

    /// Notes a request for a name that another sent: sets its timer again, one exponent higher, and returns it. Returns `None` if no timer runs, or if its exponent
    /// isn't 0 and the request comes before its ignore moment. Consumes one random number if it returns a timer. Takes no memory.
    pub fn heard_request<W: Words>(
        &mut self,
        name: Name,
        dist: &[u64],
        now: u64,
        words: &mut W,
    ) -> Option<Arm>
        requires distances { AreDistances dist.now }
        requires now { now ≤ LATEST_MOMENT }
        ensures fits { AskAdds (sets now (option_to_list result)) self.old self.new }
        ensures arm { (c1 c2 : ℕ) (calls : List AskCall) → AskFits c1 c2 calls self.old
            → option_map plan_of result ≡ option_map (ask_plan name (distance_to dist.now name.stream.source)) (backs_off now (ask_timer calls name)) }
        ensures kind { IfSome result (λ arm. arm.kind ≡ Ask) }
        ensures chosen { AreChosen W.next_word (low_of self.old.c1) (high_of self.old.c1 self.old.c2) words.old (option_to_list result) words.new }
        ensures keeps_room { AskKeepsRoom self.old self.new }
    {
        let _ = &self.expiries;
        let exponent = self.exponent_when_heard(name, now)?;
        let arm = self.arm(name, exponent, distance_in(dist, name.source()), words);
        self.set(now, &arm);
        Some(arm)
    }

    /// Notes that a name was gained: its timer is gone. Takes no memory.
    #[tactic(auto, using(crate::proofs::AskSteps::gained_adds))]
    pub fn gained(&mut self, name: Name)
        ensures fits { AskAdds (Gained name ∷ []) self.old self.new }
        ensures keeps_room { AskKeepsRoom self.old self.new }
    {
        self.expiries.clear(name);
        self.timers.clear(name);
    }

    /// Returns the names whose timers have expired, in order of name: those that `due` would set again. They come in the list that is
    /// passed in, in place of what it holds.
    ///
    /// Fails only if that list has too little room and no memory is left. It needs no [`room`](Asks::room): a caller that makes room for
    /// what is due asks here which names these are.
    #[tactic(auto, using(crate::proofs::AskSteps::due_is, crate::proofs::AskSteps::timers_run))]
    pub fn pending(&self, now: u64, names: Vec<Name>) -> Result<Vec<Name>, AllocError>
        ensures due { IfOk result (λ names. AskDue now self.now names.items) }
        ensures among { IfOk result (λ names. DueAmong now self.now.expiries.places names.items) }
        ensures rising { IfOk result (λ names. ascending name_below names.items ≡ true) }
        ensures timers { IfOk result (λ names. AskTimersRun names.items self.now) }
        ensures room { DueHasRoom now self.now.expiries.places (vec_capacity names) → IsOk result }
    {
        let mut names = names;
        self.expiries.due(now, &mut names)?;
        Ok(names)
    }

    /// Sets the timers that have expired again, each one exponent higher, and returns them: their names are the ones to request now.
    /// Consumes one random number for each.
    ///
    /// Fails only if out of memory. Room for `detect` stays.
    #[tactic(auto, using(crate::proofs::AskSteps::asked_again, crate::proofs::AskSteps::stays_between, crate::proofs::AskSteps::adds_between))]
    pub fn due<W: Words>(
        &mut self,
        now: u64,
        dist: &[u64],
        words: &mut W,
    ) -> Result<Vec<Arm>, AllocError>
        requires distances { AreDistances dist.now }
        requires now { now ≤ LATEST_MOMENT }
        ensures fits { IfOk result (λ arms. AskAdds (sets now arms.items) self.old self.new) }
        ensures arms { IfOk result (λ arms. ArmsSetAgain now dist.now self.old arms.items) }
        ensures few { IfOk result (λ arms. (names : List FullName) → DueAmong now self.old.expiries.places names → length arms.items ≤ length names) }
        ensures kinds { IfOk result (λ arms. AreAsks arms.items) }
        ensures members { IfOk result (λ arms. AreOfMembers arms.items) }
        ensures chosen { IfOk result (λ arms. AreChosen W.next_word (low_of self.old.c1) (high_of self.old.c1 self.old.c2) words.old arms.items words.new) }
        ensures kept { OnErr result (AskStays self.old self.new) }
        ensures unchosen { OnErr result (words.new ≡ words.old) }
        ensures keeps_room { AskKeepsRoom (record self.old { due_room = 0 }) self.new }
        ensures list { OnErr result (self.old.due_room ≤ self.new.due_room) }
        ensures room { (names : List FullName) → DueReady names self.old → DueAmong now self.old.expiries.places names → IsOk result }
        ensures detect { DetectStaysReady self.old self.new }
    {
        let names = self.take_due(now)?;
        let arms = self.set_again(&names, now, dist, words);
        self.names = names;
        Ok(arms?)
    }

    /// The names whose timers have expired, in order of name, in the list that is kept for them.
    #[tactic(auto, using(crate::proofs::AskSteps::due_is, crate::proofs::AskSteps::timers_run, crate::proofs::Fitting::due_no_more))]
    fn take_due(&mut self, now: u64) -> Result<Vec<Name>, AllocError>
        ensures same { self.new ≡ record self.old { names_room = self.new.names_room } }
        ensures due { IfOk result (λ names. AskDue now self.old names.items) }
        ensures rising { IfOk result (λ names. ascending name_below names.items ≡ true) }
        ensures timers { IfOk result (λ names. AskTimersRun names.items self.old) }
        ensures few { IfOk result (λ names. (all : List FullName) → DueAmong now self.old.expiries.places all → length names.items ≤ length all) }
        ensures capacity { IfOk result (λ names. self.old.names_room ≤ vec_capacity names) }
        ensures list { OnErr result (self.old.names_room ≤ self.new.names_room) }
        ensures room { (all : List FullName) → length all ≤ self.old.names_room → DueAmong now self.old.expiries.places all → IsOk result }
    {
        self.expiries.due(now, &mut self.names)?;
        Ok(mem::replace(&mut self.names, Vec::new(self.alloc)))
    }

    /// Sets the timers of these names, which rise and have timers, again, each one exponent higher: what `due` does with the names that [`pending`](Asks::pending)
    /// returns, for a caller that has these. Consumes one random number for each. Fails only if out of memory.
    #[tactic(auto, using(crate::proofs::AskSteps::sets_then, crate::proofs::AskSteps::again_rise, crate::proofs::AskSteps::stays_kept, crate::proofs::AskSteps::keeps_self, crate::proofs::Fitting::as_many))]
    pub fn set_again<W: Words>(
        &mut self,
        names: &[Name],
        now: u64,
        dist: &[u64],
        words: &mut W,
    ) -> Result<Vec<Arm>, AllocError>
        requires rising { ascending name_below names.now ≡ true }
        requires timers { AskTimersRun names.now self.old }
        requires distances { AreDistances dist.now }
        requires now { now ≤ LATEST_MOMENT }
        ensures fits { IfOk result (λ arms. AskAdds (sets now arms.items) self.old self.new) }
        ensures plans { IfOk result (λ arms. map plan_of arms.items ≡ map (again_plan dist.now (value_at self.old.timers)) names.now) }
        ensures few { IfOk result (λ arms. length arms.items ≤ length names.now) }
        ensures kinds { IfOk result (λ arms. AreAsks arms.items) }
        ensures members { IfOk result (λ arms. AreOfMembers arms.items) }
        ensures chosen { IfOk result (λ arms. AreChosen W.next_word (low_of self.old.c1) (high_of self.old.c1 self.old.c2) words.old arms.items words.new) }
        ensures kept { OnErr result (AskStays self.old self.new) }
        ensures unchosen { OnErr result (words.new ≡ words.old) }
        ensures keeps_room { AskKeepsRoom (record self.old { due_room = 0 }) self.new }
        ensures list { OnErr result (self.old.due_room ≤ self.new.due_room) }
        ensures room { length names.now ≤ self.old.expiries.room → length names.now ≤ self.old.due_room → IsOk result }
    {
        let count = names.len();
        self.expiries.reserve(count)?;
        self.due_list.reserve(count)?;
        let list = mem::replace(&mut self.due_list, Vec::new(self.alloc));
        let again = self.again(list, names, dist, words);
        self.set_all(now, &again);
        Ok(again)
    }

    /// Adds the timers that are set again, for names that have one, to an empty list that has room for them.
    fn again<W: Words>(
        &self,
        mut arms: Vec<Arm>,
        names: &[Name],
        dist: &[u64],
        words: &mut W,
    ) -> Vec<Arm>
        requires empty { arms.items ≡ [] }
        requires room { length names.now ≤ vec_capacity arms }
        requires timers { AskTimersRun names.now self.now }
        requires distances { AreDistances dist.now }
        ensures plans { map plan_of result.items ≡ map (again_plan dist.now (value_at self.now.timers)) names.now }
        ensures members { AreOfMembers result.items }
        ensures chosen { AreChosen W.next_word (low_of self.now.c1) (high_of self.now.c1 self.now.c2) words.old result.items words.new }
        ensures asks { AreAsks result.items }
        ensures short { AreShort result.items }
    {
        for name in names {
            let exponent = self.exponent_when_due(*name).unwrap();
            let arm = self.arm(*name, exponent, distance_in(dist, name.source()), words);
            arms.push(arm).unwrap();
        }
        arms
    }

    /// Returns when the first timer expires, in microseconds; `None` if none runs. Takes no memory.
    #[tactic(auto, using(crate::proofs::AskSteps::next_is))]
    pub fn next(&self) -> Option<u64>
        ensures { AskNext self.now result }
    {
        self.expiries.next()
    }

    /// Returns the exponent that a request for a name, heard now, sets its timer again with; `None` if it changes nothing, or no timer
    /// runs. Takes no memory.
    #[tactic(auto, using(crate::proofs::AskSteps::backs_off_is))]
    pub fn exponent_when_heard(&self, name: Name, now: u64) -> Option<u8>
        ensures so_far { AskExponentWhenHeard name now self.now result }
        ensures value { result ≡ backs_off now (value_at self.now.timers name) }
        ensures range { IfSome result (λ exponent. exponent ≤ GREATEST_EXPONENT) }
    {
        backed_off(self.timers.get(name), now)
    }

    /// Returns the exponent that an expired timer of a name is set again with; `None` if no timer runs. Takes no memory.
    #[tactic(auto, using(crate::proofs::AskSteps::runs_is))]
    pub fn exponent_when_due(&self, name: Name) -> Option<u8>
        ensures so_far { AskExponentWhenDue name self.now result }
        ensures value { result ≡ option_map next_exponent (value_at self.now.timers name) }
        ensures range { IfSome result (λ exponent. exponent ≤ GREATEST_EXPONENT) }
    {
        exponent_after(self.timers.get(name))
    }

    /// Returns a request timer for a name, with an exponent, 0 to 8, and over a distance in microseconds, at most 10,000,000. Consumes one random number for its
    /// wait. Sets no timer.
    pub fn arm<W: Words>(&self, name: Name, exponent: u8, distance: u64, words: &mut W) -> Arm
        requires exponent { exponent ≤ GREATEST_EXPONENT }
        requires distance { distance ≤ LONGEST_DISTANCE }
        ensures plan { plan_of result ≡ ask_plan name distance exponent }
        ensures chosen { AreChosen W.next_word (low_of self.now.c1) (high_of self.now.c1 self.now.c2) words.old (result ∷ []) words.new }
        ensures ask { IsAsk result }
        ensures short { result.wait ≤ LONGEST_WAIT }
    {
        let wait = choose_wait(self.c1, self.c2, exponent, distance, words);
        Arm {
            kind: ArmKind::Ask,
            name,
            exponent,
            distance,
            wait,
        }
    }

    /// Sets one timer. The caller has made room. Takes no memory.
    #[tactic(auto, using(crate::proofs::AskSteps::set_adds))]
    fn set(&mut self, now: u64, arm: &Arm)
        requires timers { has_place self.old.timers arm.now.name ≡ true }
        requires expiries { has_place self.old.expiries.places arm.now.name ≡ true }
        requires now { now ≤ LATEST_MOMENT }
        requires short { arm.now.wait ≤ LONGEST_WAIT }
        ensures fits { AskAdds (sets now (arm.now ∷ [])) self.old self.new }
        ensures keeps_room { AskKeepsRoom self.old self.new }
    {
        self.expiries.set(arm.name, now + arm.wait);
        self.timers.set(arm.name, Some(arm_at(now, *arm)));
    }

    /// Sets these timers of requests, whose names rise and have room. Takes no memory.
    #[tactic(auto, using(crate::proofs::AskSteps::sets_adds))]
    pub fn set_all(&mut self, now: u64, arms: &[Arm])
        requires rising { ascending name_below (arm_names arms.now) ≡ true }
        requires ready { AskReady (arm_names arms.now) self.old }
        requires now { now ≤ LATEST_MOMENT }
        requires asks { AreAsks arms.now }
        requires short { AreShort arms.now }
        ensures fits { AskAdds (sets now arms.now) self.old self.new }
        ensures keeps_room { AskKeepsRoom self.old self.new }
    {
        self.expiries.set_all(now, arms);
        set_timers(&mut self.timers, now, arms);
    }
}

/// The exponent of a name that was found missing.
fn first_exponent(asked: &[Name], name: Name) -> u8
    ensures value { result ≡ first_exponent asked.now name }
    ensures range { result ≤ GREATEST_EXPONENT }
{
    if is_among(asked, name) { 1 } else { 0 }
}

/// Whether a name is one of these.
fn is_among(names: &[Name], name: Name) -> bool
    ensures { result ≡ among names.now name }
{
    names.iter().any(|other| name == *other)
}

/// The exponent of the timer after this one.
fn after(armed: Armed) -> u8
    ensures value { result ≡ next_exponent armed }
    ensures range { result ≤ GREATEST_EXPONENT }
{
    if armed.arm.exponent >= GREATEST_EXPONENT {
        GREATEST_EXPONENT
    } else {
        armed.arm.exponent + 1
    }
}

/// The exponent of the timer after this one, if it runs.
fn exponent_after(timer: Option<Armed>) -> Option<u8>
    ensures value { result ≡ option_map next_exponent timer }
    ensures range { IfSome result (λ exponent. exponent ≤ GREATEST_EXPONENT) }
{
    Some(after(timer?))
}

/// The exponent of the timer after a request that isn't ignored.
fn backed_off(timer: Option<Armed>, now: u64) -> Option<u8>
    ensures value { result ≡ backs_off now timer }
    ensures range { IfSome result (λ exponent. exponent ≤ GREATEST_EXPONENT) }
{
    let armed = timer?;
    let ignored_until = u128::from(armed.set) + u128::from(armed.arm.wait / 2);
    if armed.arm.exponent == 0 || ignored_until <= u128::from(now) {
        Some(after(armed))
    } else {
        None
    }
}
