//! Entries that are shown and not kept.

ghost use Rattle.std.specs.Prelude.{◌≡◌, []};
ghost use Rattle.srm_agent.specs.Asking.{MissesInAll};
ghost use Rattle.srm_board.specs.Shows.{KeepsTaken};

use crate::first_missing::first_missing;
use crate::turning::Turning;
use bytes::Bytes;
use srm_agent::{Agent, Arm, Cause, Entry, Input, Verdict};
use srm_codec::Datagram;
use srm_live::{Claims, Need, Tally};
use srm_names::{Member, Name, Page};
use srm_slate::{Counts, Happening, Hole, Record, Slate};
use srm_timers::{ArmKind, Words};
use srm_wire::{Dropped, WireCounts};
use srm_world::{Forgotten, Past};
use std::alloc::{AllocError, Global};
use std::sync::{Arc, Wait};

/// The history of a node that keeps no entry. What each entry says of the member goes to a slate first, and what tells of a need of others to who waits for it. Behind each turn the
/// member is asked what it misses, and which pages have strokes.
#[derive(Drop)]
pub struct Watching<R: Wait + Drop> {
    past: Forgotten<Entry>,
    watch: Option<Watch<R>>,
}

impl<R: Wait + Drop> Watching<R> {
    /// Makes a history without entries, which is shown on this slate from now on, with what others need on this need, and on this tally what the wire
    /// lost and dropped, that the member was in the session before, and what tells that one of its `members` members is set differently or that nobody reaches this one.
    pub fn new(
        rt: R,
        alloc: Global,
        slate: Arc<Slate, Global>,
        turning: Arc<Turning, Global>,
        need: Arc<Need, Global>,
        tally: Arc<Tally, Global>,
        members: u8,
    ) -> Watching<R>
        ensures { result.past ≡ [] }
    {
        Watching {
            past: Forgotten::new(),
            watch: Some(Watch {
                rt,
                alloc,
                slate,
                turning,
                need,
                tally,
                members,
                counts: WireCounts::of_failures(0),
                claims: Claims::new(alloc),
                is_stale: false,
                is_news: false,
            }),
        }
    }
}

impl<R: Wait + Drop> Past<Entry> for Watching<R> {
    ghost appended = { λ w. w.past };

    ghost has_room = { λ _. Unit {0} };

    ghost is_refused = { λ _. ⊥ };

    fn empty(_alloc: Global) -> Watching<R> {
        Watching {
            past: Forgotten::new(),
            watch: None,
        }
    }

    fn make_room(&mut self) -> Result<(), AllocError> {
        Ok(())
    }

    fn append(&mut self, one: Entry) {
        if let Some(watch) = &mut self.watch {
            watch.see(&one);
        }
        self.past.append(one);
    }

    fn turned<W: Words + Drop>(&mut self, agent: &Agent<W>, counts: &WireCounts) {
        if let Some(watch) = &mut self.watch {
            let outstanding = agent.outstanding();
            watch.need.show(&outstanding);
            watch.show_wire(counts);
            watch.ask(agent, outstanding.missing);
            watch.tell();
        }
    }
}

// Who shows the entries so far.
#[derive(Drop)]
struct Watch<R: Wait + Drop> {
    rt: R,
    alloc: Global,
    slate: Arc<Slate, Global>,
    turning: Arc<Turning, Global>,
    need: Arc<Need, Global>,
    tally: Arc<Tally, Global>,
    // How many members the session has.
    members: u8,
    // What the tally was told of the wire last.
    counts: WireCounts,
    // What was said of the member's own streams in this turn.
    claims: Claims,
    // Whether an entry of this turn may have changed what the member misses, and which pages have strokes.
    is_stale: bool,
    // Whether something befell the member in this turn.
    is_news: bool,
}

impl<R: Wait + Drop> Watch<R> {
    // Shows what the wire lost and dropped, if that changed.
    fn show_wire(&mut self, counts: &WireCounts) {
        if *counts != self.counts {
            self.counts = *counts;
            self.tally.show_wire(counts);
        }
    }

    fn see(&mut self, entry: &Entry) {
        self.need.see(entry);
        self.tally_up(entry);
        if is_idle(entry) {
            return;
        }
        self.show(entry);
        self.note_claims(entry);
        self.turn(entry);
    }

    // Tells the tally whether another member was heard, and what noise tells.
    fn tally_up(&self, entry: &Entry) {
        match &entry.input {
            Input::Noise => self.tally.count_noise(entry.verdict),
            Input::Ticked => self.tally.look_for_anybody(self.members, entry.moment),
            Input::Heard(datagram) => {
                if is_of_other(entry, datagram, self.members) {
                    self.tally.count_came();
                }
            }
            _ => {}
        }
    }

    // Shows an entry under one lock.
    fn show(&mut self, entry: &Entry) {
        let dropped = count_of(self.tally.dropped());
        let mut shown = self.slate.lock(&self.rt);
        let before = shown.happened();
        show(&mut shown, entry);
        let counts = counted(shown.counts(), entry);
        shown.show_counts(Counts { dropped, ..counts });
        let is_news = shown.happened() != before;
        drop(shown);
        self.is_news = self.is_news || is_news;
        self.is_stale = self.is_stale || entry.accepted().is_some();
    }

    // Shows what the member answers that it misses, so many names, and turns to the pages on which it knows of strokes, if that may have changed; and shows whether others know of
    // strokes that it drew in an earlier run.
    fn ask<W: Words + Drop>(&mut self, agent: &Agent<W>, missing: u32) {
        if self.is_stale {
            self.is_stale = false;
            self.turning.ask(&self.rt, agent, self.members);
            let holes = first_missing(self.alloc, agent, self.members, missing);
            let mut shown = self.slate.lock(&self.rt);
            show_missing(&mut shown, agent, holes);
        }
        self.look_for_earlier(agent);
    }

    // Tells the browsers, once what is missing is shown too, and only where something befell the member: a worker tells them of what it takes, and counts may wait.
    fn tell(&mut self) {
        if self.is_news {
            self.is_news = false;
            self.slate.tell();
        }
    }

    // Notes what an ignored datagram says of the member's own streams. If out of memory, an earlier run is told of by a later one.
    fn note_claims(&mut self, entry: &Entry) {
        if let (Input::Heard(datagram), Verdict::Ignored(_)) = (&entry.input, entry.verdict) {
            let _ = self.claims.note(entry.member, datagram);
        }
    }

    // Shows it if another member knows of strokes that this one drew in an earlier run.
    fn look_for_earlier<W: Words + Drop>(&mut self, agent: &Agent<W>) {
        if self.claims.settle(agent) {
            self.tally.note_earlier();
            let mut shown = self.slate.lock(&self.rt);
            show_stale(&mut shown);
        }
    }

    // What an entry says of the page that was drawn on here, and of the one that was told of.
    fn turn(&self, entry: &Entry) {
        if let Some(drawop) = &entry.effects.drawn {
            self.turning.prefer(&self.rt, drawop.name.stream().page);
        }
        for datagram in entry.effects.outs.as_slice() {
            if let Datagram::Session { shown, .. } = datagram {
                self.turning.told(&self.rt, *shown);
            }
        }
    }
}

// Whether another one of so many members sent it.
fn is_of_other(entry: &Entry, datagram: &Datagram, members: u8) -> bool {
    let sender = datagram.sender().number();
    sender != entry.member.number() && sender < members
}

fn is_idle(entry: &Entry) -> bool {
    matches!(entry.input, Input::Ticked) && entry.effects.outs.as_slice().is_empty()
}

// Shows what an entry says befell the member.
#[tactic(auto, using(crate::proofs::Showing::keeps_on, crate::proofs::Showing::keeps_all))]
fn show(shown: &mut Record, entry: &Entry)
    ensures { KeepsTaken shown.old shown.new }
{
    show_input(shown, entry);
    show_arms(shown, entry.effects.arms.as_slice());
    show_asks(shown, entry.effects.asks.as_slice());
    show_fixes(shown, entry.effects.fixes.as_slice());
}

// What the member misses is shown as it answers.
#[tactic(auto, using(crate::proofs::Showing::keeps_on, crate::proofs::Showing::keeps_all))]
fn show_missing<W: Words + Drop>(shown: &mut Record, agent: &Agent<W>, holes: Vec<Hole>)
    ensures keeps { KeepsTaken shown.old shown.new }
    ensures missing { MissesInAll agent.now shown.new.missing }
{
    shown.show_missing(agent.missing(), holes);
}

#[tactic(auto, using(crate::proofs::Showing::keeps_on, crate::proofs::Showing::keeps_all))]
fn show_stale(shown: &mut Record)
    ensures { KeepsTaken shown.old shown.new }
{
    shown.note_stale();
}

#[tactic(auto, using(crate::proofs::Showing::keeps_on, crate::proofs::Showing::keeps_all))]
fn show_input(shown: &mut Record, entry: &Entry)
    ensures { KeepsTaken shown.old shown.new }
{
    match &entry.input {
        Input::Drew(page, body) => show_refused(shown, entry.verdict, *page, body),
        Input::Heard(datagram) => hear(shown, entry, datagram),
        _ => {}
    }
}

// A stroke that wasn't drawn is shown with the cause.
#[tactic(auto, using(crate::proofs::Showing::keeps_on, crate::proofs::Showing::keeps_all))]
fn show_refused(shown: &mut Record, verdict: Verdict, page: Page, body: &Bytes)
    ensures { KeepsTaken shown.old shown.new }
{
    let Verdict::Refused(fault) = verdict else {
        return;
    };
    if let Ok(body) = body.clone() {
        happen(shown, Happening::Refused(page, fault as u8, body));
    }
}

#[tactic(auto, using(crate::proofs::Showing::keeps_on, crate::proofs::Showing::keeps_all))]
fn hear(shown: &mut Record, entry: &Entry, datagram: &Datagram)
    ensures { KeepsTaken shown.old shown.new }
{
    count_sender(shown, entry, datagram);
    bring(shown, entry.verdict, datagram);
}

// Who sent a datagram is there, whatever the agent made of it.
#[tactic(auto, using(crate::proofs::Showing::keeps_on, crate::proofs::Showing::keeps_all))]
fn count_sender(shown: &mut Record, entry: &Entry, datagram: &Datagram)
    ensures { KeepsTaken shown.old shown.new }
{
    let is_stranger = entry.verdict == Verdict::Ignored(Cause::Stranger);
    if datagram.sender() != entry.member && !is_stranger {
        shown.hear(datagram.sender());
    }
}

// What a datagram brings may have been missing.
#[tactic(auto, using(crate::proofs::Showing::keeps_on, crate::proofs::Showing::keeps_all))]
fn bring(shown: &mut Record, verdict: Verdict, datagram: &Datagram)
    ensures { KeepsTaken shown.old shown.new }
{
    match (verdict, datagram) {
        (Verdict::Done, Datagram::Data(drawop) | Datagram::Repair { drawop, .. }) => {
            gain(shown, drawop.name, datagram.sender());
        }
        _ => {}
    }
}

// A name was found missing where its first request timer is set: each later wait is doubled. That of a name which another's request tells of is, too, and so isn't told.
#[tactic(auto, using(crate::proofs::Showing::keeps_on, crate::proofs::Showing::keeps_all))]
fn show_arms(shown: &mut Record, arms: &[Arm])
    ensures { KeepsTaken shown.old shown.new }
{
    for arm in arms {
        if arm.kind == ArmKind::Ask && arm.exponent == 0 {
            happen(shown, Happening::Missed(arm.name));
        }
    }
}

#[tactic(auto, using(crate::proofs::Showing::keeps_on, crate::proofs::Showing::keeps_all))]
fn show_asks(shown: &mut Record, names: &[Name])
    ensures { KeepsTaken shown.old shown.new }
{
    for name in names {
        happen(shown, Happening::Asked(*name));
    }
}

#[tactic(auto, using(crate::proofs::Showing::keeps_on, crate::proofs::Showing::keeps_all))]
fn show_fixes(shown: &mut Record, names: &[Name])
    ensures { KeepsTaken shown.old shown.new }
{
    for name in names {
        happen(shown, Happening::Repaired(*name));
    }
}

// Each of these leaves news out if memory ran out for them, and the board goes on.

fn gain(shown: &mut Record, name: Name, by: Member)
    ensures { KeepsTaken shown.old shown.new }
{
    let _ = shown.gain(name, by);
}

fn happen(shown: &mut Record, happening: Happening)
    ensures { KeepsTaken shown.old shown.new }
{
    let _ = shown.happen(happening);
}

// The counts with those of an entry.
fn counted(before: Counts, entry: &Entry) -> Counts {
    let mut counts = before;
    match (&entry.input, entry.verdict) {
        (Input::Noise, _) => add_one(&mut counts.noise),
        (Input::Heard(_), Verdict::Ignored(_)) => add_one(&mut counts.ignored),
        _ => {}
    }
    for datagram in entry.effects.outs.as_slice() {
        add_one(&mut counts.sent);
        match datagram {
            Datagram::Request { .. } => add_one(&mut counts.requests),
            Datagram::Repair { .. } => add_one(&mut counts.repairs),
            Datagram::Data(_) | Datagram::Session { .. } => {}
        }
    }
    counts
}

// How many datagrams were dropped, whatever the cause.
fn count_of(dropped: Dropped) -> u64 {
    dropped
        .strangers
        .saturating_add(dropped.misnamed)
        .saturating_add(dropped.untagged)
        .saturating_add(dropped.again)
        .saturating_add(dropped.excess)
        .saturating_add(dropped.overflowed)
}

fn add_one(count: &mut u64) {
    *count = count.saturating_add(1);
}
