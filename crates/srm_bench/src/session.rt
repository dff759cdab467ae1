//! Sessions of many members, whose journals are put together.

ghost use Rattle.std.specs.Prelude.{◌≤◌};
ghost use Rattle.srm_names.specs.declared.limits.TheConstants.{LATEST_MOMENT};

use crate::clock::Clock;
use crate::lists::Lists;
use bytes::Bytes;
use srm_audit::{Mismatch, reconcile};
use srm_rig_members::{config_at, count_entries, finish_all};
use srm_timers::{Pcg, Words};
use srm_world::Recorder;
use std::alloc::Global;

/// Microseconds from one turn to the next.
const STEP: u32 = 50_000;

/// Members that make calls by turns. Each call is `None` where memory ran out.
#[derive(Drop)]
pub struct Session {
    alloc: Global,
    recorders: Vec<Recorder<Pcg>>,
    lists: Lists,
    words: Pcg,
    clock: Clock,
}

impl Session {
    /// So many members, which did nothing yet.
    pub fn new(alloc: Global, members: u8) -> Option<Session> {
        let mut recorders = Vec::new(alloc);
        for me in 0..members {
            recorders.push(fresh(alloc, me, members)?).ok()?;
        }
        Some(Session {
            alloc,
            recorders,
            lists: Lists::new(alloc, members)?,
            words: Pcg::new(0),
            clock: Clock::new(),
        })
    }

    /// One member draws on the first page and all tick. What they send comes to the others, but of ten copies one is lost and one comes
    /// twice. Then each gives a message, which is taken.
    pub fn mingle(&mut self) -> Option<()> {
        let now = self.clock.after(STEP);
        let word = usize::try_from(self.words.word() % 32).ok()?;
        let drawer = word.checked_rem(self.recorders.len())?;
        self.draw(drawer, 0, now)?;
        for place in 0..self.recorders.len() {
            self.tick(place, now)?;
        }
        for place in 0..self.recorders.len() {
            self.give(place)?;
        }
        Some(())
    }

    /// One member draws on a page of member 0, and sends it, which the other hears and no third.
    pub fn talk(&mut self, place: usize, other: usize, page: u16) -> Option<()> {
        let now = self.clock.after(STEP);
        self.draw(place, page, now)?;
        let ticked = self.recorders.get_mut(place)?.tick(now).ok()?;
        for out in ticked.outs.as_slice() {
            self.hear(other, out.bytes.as_slice(), now)?;
        }
        Some(())
    }

    /// A member draws on a page of member 0, and sends it, which all others hear.
    pub fn tell_all(&mut self, drawer: usize, page: u16) -> Option<()> {
        let now = self.clock.after(STEP);
        self.draw(drawer, page, now)?;
        let ticked = self.recorders.get_mut(drawer)?.tick(now).ok()?;
        for out in ticked.outs.as_slice() {
            for place in 0..self.recorders.len() {
                self.hear(place, out.bytes.as_slice(), now)?;
            }
        }
        Some(())
    }

    fn draw(&mut self, place: usize, page: u16, now: u64) -> Option<()>
        requires { now ≤ LATEST_MOMENT }
    {
        let body = Bytes::copy_from_slice(self.alloc, &[7; 64]).ok()?;
        self.recorders
            .get_mut(place)?
            .draw(srm_rig::page(0, page)?, body, now)
            .ok()
            .map(|_| ())
    }

    fn tick(&mut self, place: usize, now: u64) -> Option<()>
        requires { now ≤ LATEST_MOMENT }
    {
        let ticked = self.recorders.get_mut(place)?.tick(now).ok()?;
        for out in ticked.outs.as_slice() {
            self.spread(place, out.bytes.as_slice(), now)?;
        }
        Some(())
    }

    /// A datagram of a member comes to the others, is lost or comes twice.
    fn spread(&mut self, from: usize, bytes: &[u8], now: u64) -> Option<()>
        requires { now ≤ LATEST_MOMENT }
    {
        for place in 0..self.recorders.len() {
            if place != from {
                let copies = copies(self.words.word());
                self.come(place, bytes, now, copies)?;
            }
        }
        Some(())
    }

    fn come(&mut self, place: usize, bytes: &[u8], now: u64, copies: u8) -> Option<()>
        requires { now ≤ LATEST_MOMENT }
    {
        for _ in 0..copies {
            self.hear(place, bytes, now)?;
        }
        Some(())
    }

    fn hear(&mut self, place: usize, bytes: &[u8], now: u64) -> Option<()>
        requires { now ≤ LATEST_MOMENT }
    {
        let recorder = self.recorders.get_mut(place)?;
        recorder.hear(bytes, now).ok().map(|_| ())
    }

    fn give(&mut self, place: usize) -> Option<()> {
        let given = self.recorders.get_mut(place)?.give(0).ok()?;
        self.lists.add(place, given)
    }

    /// How many entries the journals have in all, and the lists as takes. They are put together if it `reconciles`.
    pub fn end(self, reconciles: bool) -> Result<usize, Mismatch> {
        let Session {
            alloc,
            recorders,
            lists,
            ..
        } = self;
        let journals = finish_all(alloc, recorders)?;
        if !reconciles {
            return Ok(count_entries(&journals).saturating_add(lists.count()));
        }
        let gots = lists.into_gots(alloc).ok_or(Mismatch::Memory)?;
        let trace = reconcile(alloc, journals, gots)?;
        Ok(trace.entries().len())
    }
}

/// How many copies come.
fn copies(word: u64) -> u8 {
    match word % 10 {
        0 => 0,
        1 => 2,
        _ => 1,
    }
}

/// A member of so many in session 7, at a great rate.
fn fresh(alloc: Global, me: u8, members: u8) -> Option<Recorder<Pcg>> {
    let config = config_at(me, members, 1_000_000, 1_000_000)?;
    Recorder::new(alloc, config, Pcg::new(u64::from(me)), 0).ok()
}
