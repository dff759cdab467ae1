//! A group whose datagrams take their time, and what becomes of the drawops that it loses.

use crate::earlier::earlier;
use crate::flight::Flight;
use crate::step::Step;
use crate::teller::Teller;
use bytes::Bytes;
use srm_agent::{Agent, Arm, ArmKind, Config};
use srm_bucket::{GREATEST_DEPTH, GREATEST_RATE};
use srm_codec::Datagram;
use srm_names::{LATEST_MOMENT, Member, Page, PageMsg};
use srm_timers::Pcg;
use std::alloc::Global;

/// More events than these aren't worth waiting for.
const EVENTS: u32 = 10_000_000;

/// More messages than these aren't there to be given.
const MESSAGES: u32 = 65_536;

/// How many distances members wait: a request `c1` to `c1 + c2`, a repair `d1` to `d1 + d2`.
#[repr(C)]
pub struct Waits {
    pub c1: u8,
    pub c2: u8,
    pub d1: u8,
    pub d2: u8,
}

/// How long each part of a play takes, in microseconds, and how often drawops are lost.
#[repr(C)]
pub struct Plan {
    /// Until all members know how far away the others are.
    pub start: u32,
    /// From a drawop that is lost to the next, which shows that it is.
    pub shown: u32,
    /// From then until nobody asks or repairs any more.
    pub settled: u32,
    pub losses: u32,
}

/// Where members are.
#[derive(Clone, Copy)]
pub struct Places<'a> {
    /// Microseconds from each member to each, by sender and then receiver.
    pub ways: &'a [u32],
    /// Of each member, whether drawops that are lost don't come to it.
    pub cut_off: &'a [bool],
}

/// Members that send each other datagrams. Each call is `None` where memory ran out, or a list is too short.
#[derive(Drop)]
pub struct Group<'a> {
    alloc: Global,
    agents: Vec<Agent<Pcg>>,
    // When each of them is next due.
    dues: Vec<u64>,
    places: Places<'a>,
    flight: Flight,
    now: u64,
    teller: Teller<'a>,
}

impl<'a> Group<'a> {
    /// A member for each seed of its random numbers, which did nothing yet. What becomes of drawops that are lost is told.
    pub fn new(
        alloc: Global,
        waits: &Waits,
        seeds: &[u64],
        places: Places<'a>,
        teller: Teller<'a>,
    ) -> Option<Group<'a>> {
        let members = u8::try_from(seeds.len()).ok()?;
        let mut agents = Vec::new(alloc);
        let mut dues = Vec::new(alloc);
        for me in 0..members {
            let seed = *seeds.get(usize::from(me))?;
            let agent = fresh(alloc, me, members, waits, seed)?;
            dues.push(due_of(&agent)).ok()?;
            agents.push(agent).ok()?;
        }
        Some(Group {
            alloc,
            agents,
            dues,
            places,
            flight: Flight::new(alloc),
            now: 0,
            teller,
        })
    }

    /// Member 0 draws pairs of drawops. The first of each pair is lost and then repaired. Returns how many numbers were told.
    pub fn lose(mut self, plan: &Plan) -> Option<usize> {
        self.play(plan.start)?;
        for _ in 0..plan.losses {
            self.draw()?;
            self.play(plan.shown)?;
            self.draw()?;
            self.play(plan.settled)?;
        }
        Some(self.teller.count())
    }

    fn draw(&mut self) -> Option<()> {
        let body = Bytes::copy_from_slice(self.alloc, &[7; 64]).ok()?;
        let now = self.now.min(LATEST_MOMENT);
        let agent = self.agents.get_mut(0)?;
        agent.draw(Page::first(), body, now).ok()?;
        self.note_due(0)
    }

    /// Lets so many microseconds pass. What comes at the moment when a member is due is heard first.
    fn play(&mut self, micros: u32) -> Option<()> {
        let end = self.now.saturating_add(u64::from(micros));
        for _ in 0..EVENTS {
            let (at, place) = self.earliest_due()?;
            match self.flight.earliest() {
                Some((come, index)) if come <= at && come <= end => self.come(index)?,
                _ if at <= end => self.tick(place, at)?,
                _ => {
                    self.now = end;
                    return Some(());
                }
            }
        }
        None
    }

    /// When a member is first due, and which.
    fn earliest_due(&self) -> Option<(u64, usize)> {
        let mut earliest: Option<(u64, usize)> = None;
        for (place, due) in self.dues.iter().enumerate() {
            earliest = earlier(earliest, (*due).max(self.now), place);
        }
        earliest
    }

    fn come(&mut self, index: usize) -> Option<()> {
        let copy = self.flight.take(index)?;
        self.now = copy.at;
        let now = self.now.min(LATEST_MOMENT);
        let agent = self.agents.get_mut(copy.to)?;
        let heard = agent.hear(copy.bytes.as_slice(), now).ok()?;
        self.tell_arms(copy.to, heard.arms.as_slice());
        self.give(copy.to)?;
        self.note_due(copy.to)
    }

    fn tick(&mut self, place: usize, at: u64) -> Option<()> {
        self.now = at;
        let now = at.min(LATEST_MOMENT);
        let ticked = self.agents.get_mut(place)?.tick(now).ok()?;
        for out in ticked.outs.as_slice() {
            self.tell_sent(place, &out.datagram);
            let lost = is_lost(&out.datagram);
            self.spread(place, out.bytes.as_slice(), lost)?;
        }
        self.note_due(place)
    }

    fn note_due(&mut self, place: usize) -> Option<()> {
        let due = due_of(self.agents.get(place)?);
        *self.dues.get_mut(place)? = due;
        Some(())
    }

    fn spread(&mut self, from: usize, bytes: &[u8], lost: bool) -> Option<()> {
        let members = self.agents.len();
        let first = from.checked_mul(members)?;
        for to in 0..members {
            let way = *self.places.ways.get(first.checked_add(to)?)?;
            let is_cut_off = *self.places.cut_off.get(to)?;
            if to != from && !(lost && is_cut_off) {
                let at = self.now.saturating_add(u64::from(way));
                self.flight.send(at, to, bytes)?;
            }
        }
        Some(())
    }

    /// Takes all that is given to a member, and tells of each drawop.
    fn give(&mut self, place: usize) -> Option<()> {
        for _ in 0..MESSAGES {
            let message = self.agents.get_mut(place)?.give(0).ok()?;
            match message {
                Some(PageMsg::Draw(drawop)) => self.tell(
                    Step::Gave,
                    place,
                    drawop.name.number(),
                    0,
                ),
                Some(_) => {}
                None => return Some(()),
            }
        }
        None
    }

    fn tell_arms(&mut self, place: usize, arms: &[Arm]) {
        for arm in arms {
            let step = match arm.kind {
                ArmKind::Ask => Step::SetRequestTimer,
                ArmKind::Fix => Step::SetRepairTimer,
            };
            self.tell(step, place, arm.name.number(), arm.distance);
        }
    }

    fn tell_sent(&mut self, place: usize, datagram: &Datagram) {
        match datagram {
            Datagram::Request { name, .. } => self.tell(Step::Requested, place, name.number(), 0),
            Datagram::Repair { drawop, .. } => {
                self.tell(Step::Repaired, place, drawop.name.number(), 0);
            }
            _ => {}
        }
    }

    /// Tells what a member did with the drawop of a number: when, who, what, the number, and the distance that a timer's
    /// wait was chosen from.
    fn tell(&mut self, step: Step, place: usize, number: u32, distance: u64) {
        self.teller.tell(self.now);
        self.teller.tell(place as u64);
        self.teller.tell(u64::from(step as u8));
        self.teller.tell(u64::from(number));
        self.teller.tell(distance);
    }
}

/// Whether it is a drawop that is lost: each odd one.
fn is_lost(datagram: &Datagram) -> bool {
    match datagram {
        Datagram::Data(drawop) => drawop.name.number() % 2 == 1,
        _ => false,
    }
}

fn due_of(agent: &Agent<Pcg>) -> u64 {
    agent.next_due().unwrap_or(u64::MAX)
}

/// A member of so many in session 7, at the greatest rate and depth.
fn fresh(alloc: Global, me: u8, members: u8, waits: &Waits, seed: u64) -> Option<Agent<Pcg>> {
    let me = Member::new(me)?;
    let config = Config::new(
        me,
        members,
        7,
        GREATEST_RATE,
        GREATEST_DEPTH,
        waits.c1,
        waits.c2,
        waits.d1,
        waits.d2,
    )?;
    Agent::new(alloc, config, Pcg::new(seed), 0).ok()
}
