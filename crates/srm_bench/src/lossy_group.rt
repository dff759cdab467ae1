//! A group whose network loses for a while and then delivers.

use crate::earlier::earlier;
use crate::emptied::Emptied;
use crate::flight::Flight;
use crate::group::Places;
use crate::outage::Outage;
use crate::step::Step;
use crate::teller::Teller;
use bytes::Bytes;
use srm_agent::{Agent, Arm, ArmKind};
use srm_bucket::Class;
use srm_codec::Datagram;
use srm_names::{LATEST_MOMENT, Member, Name, Page, PageMsg};
use srm_timers::{Pcg, Words};
use std::alloc::Global;

/// More events than these aren't worth waiting for.
const EVENTS: u32 = 100_000_000;

/// More messages than these aren't there to be given.
const MESSAGES: u32 = 65_536;

/// Members that tick at a steady pace, and the network between them. Each call is `None` where memory ran out, or a list is too short.
#[derive(Drop)]
pub struct LossyGroup<'a> {
    alloc: Global,
    outage: Outage,
    agents: Vec<Agent<Pcg>>,
    // When each of them ticks next.
    ticks: Vec<u64>,
    // Of each, how long its bucket went without being empty, from when the network delivers.
    emptied: Vec<Emptied>,
    places: Places<'a>,
    flight: Flight,
    // They say what is lost.
    words: Pcg,
    now: u64,
    teller: Teller<'a>,
}

impl<'a> LossyGroup<'a> {
    /// A member for each seed of its random numbers, which did nothing yet. Who is cut off stands behind the link.
    pub fn new(
        alloc: Global,
        outage: Outage,
        seeds: &[u64],
        places: Places<'a>,
        teller: Teller<'a>,
    ) -> Option<LossyGroup<'a>> {
        let members = u8::try_from(seeds.len()).ok()?;
        let mut agents = Vec::new(alloc);
        let mut ticks = Vec::new(alloc);
        let mut emptied = Vec::new(alloc);
        for me in 0..members {
            let seed = *seeds.get(usize::from(me))?;
            let agent = outage.agent(alloc, me, members, seed)?;
            let first = outage.first_tick(me, members)?;
            let delivers = u64::from(outage.delivers);
            agents.push(agent).ok()?;
            ticks.push(first).ok()?;
            emptied.push(Emptied::from(delivers)).ok()?;
        }
        Some(LossyGroup {
            alloc,
            outage,
            agents,
            ticks,
            emptied,
            places,
            flight: Flight::new(alloc),
            words: Pcg::new(outage.seed),
            now: 0,
            teller,
        })
    }

    /// Member 0 draws while the network loses. Tells what each member lacks as the network delivers again, and what members do all the while. Returns how many numbers were
    /// told.
    pub fn recover(mut self) -> Option<usize> {
        let outage = self.outage;
        for index in 0..outage.drawn {
            let at = outage.draws_at(index)?;
            self.play(at)?;
            self.draw()?;
        }
        let (delivers, ends) = (u64::from(outage.delivers), u64::from(outage.ends));
        self.play(delivers)?;
        self.tell_lacks(outage.drawn)?;
        self.play(ends)?;
        self.tell_emptied()?;
        Some(self.teller.count())
    }

    fn draw(&mut self) -> Option<()> {
        let body = Bytes::copy_from_slice(self.alloc, &[7; 64]).ok()?;
        let now = self.now.min(LATEST_MOMENT);
        let agent = self.agents.get_mut(0)?;
        agent.draw(Page::first(), body, now).ok().map(|_| ())
    }

    /// Goes on until a moment. What comes at the moment when a member ticks is heard first.
    fn play(&mut self, end: u64) -> Option<()> {
        for _ in 0..EVENTS {
            let (at, place) = self.earliest_tick()?;
            match self.flight.earliest() {
                Some((come, index)) if come <= at && come < end => self.come(index)?,
                _ if at < end => self.tick(place, at)?,
                _ => {
                    self.now = end;
                    return Some(());
                }
            }
        }
        None
    }

    /// When a member first ticks, and which.
    fn earliest_tick(&self) -> Option<(u64, usize)> {
        let mut earliest: Option<(u64, usize)> = None;
        for (place, at) in self.ticks.iter().enumerate() {
            earliest = earlier(earliest, *at, place);
        }
        earliest
    }

    fn come(&mut self, index: usize) -> Option<()> {
        let copy = self.flight.take(index)?;
        self.now = copy.at;
        let now = self.now.min(LATEST_MOMENT);
        let agent = self.agents.get_mut(copy.to)?;
        let heard = agent.hear(copy.bytes.as_slice(), now).ok()?;
        self.tell_arms(copy.to, heard.arms.as_slice());
        self.give(copy.to)
    }

    fn tick(&mut self, place: usize, at: u64) -> Option<()> {
        self.now = at;
        let now = at.min(LATEST_MOMENT);
        let ticked = self.agents.get_mut(place)?.tick(now).ok()?;
        self.tell_arms(place, ticked.arms.as_slice());
        for out in ticked.outs.as_slice() {
            self.tell_sent(place, &out.datagram);
            self.spread(place, out.bytes.as_slice())?;
        }
        self.note_emptied(place)?;
        let next = at.saturating_add(u64::from(self.outage.tick));
        *self.ticks.get_mut(place)? = next;
        Some(())
    }

    /// Notes whether the tick left the bucket of a member empty.
    fn note_emptied(&mut self, place: usize) -> Option<()> {
        let now = self.now;
        let agent = self.agents.get(place)?;
        let waits = agent.waiting(Class::Shown) > 0
            || agent.waiting(Class::New) > 0
            || agent.waiting(Class::Other) > 0;
        if !waits && now >= u64::from(self.outage.delivers) {
            self.emptied.get_mut(place)?.note(now);
        }
        Some(())
    }

    /// A datagram of a member comes to all others, or is lost on the link.
    fn spread(&mut self, from: usize, bytes: &[u8]) -> Option<()> {
        let (now, outage) = (self.now, self.outage);
        let word = self.words.word() % 256;
        let lost = outage.loses_at(now) && word < u64::from(outage.lost);
        let members = self.agents.len();
        let first = from.checked_mul(members)?;
        let side = *self.places.cut_off.get(from)?;
        for to in 0..members {
            let way = *self.places.ways.get(first.checked_add(to)?)?;
            let crosses = *self.places.cut_off.get(to)? != side;
            if to != from && !(lost && crosses) {
                let at = now.saturating_add(u64::from(way));
                self.flight.send(at, to, bytes)?;
            }
        }
        Some(())
    }

    /// Takes all that is given to a member, and tells of each drawop.
    fn give(&mut self, place: usize) -> Option<()> {
        for _ in 0..MESSAGES {
            let message = self.agents.get_mut(place)?.give(0).ok()?;
            match message {
                Some(PageMsg::Draw(drawop)) => {
                    self.tell(Step::Gave, place, drawop.name.number(), 0, 0);
                }
                Some(_) => {}
                None => return Some(()),
            }
        }
        None
    }

    fn tell_arms(&mut self, place: usize, arms: &[Arm]) {
        for arm in arms {
            let step = match arm.kind {
                ArmKind::Ask => Step::SetRequestTimer,
                ArmKind::Fix => Step::SetRepairTimer,
            };
            let number = arm.name.number();
            self.tell(step, place, number, arm.distance, arm.wait);
        }
    }

    fn tell_sent(&mut self, place: usize, datagram: &Datagram) {
        match datagram {
            Datagram::Request { name, .. } => {
                self.tell(Step::Requested, place, name.number(), 0, 0);
            }
            Datagram::Repair { drawop, .. } => {
                self.tell(Step::Repaired, place, drawop.name.number(), 0, 0);
            }
            _ => {}
        }
    }

    /// Tells which of so many drawops each member doesn't hold.
    fn tell_lacks(&mut self, drawn: u32) -> Option<()> {
        let source = Member::new(0)?;
        for place in 0..self.agents.len() {
            for before in 0..drawn {
                let number = before.saturating_add(1);
                let name = Name::new(source, Page::first(), number)?;
                if !self.agents.get(place)?.holds(name) {
                    self.tell(Step::Lacked, place, number, 0, 0);
                }
            }
        }
        Some(())
    }

    /// Tells how long the bucket of each member went without being empty.
    fn tell_emptied(&mut self) -> Option<()> {
        let now = self.now;
        for place in 0..self.emptied.len() {
            let emptied = self.emptied.get_mut(place)?;
            emptied.note(now);
            let longest = emptied.longest();
            self.tell(Step::Emptied, place, 0, 0, longest);
        }
        Some(())
    }

    /// Tells what a member did with the drawop of a number: when, who, what, the number, the distance that a timer's wait was chosen from, and how long it was.
    fn tell(&mut self, step: Step, place: usize, number: u32, distance: u64, wait: u64) {
        self.teller.tell(self.now);
        self.teller.tell(place as u64);
        self.teller.tell(u64::from(step as u8));
        self.teller.tell(u64::from(number));
        self.teller.tell(distance);
        self.teller.tell(wait);
    }
}
