//! An agent with what its last tick left to be taken.

ghost use Rattle.std.specs.Prelude.{◌≡◌, ◌≤◌, ◌<◌, IfOk};
ghost use Rattle.srm_names.specs.declared.limits.TheConstants.{LATEST_MOMENT, LONGEST_DISTANCE, PAGES};
ghost use Rattle.srm_agent.specs.Waking.{NextDue};
ghost use Rattle.srm_agent.specs.Admitting.{DrawAdmitted, DrawAdmittedFrom};
ghost use Rattle.srm_agent.specs.Asking.{SaysOutstanding};
ghost use Rattle.srm_seat.specs.Seats.{IsNewSeat};
ghost use Rattle.srm_seat.specs.Asking.{IsDistance, IsKnown, IsMissing, IsNextMissing, IsPageToCome, IsState};
ghost use Rattle.srm_seat.specs.Calls.{counts_of, Draws, Gives, HearsBytes, Leaves, Shows, TakesDatagram, TakesRepair, TakesRequest, Ticks};

use crate::rooms::lay_over;
use bytes::Bytes;
use srm_agent::{Agent, AgentFault, AgentState, Config, Heard, Out, Outstanding, Ticked};
use srm_names::{Member, Name, Page, PageMsg, Stream};
use srm_timers::Pcg;
use std::alloc::{AllocError, Global};
use std::collections::VecDeque;
use std::marker::Model;

/// One member's agent, whose random numbers come from a seed, with what its last tick left to be taken: the names that it requested and
/// repaired, and the datagrams to send. Contracts see the agent and these lists.
///
/// Each call has the faults of the agent's call, in the same order, but for [`draw`](Seat::draw). Moments are microseconds, at most 2^48.
/// After an error nothing has changed.
#[derive(Drop)]
pub struct Seat {
    alloc: Global,
    agent: Agent<Pcg>,
    requests: VecDeque<Name>,
    repairs: VecDeque<Name>,
    datagrams: VecDeque<Out>,
}

impl Model for Seat {
    ghost use Rattle.srm_seat.specs.Seats.{SeatContent};

    ghost Value = { SeatContent };

    ghost view = { λ s. record { agent = s.agent; requests = s.requests.items; repairs = s.repairs.items; datagrams = s.datagrams.items } };
}

/// What a tick left to be taken, and whether the member takes part after it.
#[derive(Clone, Copy, Debug, PartialEq, Eq)]
pub struct TickCounts {
    /// How many names it requested.
    pub requests: usize,
    /// How many names it repaired.
    pub repairs: usize,
    /// How many datagrams are to be sent.
    pub datagrams: usize,
    /// Whether the member is active, leaving or gone after the tick.
    pub state: AgentState,
}

/// What became of the next datagram.
#[derive(Clone, Copy, Debug, PartialEq, Eq)]
pub enum Handover {
    /// There was none.
    Nothing,
    /// It has so many bytes, which don't fit the room. It stays the next.
    Short(usize),
    /// It has so many bytes, which stand at the front of the room.
    Copied(usize),
}

impl Seat {
    /// Makes an agent with these settings at a moment. It chooses its waits by the random numbers of the seed, which is any number. Nothing is
    /// left to be taken.
    ///
    /// Fails only if out of memory.
    pub fn new(alloc: Global, config: Config, seed: u64, now: u64) -> Result<Seat, AllocError>
        requires { now ≤ LATEST_MOMENT }
        ensures { IfOk result (IsNewSeat config now seed) }
    {
        Ok(Seat {
            alloc,
            agent: Agent::new(alloc, config, Pcg::new(seed), now)?,
            requests: VecDeque::new(alloc),
            repairs: VecDeque::new(alloc),
            datagrams: VecDeque::new(alloc),
        })
    }

    /// Draws a copy of some bytes on a page, as [`Agent::draw`] does. The copy comes first, so [`AgentFault::Memory`] may come in place of any
    /// other fault.
    pub fn draw(&mut self, page: Page, body: &[u8], now: u64) -> Result<Name, AgentFault>
        requires { now ≤ LATEST_MOMENT }
        ensures { Draws now page body.now self.old self.new result }
    {
        let body = Bytes::copy_from_slice(self.alloc, body)?;
        self.agent.draw(page, body, now)
    }

    /// Shows a page, as [`Agent::show`] does, with its faults.
    pub fn show(&mut self, page: Page, now: u64) -> Result<(), AgentFault>
        requires { now ≤ LATEST_MOMENT }
        ensures { Shows now page self.old self.new result }
    {
        self.agent.show(page, now)
    }

    /// Begins to leave, as [`Agent::leave`] does, with its faults.
    pub fn leave(&mut self, now: u64) -> Result<(), AgentFault>
        requires { now ≤ LATEST_MOMENT }
        ensures { Leaves now self.old self.new result }
    {
        self.agent.leave(now)
    }

    /// Hears bytes that came, as [`Agent::hear`] does. Fails only with [`AgentFault::Memory`].
    pub fn hear(&mut self, bytes: &[u8], now: u64) -> Result<Heard, AgentFault>
        requires { now ≤ LATEST_MOMENT }
        ensures { HearsBytes now bytes.now self.old self.new result }
    {
        self.agent.hear(bytes, now)
    }

    /// Does what is due, as [`Agent::tick`] does, and returns how much that left to be taken. What an earlier tick left and nobody took is
    /// dropped, as if it were lost on its way; after an error it stays.
    pub fn tick(&mut self, now: u64) -> Result<TickCounts, AgentFault>
        requires { now ≤ LATEST_MOMENT }
        ensures { Ticks now self.old self.new result }
    {
        let ticked = self.agent.tick(now)?;
        let counts = counts_of(&ticked);
        self.requests = VecDeque::from_vec(ticked.asks.into_vec());
        self.repairs = VecDeque::from_vec(ticked.fixes.into_vec());
        self.datagrams = VecDeque::from_vec(ticked.outs.into_vec());
        Ok(counts)
    }

    /// Takes the next name that the last tick requested, in order; `None` if there is no more. Takes no memory.
    pub fn next_request(&mut self) -> Option<Name>
        ensures { TakesRequest self.old self.new result }
    {
        self.requests.pop_front()
    }

    /// Takes the next name that the last tick repaired, in order; `None` if there is no more. Takes no memory.
    pub fn next_repair(&mut self) -> Option<Name>
        ensures { TakesRepair self.old self.new result }
    {
        self.repairs.pop_front()
    }

    /// Takes the next datagram that the last tick left to be sent, and copies it to the front of the room. If it doesn't fit, writes nothing, and
    /// it stays the next. Takes no memory.
    pub fn next_datagram(&mut self, room: &mut [u8]) -> Handover
        ensures { TakesDatagram self.old self.new room.old room.new result }
    {
        let Some(out) = self.datagrams.front() else {
            return Handover::Nothing;
        };
        let bytes = out.bytes.as_slice();
        let length = bytes.len();
        if length > room.len() {
            return Handover::Short(length);
        }
        lay_over(bytes, room);
        self.datagrams.pop_front();
        Handover::Copied(length)
    }

    /// Takes the next message of a page slot, 0 to 7, as [`Agent::give`] does. Fails only with [`AgentFault::Memory`], and then the message is still to come.
    pub fn give(&mut self, slot: u8) -> Result<Option<PageMsg>, AgentFault>
        requires { slot < PAGES }
        ensures { Gives slot self.old self.new result }
    {
        self.agent.give(slot)
    }

    /// Returns when a tick next does something, as [`Agent::next_due`] does.
    pub fn next_due(&self) -> Option<u64>
        ensures { NextDue self.now.agent result }
    {
        self.agent.next_due()
    }

    /// Returns the page that the member would begin next, as [`Agent::new_page`] does.
    pub fn new_page(&self) -> Option<Page>
        ensures { IsPageToCome self.now.agent result }
    {
        self.agent.new_page()
    }

    /// Returns whether the member takes part, as [`Agent::state`] does.
    pub fn state(&self) -> AgentState
        ensures { IsState self.now.agent result }
    {
        self.agent.state()
    }

    /// Returns the one-way distance to a member in microseconds, as [`Agent::distance`] does.
    pub fn distance(&self, member: Member) -> u64
        ensures value { IsDistance member self.now.agent result }
        ensures longest { result ≤ LONGEST_DISTANCE }
    {
        self.agent.distance(member)
    }

    /// Returns whether the rate would let a body of so many bytes, drawn at `now`, go at once, as [`Agent::admits_draw`] does.
    pub fn admits_draw(&self, length: usize, now: u64) -> bool
        ensures { DrawAdmitted length now self.now.agent result }
    {
        self.agent.admits_draw(length, now)
    }

    /// Returns when a body of so many bytes would go at once, as [`Agent::admits_draw_from`] does.
    pub fn admits_draw_from(&self, length: usize) -> Option<u64>
        ensures { DrawAdmittedFrom length self.now.agent result }
    {
        self.agent.admits_draw_from(length)
    }

    /// Returns the greatest number of a stream that the member knows to exist, or 0, as [`Agent::known`] does.
    pub fn known(&self, stream: Stream) -> u32
        ensures { IsKnown stream self.now.agent result }
    {
        self.agent.known(stream)
    }

    /// Returns how many names of a stream are missing, as [`Agent::missing_of`] does.
    pub fn missing_of(&self, stream: Stream) -> u32
        ensures { IsMissing stream self.now.agent result }
    {
        self.agent.missing_of(stream)
    }

    /// Returns the first missing name of a stream above a number, as [`Agent::next_missing`] does.
    pub fn next_missing(&self, stream: Stream, after: u32) -> Option<Name>
        ensures { IsNextMissing stream after self.now.agent result }
    {
        self.agent.next_missing(stream, after)
    }

    /// Returns what the member misses, when its timers expire, what waits to be sent, and whether it takes part, as [`Agent::outstanding`] does.
    pub fn outstanding(&self) -> Outstanding
        ensures { SaysOutstanding self.now.agent result }
    {
        self.agent.outstanding()
    }
}

fn counts_of(ticked: &Ticked) -> TickCounts
    ensures { result ≡ counts_of ticked.now }
{
    TickCounts {
        requests: ticked.asks.as_slice().len(),
        repairs: ticked.fixes.as_slice().len(),
        datagrams: ticked.outs.as_slice().len(),
        state: ticked.state,
    }
}
