//! One member's agent at the calls that bytes say.

use crate::clock::Clock;
use crate::teller::{Teller, of_name};
use bytes::Bytes;
use srm_agent::Agent;
use srm_names::{PAGES, Page};
use srm_rig_members::config_at;
use srm_timers::Pcg;
use std::alloc::Global;

const HEAR: u8 = 0;

const TICK: u8 = 1;

const GIVE: u8 = 2;

const DRAW: u8 = 3;

const LEAVE: u8 = 4;

const DUE: u8 = 5;

const REST: u8 = 6;

/// An agent of session 7 that makes calls and tells what they answer. Each is `None` where memory ran out.
#[derive(Drop)]
pub struct Caller {
    alloc: Global,
    agent: Agent<Pcg>,
    clock: Clock,
    first: Page,
}

impl Caller {
    /// The agent of a member of so many, with a rate in bytes a second and a depth in bytes.
    pub fn new(alloc: Global, me: u8, members: u8, rate: u32, depth: u32) -> Option<Caller> {
        let config = config_at(me, members, rate, depth)?;
        Some(Caller {
            alloc,
            agent: Agent::new(alloc, config, Pcg::new(1), 0).ok()?,
            clock: Clock::new(),
            first: Page::first(),
        })
    }

    /// Makes so many calls, as far as bytes say them. A call is its kind, a slot, in two bytes how many bytes it hands in, in four how
    /// many microseconds it comes after the one before, and the bytes. One that rests does nothing.
    pub fn make(&mut self, count: u32, calls: &[u8], teller: &mut Teller) -> Option<()> {
        let mut rest = calls;
        for _ in 0..count {
            let (head, behind) = rest.split_first_chunk::<8>()?;
            let [kind, slot, high, low, a, b, c, d] = *head;
            let length = usize::from(u16::from_be_bytes([high, low]));
            if behind.len() < length {
                return None;
            }
            let (bytes, behind) = behind.split_at(length);
            let after = u32::from_be_bytes([a, b, c, d]);
            self.call(kind, slot, bytes, after, teller)?;
            rest = behind;
        }
        Some(())
    }

    fn call(
        &mut self,
        kind: u8,
        slot: u8,
        bytes: &[u8],
        after: u32,
        teller: &mut Teller,
    ) -> Option<()> {
        let now = self.clock.after(after);
        match kind {
            HEAR => teller.tell_heard(&self.agent.hear(bytes, now).ok()?),
            TICK => teller.tell_ticked(&self.agent.tick(now).ok()?),
            GIVE if slot < PAGES => teller.tell_message(&self.agent.give(slot).ok()?),
            DRAW => {
                let body = Bytes::copy_from_slice(self.alloc, bytes).ok()?;
                let drawn = self.agent.draw(self.first, body, now).ok();
                teller.tell(drawn.map_or(0, of_name));
            }
            LEAVE => teller.tell(u64::from(self.agent.leave(now).is_ok())),
            DUE => teller.tell(self.agent.next_due().unwrap_or(u64::MAX)),
            REST => {}
            _ => return None,
        }
        Some(())
    }
}
