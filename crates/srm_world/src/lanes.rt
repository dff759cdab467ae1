//! The messages that the page workers of one member haven't taken yet.

ghost use Rattle.std.specs.Prelude.{◌<◌, [], Some, OnOk, IfOk, option_to_list};
ghost use Rattle.srm_names.specs.declared.limits.TheConstants.{PAGES};
ghost use Rattle.srm_world.specs.Lanes.{AreEmpty, HasRoom, Gains, Loses};

use crate::lane::Lane;
use srm_names::{PAGES, PageMsg};
use std::alloc::{AllocError, Global};
use std::marker::Model;

/// A lane for each page slot of a member. Contracts see the list of lanes.
#[derive(Drop)]
pub struct Lanes {
    lanes: Vec<Lane>,
}

impl Model for Lanes {
    ghost use Rattle.std.specs.Prelude.{List};
    ghost use Rattle.srm_world.specs.Lane.{LaneContent};
    ghost use Rattle.srm_world.specs.Lanes.{lanes_of, HasAllSlots};

    ghost Value = { List LaneContent };

    ghost view = { lanes_of };

    ghost invariant = { HasAllSlots };
}

impl Lanes {
    /// Makes empty lanes. Fails only if out of memory.
    pub fn new(alloc: Global) -> Result<Lanes, AllocError>
        ensures { IfOk result AreEmpty }
    {
        let mut lanes = Vec::new(alloc);
        for _ in 0..PAGES {
            lanes.push(Lane::new(alloc))?;
        }
        Ok(Lanes { lanes })
    }

    /// Makes room for one more message in a slot, 0 to 7. What waits stays. Fails only if out of memory.
    pub fn reserve(&mut self, slot: u8) -> Result<(), AllocError>
        requires { slot < PAGES }
        ensures same { Gains slot [] self.old self.new }
        ensures ok { OnOk result (HasRoom slot self.new) }
    {
        self.lanes[usize::from(slot)].reserve()
    }

    /// Adds a message, if there is one, to what waits for the worker of a slot. The caller has made room. Takes no memory.
    pub fn give(&mut self, slot: u8, message: Option<PageMsg>)
        requires slot { slot < PAGES }
        requires room { HasRoom slot self.old }
        ensures { Gains slot (option_to_list message) self.old self.new }
    {
        match message {
            None => {}
            Some(message) => self.lanes[usize::from(slot)].give(message),
        }
    }

    /// Takes the oldest message that waits for the worker of a slot; `None` if none does. Takes no memory.
    pub fn take(&mut self, slot: u8) -> Option<PageMsg>
        requires { slot < PAGES }
        ensures { Loses slot result self.old self.new }
    {
        self.lanes[usize::from(slot)].take()
    }
}
