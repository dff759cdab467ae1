//! The messages that one page worker hasn't taken yet.

ghost use Rattle.std.specs.Prelude.{◌≡◌, ◌<◌, ◌++◌, [], ◌∷◌, drop, length, slice_get, OnOk};

use srm_names::PageMsg;
use std::alloc::{AllocError, Global};
use std::collections::VecDeque;
use std::marker::Model;

/// The messages that one page worker was given and hasn't taken yet, oldest first. Contracts see the list, and the room.
#[derive(Drop)]
pub struct Lane {
    messages: VecDeque<PageMsg>,
}

impl Model for Lane {
    ghost use Rattle.srm_world.specs.Lane.{LaneContent, lane_of};

    ghost Value = { LaneContent };

    ghost view = { lane_of };
}

impl Lane {
    /// Makes an empty lane. Takes no memory.
    pub fn new(alloc: Global) -> Lane
        ensures { result.waiting ≡ [] }
    {
        Lane {
            messages: VecDeque::new(alloc),
        }
    }

    /// Makes room for one more message. What waits stays. Fails only if out of memory.
    pub fn reserve(&mut self) -> Result<(), AllocError>
        ensures waiting { self.new.waiting ≡ self.old.waiting }
        ensures ok { OnOk result (length self.new.waiting < self.new.capacity) }
    {
        self.messages.reserve(1)
    }

    /// Adds a message for the worker. The caller has made room. Takes no memory.
    pub fn give(&mut self, message: PageMsg)
        requires { length self.old.waiting < self.old.capacity }
        ensures { self.new.waiting ≡ self.old.waiting ++ message ∷ [] }
    {
        let _ = self.messages.push_back(message);
    }

    /// Takes the oldest message; `None` if none waits. Takes no memory.
    pub fn take(&mut self) -> Option<PageMsg>
        ensures oldest { result ≡ slice_get self.old.waiting 0 }
        ensures rest { self.new.waiting ≡ drop 1 self.old.waiting }
    {
        self.messages.pop_front()
    }
}
