//! The datagrams that were sent.

ghost use Rattle.std.specs.Prelude.{◌≡◌, ◌++◌, [], OnOk, slice_get};
ghost use Rattle.std.specs.Option.{option_copied};
ghost use Rattle.srm_world.specs.Sent.{all_of};

use srm_agent::Out;
use srm_names::Items;
use std::alloc::{AllocError, Global};
use std::marker::Model;

/// All datagrams that were sent, with their bytes, in order of sending. Contracts see two lists: those of the ticks before, and those of
/// the last one.
#[derive(Drop)]
pub struct SentDatagrams {
    earlier: Vec<Out>,
    /// What the last tick sent. It joins the others at the next event, before that changes anything: so an event that runs out of memory
    /// changes nothing.
    newest: Vec<Out>,
}

impl Model for SentDatagrams {
    ghost use Rattle.srm_world.specs.Sent.{SentContent, sent_of};

    ghost Value = { SentContent };

    ghost view = { sent_of };
}

impl SentDatagrams {
    /// Makes an empty list. Takes no memory.
    pub fn new(alloc: Global) -> SentDatagrams
        ensures { all_of result ≡ [] }
    {
        SentDatagrams {
            earlier: Vec::new(alloc),
            newest: Vec::new(alloc),
        }
    }

    /// Makes room for what a tick sends. Fails only if out of memory.
    pub fn make_room(&mut self) -> Result<(), AllocError>
        ensures same { all_of self.new ≡ all_of self.old }
        ensures ok { OnOk result (self.new.newest ≡ []) }
    {
        self.earlier.append(&mut self.newest)
    }

    /// Adds the datagrams that a tick sent. The caller has made room. Takes no memory.
    pub fn add(&mut self, outs: Items<Out>)
        requires { self.old.newest ≡ [] }
        ensures { all_of self.new ≡ all_of self.old ++ outs }
    {
        self.newest = outs.into_vec();
    }

    /// Returns a datagram by its number from 0 in the order of sending; `None` if there is none. The caller has made room.
    pub fn get(&self, index: usize) -> Option<&Out>
        requires { self.now.newest ≡ [] }
        ensures { option_copied result ≡ slice_get (all_of self.now) index }
    {
        self.earlier.get(index)
    }
}
