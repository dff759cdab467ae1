//! The inboxes of a network in memory.

use crate::sent::Sent;
use std::alloc::{AllocError, Global};
use std::collections::VecDeque;
use std::sync::{Arc, Mutex};

/// The inboxes that the wires of a network share.
pub(crate) type Network = Arc<Mutex<Inboxes>, Global>;

/// The datagrams under way to each member of a network, by its number.
#[derive(Drop)]
pub struct Inboxes {
    all: Vec<VecDeque<Vec<u8>>>,
}

impl Inboxes {
    /// Makes an empty inbox for each of so many members. Fails only if out of memory.
    pub(crate) fn new(alloc: Global, members: u8) -> Result<Inboxes, AllocError> {
        let mut all = Vec::new(alloc);
        for _ in 0..members {
            all.push(VecDeque::new(alloc))?;
        }
        Ok(Inboxes { all })
    }

    /// Puts copies into their receivers' inboxes, in order. A copy to a member without an inbox is lost.
    ///
    /// Fails only if out of memory, and then puts none.
    pub(crate) fn put(&mut self, copies: Vec<Sent>) -> Result<(), AllocError> {
        for copy in copies.as_slice() {
            if let Some(inbox) = self.all.get_mut(copy.to.index()) {
                inbox.reserve(copies.len())?;
            }
        }
        for copy in copies {
            let Sent { to, bytes } = copy;
            if let Some(inbox) = self.all.get_mut(to.index()) {
                inbox.push_back(bytes.into_vec())?;
            }
        }
        Ok(())
    }

    /// Takes the oldest datagram to a member, if there is one.
    pub(crate) fn take(&mut self, member: usize) -> Option<Vec<u8>> {
        self.all.get_mut(member)?.pop_front()
    }
}
