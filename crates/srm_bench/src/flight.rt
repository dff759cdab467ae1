//! Copies of datagrams that are under way.

use crate::earlier::earlier;
use std::alloc::Global;

/// A copy of a datagram, when it comes, and to which member.
#[derive(Drop)]
pub struct Copied {
    pub at: u64,
    pub to: usize,
    pub bytes: Vec<u8>,
}

/// All copies that are under way.
#[derive(Drop)]
pub struct Flight {
    alloc: Global,
    copies: Vec<Copied>,
}

impl Flight {
    /// Nothing is under way.
    pub fn new(alloc: Global) -> Flight {
        Flight {
            alloc,
            copies: Vec::new(alloc),
        }
    }

    /// Sends a copy to a member, to come at a moment. `None` where memory ran out.
    pub fn send(&mut self, at: u64, to: usize, bytes: &[u8]) -> Option<()> {
        let bytes = bytes.to_vec(self.alloc).ok()?;
        self.copies.push(Copied { at, to, bytes }).ok()
    }

    /// When a copy first comes, and which.
    pub fn earliest(&self) -> Option<(u64, usize)> {
        let mut earliest: Option<(u64, usize)> = None;
        for (index, copy) in self.copies.iter().enumerate() {
            earliest = earlier(earliest, copy.at, index);
        }
        earliest
    }

    /// Takes out a copy. `None` if there is no such one.
    pub fn take(&mut self, index: usize) -> Option<Copied> {
        if index < self.copies.len() {
            Some(self.copies.swap_remove(index))
        } else {
            None
        }
    }
}
