//! What all tabs drew.

use crate::hand::Hand;
use slab::Slab;
use std::alloc::Global;

/// Tabs whose strokes are known, at most. Beyond them the one is forgotten that has no connection for the longest time.
const KNOWN: usize = 4_096;

// A tab by the number that it gave itself.
#[derive(Drop)]
struct Entry {
    tab: u64,
    hand: Hand,
    // The connections that it has.
    connections: usize,
    // When it came last, among all.
    came: u64,
}

/// What all tabs drew. A tab that comes again by another connection finds its own.
#[derive(Drop)]
pub struct Hands {
    all: Slab<Entry>,
    came: u64,
}

impl Hands {
    /// Knows no tab.
    pub fn new(alloc: Global) -> Hands {
        Hands {
            all: Slab::new(alloc),
            came: 0,
        }
    }

    /// Returns the key of a tab that comes, which draws on where it was, or from the beginning if it isn't known. It is kept until [`close`](Hands::close) was called as
    /// often. Returns `None` if out of memory, or if 4,096 tabs have connections.
    pub fn open(&mut self, tab: u64) -> Option<usize> {
        self.came = self.came.saturating_add(1);
        let came = self.came;
        let found = self
            .all
            .iter()
            .find(|(_, entry)| entry.tab == tab)
            .map(|(key, _)| key);
        let key = match found {
            Some(key) => key,
            None => self.insert(tab)?,
        };
        let entry = self.all.get_mut(key)?;
        entry.connections = entry.connections.saturating_add(1);
        entry.came = came;
        Some(key)
    }

    /// Notes that one connection of a tab is gone.
    pub fn close(&mut self, key: usize) {
        if let Some(entry) = self.all.get_mut(key) {
            entry.connections = entry.connections.saturating_sub(1);
        }
    }

    /// Returns what a tab drew.
    pub fn get(&mut self, key: usize) -> Option<&mut Hand> {
        match self.all.get_mut(key) {
            Some(entry) => Some(&mut entry.hand),
            None => None,
        }
    }

    fn insert(&mut self, tab: u64) -> Option<usize> {
        if self.all.len() >= KNOWN {
            let oldest = self.oldest()?;
            let _ = self.all.try_remove(oldest);
        }
        let entry = Entry {
            tab,
            hand: Hand::new(),
            connections: 0,
            came: 0,
        };
        self.all.insert(entry).ok()
    }

    // The key of the one that has no connection for the longest time.
    fn oldest(&self) -> Option<usize> {
        self.all
            .iter()
            .filter(|(_, entry)| entry.connections == 0)
            .min_by_key(|(_, entry)| entry.came)
            .map(|(key, _)| key)
    }
}
