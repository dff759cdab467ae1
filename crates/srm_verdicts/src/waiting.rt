//! What is left of a member's entries.

use crate::counting::record_of;
use crate::sendings::{Sendings, bytes_of};
use srm_entries::Entry;
use srm_frames::{Beginning, Record};
use std::alloc::{AllocError, Global};
use std::collections::VecDeque;

/// The entries of a member that aren't in order yet.
#[derive(Drop)]
pub struct Waiting {
    beginning: Beginning,
    /// Their places in the run, oldest first.
    places: VecDeque<usize>,
    /// The bytes of the datagram that the first of them hears, if it hears one.
    hears: Option<Vec<u8>>,
}

impl Waiting {
    /// Takes all entries of a member that began so. Fails only if out of memory.
    pub fn new(
        alloc: Global,
        beginning: Beginning,
        entries: &[Entry],
    ) -> Result<Waiting, AllocError> {
        let me = beginning.config.me();
        let mut places = VecDeque::new(alloc);
        for (place, entry) in entries.iter().enumerate() {
            if entry.member == me {
                places.push_back(place).map_err(AllocError::from)?;
            }
        }
        let mut waiting = Waiting {
            beginning,
            places,
            hears: None,
        };
        waiting.hear_next(alloc, entries)?;
        Ok(waiting)
    }

    /// Returns the time of day of the first entry, in microseconds since 1970, if there is one and what it hears was sent.
    pub fn ready_at(&self, entries: &[Entry], sendings: &Sendings) -> Option<u64> {
        if !self.hears_what_was_sent(sendings) {
            return None;
        }
        let place = self.places.front().copied()?;
        let entry = entries.get(place)?;
        let since = entry.moment.saturating_sub(self.beginning.made);
        Some(self.beginning.wall.saturating_add(since))
    }

    /// Takes the first entry out, and returns its place, and the number of the datagram that it hears. Fails only if out of memory.
    pub fn pop(
        &mut self,
        alloc: Global,
        entries: &[Entry],
        sendings: &Sendings,
    ) -> Result<Option<(usize, Option<usize>)>, AllocError> {
        let Some(place) = self.places.pop_front() else {
            return Ok(None);
        };
        let number = match &self.hears {
            Some(bytes) => sendings.number_of(bytes.as_slice()),
            None => None,
        };
        self.hear_next(alloc, entries)?;
        Ok(Some((place, number)))
    }

    fn hears_what_was_sent(&self, sendings: &Sendings) -> bool {
        match &self.hears {
            Some(bytes) => sendings.number_of(bytes.as_slice()).is_some(),
            None => true,
        }
    }

    // Notes what the first entry hears.
    fn hear_next(&mut self, alloc: Global, entries: &[Entry]) -> Result<(), AllocError> {
        self.hears = None;
        let Some(place) = self.places.front().copied() else {
            return Ok(());
        };
        let Some(entry) = entries.get(place) else {
            return Ok(());
        };
        if let Some(datagram) = entry.accepted() {
            self.hears = bytes_of(alloc, datagram)?;
        }
        Ok(())
    }
}

/// Returns what is left of the entries of each member that has a record, in order of member: all. Fails only if out of memory.
pub fn waiting_of(
    alloc: Global,
    records: &[Record],
    entries: &[Entry],
    members: u8,
) -> Result<Vec<Waiting>, AllocError> {
    let mut waiting = Vec::new(alloc);
    for number in 0..members {
        if let Some(read) = record_of(records, number) {
            let one = Waiting::new(alloc, read.beginning, entries)?;
            waiting.push(one).map_err(AllocError::from)?;
        }
    }
    Ok(waiting)
}
