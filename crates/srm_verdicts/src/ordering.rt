//! The order in which an honest run is shown.

use crate::sendings::Sendings;
use crate::waiting::{Waiting, waiting_of};
use srm_entries::Entry;
use srm_frames::Record;
use std::alloc::{AllocError, Global};

/// An entry of a run, as it is shown.
#[derive(Clone, Copy, Debug, PartialEq, Eq)]
pub struct Placed {
    /// Its place in the run, from 0.
    pub place: usize,
    /// The number of the datagram that it hears, from 0 in the order of sending; `None` if it hears none.
    pub number: Option<usize>,
}

/// Returns the entries of an honest run of these records in the order in which they are shown.
///
/// Of the entries that are ready, the one with the least time of day comes next; of several the one of the least member. An entry is ready once those before it of its member
/// came, and what it hears was sent. Its time of day is that when its member was made, and what the member's clock told since. Clocks of different machines differ, so the time
/// decides the order alone, and nothing of the verdict.
///
/// Fails only if out of memory. Looks at each member for each entry.
pub fn wall_order(
    alloc: Global,
    records: &[Record],
    entries: &[Entry],
    members: u8,
) -> Result<Vec<Placed>, AllocError> {
    let mut waiting = waiting_of(alloc, records, entries, members)?;
    let mut sendings = Sendings::new(alloc);
    let mut order = Vec::new(alloc);
    for _ in 0..entries.len() {
        let next = next_ready(waiting.as_slice(), entries, &sendings);
        if let Some(placed) = take_next(alloc, &mut waiting, next, entries, &sendings)? {
            send_in(alloc, &mut sendings, entries.get(placed.place))?;
            order.push(placed).map_err(AllocError::from)?;
        }
    }
    Ok(order)
}

// Which member's first entry comes next. In an honest run one is ready as long as one is left.
fn next_ready(waiting: &[Waiting], entries: &[Entry], sendings: &Sendings) -> Option<usize> {
    let mut least = u64::MAX;
    let mut next = None;
    for (at, one) in waiting.iter().enumerate() {
        if let Some(time) = one.ready_at(entries, sendings) {
            if next.is_none() || time < least {
                least = time;
                next = Some(at);
            }
        }
    }
    next
}

fn take_next(
    alloc: Global,
    waiting: &mut Vec<Waiting>,
    next: Option<usize>,
    entries: &[Entry],
    sendings: &Sendings,
) -> Result<Option<Placed>, AllocError> {
    let Some(at) = next else {
        return Ok(None);
    };
    let Some(one) = waiting.get_mut(at) else {
        return Ok(None);
    };
    match one.pop(alloc, entries, sendings)? {
        Some((place, number)) => Ok(Some(Placed { place, number })),
        None => Ok(None),
    }
}

fn send_in(
    alloc: Global,
    sendings: &mut Sendings,
    entry: Option<&Entry>,
) -> Result<(), AllocError> {
    match entry {
        Some(entry) => sendings.add_all(alloc, entry.effects.outs.as_slice()),
        None => Ok(()),
    }
}
