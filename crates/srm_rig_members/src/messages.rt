//! What was heard, and what was given to page workers.

use srm_agent::{Entry, Input};
use srm_names::PageMsg;
use srm_world::Journal;
use std::alloc::{AllocError, Global};

/// Whether the entry heard a datagram.
pub fn is_heard(entry: &Entry) -> bool {
    matches!(entry.input, Input::Heard(_))
}

/// What an entry gave in a slot, if it gave a message there.
pub fn given_in(entry: &Entry, slot: u8) -> Option<&PageMsg> {
    match entry.input {
        Input::Gave(own) if own == slot => entry.effects.message.as_ref(),
        _ => None,
    }
}

/// The same messages once more.
pub fn copies_of(alloc: Global, list: &[PageMsg]) -> Result<Vec<PageMsg>, AllocError> {
    let mut copies = Vec::new(alloc);
    for message in list {
        copies.push(message.copy()?)?;
    }
    Ok(copies)
}

/// The messages that a journal gave, in order, whatever their slots.
pub fn given(alloc: Global, journal: &Journal) -> Result<Vec<PageMsg>, AllocError> {
    let mut list = Vec::new(alloc);
    for entry in journal.entries() {
        if let Some(message) = &entry.effects.message {
            list.push(message.copy()?)?;
        }
    }
    Ok(list)
}
