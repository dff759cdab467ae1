//! Why bytes are no room.

use srm_room::RoomError;
use std::alloc::{AllocError, Global};
use thiserror::Error;

/// Why bytes are no room. Its text says what to write instead.
#[derive(Clone, Copy, Debug, Drop, Error)]
pub enum Refusal {
    /// They are no UTF-8, or more than 65,536.
    #[error("that is no text of at most 65536 bytes: write a room as srm room new does")]
    NoText,
    /// They are a text that is no room, for this reason; or memory ran out.
    #[error("{0}")]
    NoRoom(RoomError),
}

/// Returns the text of a refusal, in one line. Fails only if out of memory.
pub fn explain(alloc: Global, refusal: &Refusal) -> Result<String, AllocError> {
    Ok(format!(in alloc; "{refusal}")?)
}
