//! What a node makes for itself, beside what it is made of.

ghost use Rattle.std.specs.Prelude.{◌≡◌, vec_len, replicate, false, IfOk};
ghost use Rattle.srm_names.specs.declared.limits.TheConstants.{PAGES};
ghost use Rattle.srm_node.specs.declared.limits.TheConstants.{BUFFER_BYTES};

use crate::ending::none_closed;
use crate::limits::BUFFER_BYTES;
use std::alloc::{AllocError, Global};

/// The buffer that datagrams are received into, and that no feed put its close yet.
#[derive(Drop)]
pub struct Spare {
    /// The buffer, 4,096 bytes.
    pub buffer: Vec<u8>,
    /// For each feed, whether it put its close.
    pub closed: Vec<bool>,
}

/// Makes a node's buffer and flags, in one call, so that one exit alone drops what a node is made of. Fails only if out of memory.
pub fn make_spare(alloc: Global) -> Result<Spare, AllocError>
    ensures buffer { IfOk result (λ s. vec_len s.buffer ≡ BUFFER_BYTES) }
    ensures closed { IfOk result (λ s. s.closed.items ≡ replicate PAGES false) }
{
    Ok(Spare {
        buffer: vec![in alloc; 0; BUFFER_BYTES]?,
        closed: none_closed(alloc)?,
    })
}
