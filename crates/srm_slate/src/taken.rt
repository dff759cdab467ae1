//! What a page worker took.

ghost use Rattle.std.specs.Prelude.{◌≡◌, IfOk};

use srm_names::PageMsg;
use std::alloc::{AllocError, Global};

/// A message that a page worker took, and the worker's page slot.
#[derive(Debug, Drop, PartialEq, Eq)]
pub struct Taken {
    /// The page slot of the worker, 0 to 7.
    pub slot: u8,
    /// What the worker took.
    pub message: PageMsg,
}

impl Taken {
    /// Returns an equal one, over the same bytes. Fails only if out of memory.
    pub fn copy(&self) -> Result<Taken, AllocError>
        ensures { IfOk result (λ copy. copy ≡ self.now) }
    {
        Ok(Taken {
            slot: self.slot,
            message: self.message.copy()?,
        })
    }
}

/// Returns equal ones of a list, in order. Fails only if out of memory.
pub fn copies(alloc: Global, all: &[Taken]) -> Result<Vec<Taken>, AllocError>
    ensures { IfOk result (λ copies. copies.items ≡ all.now) }
{
    let mut copies = Vec::new(alloc);
    for one in all {
        copies.push(one.copy()?)?;
    }
    Ok(copies)
}
