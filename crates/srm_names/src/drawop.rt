//! Drawops.

ghost use Rattle.std.specs.Prelude.{◌≡◌, IfOk};

use crate::name::Name;
use bytes::Bytes;
use std::alloc::AllocError;

/// A stroke: its name, when it was drawn, and its bytes.
#[derive(Debug, Drop, PartialEq, Eq)]
pub struct Drawop {
    /// Its name.
    pub name: Name,
    /// The moment when it was drawn, in microseconds of its source's clock, at most 2^48.
    pub stamp: u64,
    /// Its bytes, at most 1,024, which the protocol doesn't interpret.
    pub body: Bytes,
}

impl Drawop {
    /// Returns an equal drawop that shares the body's bytes. Fails only if out of memory.
    pub fn copy(&self) -> Result<Drawop, AllocError>
        ensures { IfOk result (λ copy. copy ≡ self.now) }
    {
        Ok(Drawop {
            name: self.name,
            stamp: self.stamp,
            body: self.body.clone()?,
        })
    }
}
