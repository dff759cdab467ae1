//! What a call of the program answered.

use std::alloc::Global;

/// What a call of the program answered: its status, and what it wrote on both streams.
#[derive(Debug, Drop, PartialEq, Eq)]
pub struct Ran {
    pub status: u8,
    pub out: Vec<u8>,
    pub err: Vec<u8>,
}

impl Ran {
    /// Nothing was written yet.
    pub fn new(alloc: Global) -> Ran {
        Ran {
            status: 0,
            out: Vec::new(alloc),
            err: Vec::new(alloc),
        }
    }
}
