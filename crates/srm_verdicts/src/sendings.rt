//! The datagrams that were sent, found by their bytes.

use srm_codec::{Datagram, encodable, encode};
use std::alloc::{AllocError, Global};
use std::collections::HashMap;

/// The session number that datagrams are encoded with here. All are of one session, so any number will do.
const ANY_SESSION: u32 = 0;

/// The datagrams that were sent so far, numbered from 0 in the order of sending.
#[derive(Drop)]
pub struct Sendings {
    /// The number of the last datagram with these bytes.
    numbers: HashMap<Vec<u8>, usize>,
    count: usize,
}

impl Sendings {
    /// Nothing was sent yet.
    pub fn new(alloc: Global) -> Sendings {
        Sendings {
            numbers: HashMap::new(alloc),
            count: 0,
        }
    }

    /// Returns the number of the datagram with these bytes that was sent last; `None` if none was sent.
    pub fn number_of(&self, bytes: &[u8]) -> Option<usize> {
        self.numbers.get(bytes).copied()
    }

    /// Adds datagrams, in the order of sending. Fails only if out of memory, and then some may have been added.
    pub fn add_all(&mut self, alloc: Global, datagrams: &[Datagram]) -> Result<(), AllocError> {
        for datagram in datagrams {
            if let Some(bytes) = bytes_of(alloc, datagram)? {
                self.numbers.insert(bytes, self.count)?;
            }
            self.count = self.count.saturating_add(1);
        }
        Ok(())
    }
}

/// Returns the bytes of a datagram, to find it again. Each that a member sends or accepts has some. Fails only if out of memory.
pub fn bytes_of(alloc: Global, datagram: &Datagram) -> Result<Option<Vec<u8>>, AllocError> {
    if !encodable(datagram) {
        return Ok(None);
    }
    let bytes = encode(alloc, ANY_SESSION, datagram)?;
    Ok(Some(bytes))
}
