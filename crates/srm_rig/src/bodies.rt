//! Bodies and texts of any length.

use bytes::Bytes;
use std::alloc::{AllocError, Global};

/// A body of so many equal bytes.
pub fn body(alloc: Global, byte: u8, length: usize) -> Result<Bytes, AllocError> {
    let mut bytes = Vec::new(alloc);
    bytes.resize(length, byte)?;
    Bytes::copy_from_slice(alloc, &bytes)
}

/// A text so many times.
pub fn repeated(alloc: Global, text: &str, times: u32) -> Result<Vec<u8>, AllocError> {
    let mut bytes = Vec::new(alloc);
    for _ in 0..times {
        bytes.extend_from_slice(text.as_bytes())?;
    }
    Ok(bytes)
}
