//! What is heard.

use srm_rig::datagrams::{Kind, up_to_body};
use std::alloc::{AllocError, Global};

/// How many bytes each body has.
const BODY: u8 = 64;

/// Data of member 1 in session 7, on the first page, stamped 0.
fn data(alloc: Global, number: u32) -> Result<Vec<u8>, AllocError> {
    let front = up_to_body(Kind::Data, 1, 1, 0, number, 0, BODY);
    let mut bytes = Vec::from_array(alloc, front)?;
    bytes.resize(front.len() + usize::from(BODY), 7)?;
    Ok(bytes)
}

/// Data with so many numbers, from 1 on.
pub fn data_in_order(alloc: Global, count: u32) -> Result<Vec<Vec<u8>>, AllocError> {
    let mut all = Vec::new(alloc);
    for before in 0..count {
        all.push(data(alloc, before.saturating_add(1))?)?;
    }
    Ok(all)
}
