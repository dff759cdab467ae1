//! What becomes of copies.

use srm_node::Fate;
use std::alloc::{AllocError, Global};

/// Copies of a member that are dropped, doubled and late by turns.
fn drops_and_doubles(alloc: Global) -> Result<Vec<Fate>, AllocError> {
    let mut fates = Vec::new(alloc);
    for _ in 0..4 {
        fates.push(Fate::Drop)?;
        fates.push(Fate::Twice)?;
        fates.push(Fate::Late(2))?;
    }
    Ok(fates)
}

/// The fates of the first twelve copies of each of so many members, which are dropped, doubled and late by turns.
pub fn lossy_fates(alloc: Global, members: u8) -> Result<Vec<Vec<Fate>>, AllocError> {
    let mut fates = Vec::new(alloc);
    for _ in 0..members {
        fates.push(drops_and_doubles(alloc)?)?;
    }
    Ok(fates)
}
