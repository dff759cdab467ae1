//! What producers send.

use bytes::Bytes;
use srm_pages::{Pen, Stroke};
use std::alloc::{AllocError, Global};
use std::sync::Wait;

/// The producer at this place sends this as a stroke on a page of member 0. Whether the stroke queue took it: it takes nothing of a producer that isn't there.
pub fn ink<R: Wait>(rt: &R, pens: &mut Vec<Pen>, place: usize, number: u16, body: Bytes) -> bool {
    let (Some(pen), Some(page)) = (pens.get_mut(place), srm_rig::page(0, number)) else {
        return false;
    };
    let stroke = Stroke {
        pen: pen.number(),
        page,
        body,
    };
    pen.stroke(rt, stroke).is_ok()
}

/// The first producer sends each of these bytes as a stroke on the first page. Whether the stroke queue took them all.
pub fn ink_text<R: Wait>(
    rt: &R,
    alloc: Global,
    pens: &mut Vec<Pen>,
    text: &[u8],
) -> Result<bool, AllocError> {
    for byte in text {
        let body = Bytes::copy_from_slice(alloc, &[*byte])?;
        if !ink(rt, pens, 0, 0, body) {
            return Ok(false);
        }
    }
    Ok(true)
}

/// The last producer that is left is done.
fn end_last(pens: &mut Vec<Pen>) {
    if let Some(pen) = pens.pop() {
        let _inked = pen.done();
    }
}

/// All producers that are left are done.
pub fn end_all(pens: &mut Vec<Pen>) {
    for _ in 0..pens.len() {
        end_last(pens);
    }
}
