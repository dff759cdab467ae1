//! What was taken of members that drew `a`, `b`, `c` and `d` on one page, in this order.

use srm_names::{Drawop, PageMsg};

/// Whether this is the body of the drawop with this number.
fn is_body(body: &[u8], number: u32) -> bool {
    match body {
        [byte] => u32::from(*byte) == number.saturating_add(96),
        _ => false,
    }
}

/// Whether this is the next drawop of its source, with the body that was drawn. It is counted.
fn is_next(counts: &mut [u32; 32], drawop: &Drawop) -> bool {
    let count = &mut counts[drawop.name.source().index()];
    *count = count.saturating_add(1);
    drawop.name.number() == *count && is_body(&drawop.body, *count)
}

/// How many drawops of each source a list has, where those of each are a prefix of what it drew.
pub fn counts_of_prefixes(list: &[PageMsg]) -> Option<[u32; 32]> {
    let mut counts = [0; 32];
    for message in list {
        if let PageMsg::Draw(drawop) = message
            && !is_next(&mut counts, drawop)
        {
            return None;
        }
    }
    Some(counts)
}
