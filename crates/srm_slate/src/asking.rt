//! What a page asks for, as it is written.

ghost use Rattle.std.specs.Prelude.{◌≡◌, ◌∷◌, ◌++◌, IfOk, IfSome};
ghost use Rattle.srm_slate.specs.Strokes.{SaysNumber, SaysPage, SaysStroke};

use crate::cursor::Cursor;
use bytes::Bytes;
use srm_names::{LONGEST_BODY, Member, Page};
use std::alloc::{AllocError, Global};

/// Reads how many messages and happenings a tab has, as `from=M&seen=H`. Each is 0 if it is missing or isn't a number.
pub fn seen_in(query: &str) -> Cursor {
    Cursor {
        from: number_in(query, "from=").unwrap_or(0) as usize,
        seen: number_in(query, "seen=").unwrap_or(0),
    }
}

/// Reads which tab asks, as `tab=T`. Returns `None` if it is missing or isn't a number below 2^64.
pub fn tab_in(query: &str) -> Option<u64> {
    number_in(query, "tab=")
}

// The number behind a word of a query.
fn number_in(query: &str, word: &str) -> Option<u64> {
    for part in query.split('&') {
        if let Some(text) = part.strip_prefix(word) {
            return text.parse::<u64>().ok();
        }
    }
    None
}

/// Reads the number of a text's first stroke, which is its first line. Returns it with where the strokes begin, or `None` if the line isn't a number from 1 on, or
/// nothing is behind it.
pub fn first_number_in(text: &[u8]) -> Option<(u64, usize)> {
    let end = text.iter().position(|byte| *byte == b'\n')?;
    let (line, _) = text.split_at(end);
    match str::from_utf8(line).ok()?.parse::<u64>().ok()? {
        0 => None,
        number => Some((number, end.saturating_add(1))),
    }
}

/// Reads a page and a body from a line, as `C.P BODY`. Returns `None` if the line isn't so, or the body is longer than 1,024 bytes. Fails only if out of memory.
pub fn stroke_in(alloc: Global, line: &[u8]) -> Result<Option<(Page, Bytes)>, AllocError>
    ensures { IfOk result (λ found. IfSome found (λ stroke. SaysStroke line.now stroke.0 stroke.1)) }
{
    let Some((head, body)) = around(line, b' ') else {
        return Ok(None);
    };
    let Some(page) = page_in(head) else {
        return Ok(None);
    };
    if body.len() > usize::from(LONGEST_BODY) {
        return Ok(None);
    }
    Ok(Some((page, Bytes::copy_from_slice(alloc, body)?)))
}

fn page_in(text: &[u8]) -> Option<Page>
    ensures { IfSome result (SaysPage text.now) }
{
    let (creator, number) = around(text, b'.')?;
    let creator = Member::new(u8_in(creator)?)?;
    let number = u16_in(number)?;
    Some(Page { creator, number })
}

// What stands before the first byte like this one, and behind it.
#[tactic(auto, using(crate::proofs::Lines::before_and_behind))]
fn around(text: &[u8], byte: u8) -> Option<(&[u8], &[u8])>
    ensures { IfSome result (λ parts. text.now ≡ parts.0.now ++ byte ∷ parts.1.now) }
{
    let place = text.iter().position(|other| *other == byte)?;
    let (before, rest) = text.split_at(place);
    match rest.split_first() {
        Some((first, behind)) if *first == byte => Some((before, behind)),
        _ => None,
    }
}

fn u8_in(text: &[u8]) -> Option<u8>
    ensures { IfSome result (SaysNumber text.now) }
{
    str::from_utf8(text).ok()?.parse::<u8>().ok()
}

fn u16_in(text: &[u8]) -> Option<u16>
    ensures { IfSome result (SaysNumber text.now) }
{
    str::from_utf8(text).ok()?.parse::<u16>().ok()
}
