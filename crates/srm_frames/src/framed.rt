//! Frames as lines.

ghost use Rattle.std.specs.Prelude.{IfOk};
ghost use Rattle.srm_frames.specs.Readings.{IsSeen, bare, parts, drew_in, showed_in, gave_in, took_in, call_in, line_in};

use crate::format::{ASKED_LEAVE, DREW, ENDED, GAVE, HEARD, SHOWED, TICKED, TOOK};
use crate::frame::Frame;
use crate::line::{Call, Line};
use crate::message::read_message;
use crate::reader::Reader;
use bytes::Bytes;
use srm_names::LATEST_MOMENT;
use std::alloc::{AllocError, Global};

/// Returns the line of a frame, if it is one's. Fails only if out of memory.
#[tactic(auto, unfolding(crate::specs::Readings::line_in))]
pub fn line_in(alloc: Global, frame: &Frame<'_>) -> Result<Option<Line>, AllocError>
    ensures { IfOk result (λ found. IsSeen found (line_in (parts frame.now.kind frame.now.moment frame.now.payload.now))) }
{
    let Some(call) = call_in(alloc, frame.kind, frame.payload)? else {
        return Ok(None);
    };
    if frame.moment > LATEST_MOMENT {
        return Ok(None);
    }
    Ok(Some(Line {
        moment: frame.moment,
        call,
    }))
}

#[tactic(auto, unfolding(crate::specs::Readings::call_in))]
fn call_in(alloc: Global, kind: u8, payload: &[u8]) -> Result<Option<Call>, AllocError>
    ensures { IfOk result (λ found. IsSeen found (call_in kind payload.now)) }
{
    match kind {
        DREW => drew(alloc, payload),
        HEARD => Ok(Some(Call::Heard(Bytes::copy_from_slice(alloc, payload)?))),
        TICKED => Ok(bare(Call::Ticked, payload)),
        SHOWED => Ok(showed(payload)),
        ASKED_LEAVE => Ok(bare(Call::AskedLeave, payload)),
        GAVE => Ok(gave(payload)),
        TOOK => took(alloc, payload),
        ENDED => Ok(bare(Call::Ended, payload)),
        _ => Ok(None),
    }
}

fn bare(call: Call, payload: &[u8]) -> Option<Call>
    ensures { IsSeen result (bare call payload.now) }
{
    if payload.is_empty() { Some(call) } else { None }
}

#[tactic(auto, unfolding(crate::specs::Readings::drew_in))]
fn drew(alloc: Global, payload: &[u8]) -> Result<Option<Call>, AllocError>
    ensures { IfOk result (λ found. IsSeen found (drew_in payload.now)) }
{
    let mut reader = Reader::new(payload);
    let Some(page) = reader.page() else {
        return Ok(None);
    };
    let body = Bytes::copy_from_slice(alloc, reader.rest())?;
    Ok(Some(Call::Drew(page, body)))
}

#[tactic(auto, unfolding(crate::specs::Readings::showed_in))]
fn showed(payload: &[u8]) -> Option<Call>
    ensures { IsSeen result (showed_in payload.now) }
{
    let mut reader = Reader::new(payload);
    let page = reader.page()?;
    if reader.rest().is_empty() {
        Some(Call::Showed(page))
    } else {
        None
    }
}

#[tactic(auto, unfolding(crate::specs::Readings::gave_in))]
fn gave(payload: &[u8]) -> Option<Call>
    ensures { IsSeen result (gave_in payload.now) }
{
    let mut reader = Reader::new(payload);
    let slot = reader.slot()?;
    if reader.rest().is_empty() {
        Some(Call::Gave(slot))
    } else {
        None
    }
}

#[tactic(auto, unfolding(crate::specs::Readings::took_in))]
fn took(alloc: Global, payload: &[u8]) -> Result<Option<Call>, AllocError>
    ensures { IfOk result (λ found. IsSeen found (took_in payload.now)) }
{
    let mut reader = Reader::new(payload);
    let Some(slot) = reader.slot() else {
        return Ok(None);
    };
    match read_message(alloc, reader.rest())? {
        Some(message) => Ok(Some(Call::Took(slot, message))),
        None => Ok(None),
    }
}
