//! What a page worker took, as bytes.

ghost use Rattle.std.specs.Prelude.{◌≡◌, ◌≤◌, ◌∷◌, ◌++◌, length, IfOk, OnOk};
ghost use Rattle.std.specs.Int.{w32, to_be_bytes};
ghost use Rattle.srm_codec.specs.Spelling.{page_bytes, name_bytes};
ghost use Rattle.srm_names.specs.declared.page_msg.PageMsg.TheVariants as messages;
ghost use Rattle.srm_frames.specs.declared.format.TheConstants.{LONGEST_PAYLOAD as longest_payload};
ghost use Rattle.srm_frames.specs.Messages.{draw_text, message_text};
ghost use Rattle.srm_frames.specs.Readings.{IsSeen, bare, open_in, draw_in, left_in, message_behind, message_in};

use crate::format::{CLOSE, DRAW, DRAW_HEAD_BYTES, LEFT, OPEN, PAGE_BYTES};
use crate::reader::Reader;
use bytes::Bytes;
use srm_names::{Drawop, Name, Page, PageMsg};
use std::alloc::{AllocError, Global};

/// Appends a message to bytes.
pub fn put_message(out: &mut Vec<u8>, message: &PageMsg) -> Result<(), AllocError>
    ensures { OnOk result (out.new.items ≡ out.old.items ++ message_text message.now) }
{
    match message {
        PageMsg::Open(page) => {
            out.push(OPEN)?;
            put_page(out, *page)?;
        }
        PageMsg::Draw(drawop) => put_draw(out, drawop)?,
        PageMsg::Left(member) => {
            out.push(LEFT)?;
            out.push(member.number())?;
        }
        PageMsg::Close => out.push(CLOSE)?,
    }
    Ok(())
}

/// Returns how many bytes a message has, or, if these are more than a payload may have, some number past that.
#[tactic(auto, unfolding(srm_codec::specs::Spelling::page_bytes, srm_codec::specs::Spelling::name_bytes))]
pub fn message_bytes(message: &PageMsg) -> usize
    ensures { result ≤ longest_payload → result ≡ length (message_text message.now) }
{
    match message {
        PageMsg::Open(_) => 1 + PAGE_BYTES,
        PageMsg::Draw(drawop) => DRAW_HEAD_BYTES.saturating_add(drawop.body.len()),
        PageMsg::Left(_) => 2,
        PageMsg::Close => 1,
    }
}

fn put_draw(out: &mut Vec<u8>, drawop: &Drawop) -> Result<(), AllocError>
    ensures { OnOk result (out.new.items ≡ out.old.items ++ draw_text drawop.now) }
{
    out.push(DRAW)?;
    put_name(out, drawop.name)?;
    out.extend_from_slice(&drawop.stamp.to_be_bytes())?;
    out.extend_from_slice(drawop.body.as_slice())?;
    Ok(())
}

#[tactic(auto, unfolding(srm_codec::specs::Spelling::name_bytes))]
fn put_name(out: &mut Vec<u8>, name: Name) -> Result<(), AllocError>
    ensures { OnOk result (out.new.items ≡ out.old.items ++ name_bytes name) }
{
    put_place(
        out,
        name.source().number(),
        name.stream().page,
        name.number(),
    )
}

fn put_place(out: &mut Vec<u8>, source: u8, page: Page, number: u32) -> Result<(), AllocError>
    ensures { OnOk result (out.new.items ≡ out.old.items ++ (source ∷ (page_bytes page ++ to_be_bytes w32 number))) }
{
    out.push(source)?;
    put_page(out, page)?;
    out.extend_from_slice(&number.to_be_bytes())?;
    Ok(())
}

/// Appends a page to bytes.
#[tactic(auto, unfolding(srm_codec::specs::Spelling::page_bytes))]
pub fn put_page(out: &mut Vec<u8>, page: Page) -> Result<(), AllocError>
    ensures { OnOk result (out.new.items ≡ out.old.items ++ page_bytes page) }
{
    out.push(page.creator.number())?;
    out.extend_from_slice(&page.number.to_be_bytes())?;
    Ok(())
}

/// Returns the message that bytes spell, if they spell one. Fails only if out of memory.
#[tactic(auto, unfolding(crate::specs::Readings::message_in))]
pub fn read_message(alloc: Global, bytes: &[u8]) -> Result<Option<PageMsg>, AllocError>
    ensures { IfOk result (λ found. IsSeen found (message_in bytes.now)) }
{
    let mut reader = Reader::new(bytes);
    match reader.u8() {
        Some(kind) => read_behind(alloc, kind, reader.rest()),
        None => Ok(None),
    }
}

fn read_behind(alloc: Global, kind: u8, bytes: &[u8]) -> Result<Option<PageMsg>, AllocError>
    ensures { IfOk result (λ found. IsSeen found (message_behind kind bytes.now)) }
{
    match kind {
        OPEN => Ok(read_open(bytes)),
        DRAW => read_draw(alloc, bytes),
        LEFT => Ok(read_left(bytes)),
        CLOSE => Ok(read_close(bytes)),
        _ => Ok(None),
    }
}

#[tactic(auto, unfolding(crate::specs::Readings::open_in))]
fn read_open(bytes: &[u8]) -> Option<PageMsg>
    ensures { IsSeen result (open_in bytes.now) }
{
    let mut reader = Reader::new(bytes);
    let page = reader.page()?;
    if reader.rest().is_empty() {
        Some(PageMsg::Open(page))
    } else {
        None
    }
}

#[tactic(auto, unfolding(crate::specs::Readings::left_in))]
fn read_left(bytes: &[u8]) -> Option<PageMsg>
    ensures { IsSeen result (left_in bytes.now) }
{
    let mut reader = Reader::new(bytes);
    let member = reader.member()?;
    if reader.rest().is_empty() {
        Some(PageMsg::Left(member))
    } else {
        None
    }
}

fn read_close(bytes: &[u8]) -> Option<PageMsg>
    ensures { IsSeen result (bare messages.Close bytes.now) }
{
    if bytes.is_empty() {
        Some(PageMsg::Close)
    } else {
        None
    }
}

#[tactic(auto, unfolding(crate::specs::Readings::draw_in))]
fn read_draw(alloc: Global, bytes: &[u8]) -> Result<Option<PageMsg>, AllocError>
    ensures { IfOk result (λ found. IsSeen found (draw_in bytes.now)) }
{
    let mut reader = Reader::new(bytes);
    let Some(name) = reader.name() else {
        return Ok(None);
    };
    let Some(stamp) = reader.moment() else {
        return Ok(None);
    };
    let body = Bytes::copy_from_slice(alloc, reader.rest())?;
    Ok(Some(PageMsg::Draw(Drawop { name, stamp, body })))
}
