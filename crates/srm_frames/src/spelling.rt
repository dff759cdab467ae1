//! Lines as frames.

ghost use Rattle.std.specs.Prelude.{◌≡◌, ◌++◌, OnOk};
ghost use Rattle.srm_codec.specs.Spelling.{page_bytes, spelling};
ghost use Rattle.srm_frames.specs.declared.line.Call.TheVariants as calls;
ghost use Rattle.srm_frames.specs.Frames.{frame};
ghost use Rattle.srm_frames.specs.Lines.{line_text, lines_text};

use crate::format::{ASKED_LEAVE, DREW, ENDED, GAVE, HEARD, PAGE_BYTES, SHOWED, TICKED, TOOK};
use crate::frame::{put_frame, put_head, seal};
use crate::line::{Call, Line};
use crate::message::{message_bytes, put_message, put_page};
use srm_codec::{Datagram, encodable, encode_into, length};
use srm_names::{Page, PageMsg};
use std::alloc::AllocError;

/// Appends the frames of lines to bytes, in order. Fails as [`put_line`] does.
pub fn put_lines(out: &mut Vec<u8>, lines: &[Line]) -> Result<(), AllocError>
    ensures { OnOk result (out.new.items ≡ out.old.items ++ lines_text lines.now) }
{
    for line in lines {
        put_line(out, line)?;
    }
    Ok(())
}

/// Appends the frame of a line to bytes. A line with a moment past 2^48 or a page slot past 7 is written, but [`read_record`](crate::read_record) refuses it.
///
/// Fails with `AllocError` if out of memory, or if the payload would have 2^32 bytes or more. What `out` has then is unspecified.
#[tactic(auto, unfolding(crate::specs::Lines::line_text))]
pub fn put_line(out: &mut Vec<u8>, line: &Line) -> Result<(), AllocError>
    ensures { OnOk result (out.new.items ≡ out.old.items ++ line_text line.now) }
{
    match &line.call {
        Call::Drew(page, body) => put_on_page(out, DREW, line.moment, *page, body.as_slice()),
        Call::Heard(datagram) => put_frame(out, HEARD, line.moment, datagram.as_slice()),
        Call::Ticked => put_frame(out, TICKED, line.moment, &[]),
        Call::Showed(page) => put_on_page(out, SHOWED, line.moment, *page, &[]),
        Call::AskedLeave => put_frame(out, ASKED_LEAVE, line.moment, &[]),
        Call::Gave(slot) => put_frame(out, GAVE, line.moment, &[*slot]),
        Call::Took(slot, message) => put_took(out, line.moment, *slot, message),
        Call::Ended => put_frame(out, ENDED, line.moment, &[]),
    }
}

fn put_on_page(
    out: &mut Vec<u8>,
    kind: u8,
    moment: u64,
    page: Page,
    behind: &[u8],
) -> Result<(), AllocError>
    ensures { OnOk result (out.new.items ≡ out.old.items ++ frame kind moment (page_bytes page ++ behind.now)) }
{
    let start = out.len();
    put_head(out, kind, moment, PAGE_BYTES.saturating_add(behind.len()))?;
    put_page(out, page)?;
    out.extend_from_slice(behind)?;
    seal(out, start)?;
    Ok(())
}

/// Appends the frame of a datagram of this session that was heard at a moment: that of a line with [`Call::Heard`], which would own the bytes.
///
/// Fails as [`put_line`] does, and for a datagram that has no spelling, which no member accepts.
#[tactic(auto, unfolding(crate::specs::Lines::line_text))]
pub fn put_heard(
    out: &mut Vec<u8>,
    moment: u64,
    session: u32,
    datagram: &Datagram,
) -> Result<(), AllocError>
    ensures { OnOk result (out.new.items ≡ out.old.items ++ line_text (record { moment = moment; call = calls.Heard (spelling session datagram.now) })) }
{
    if !encodable(datagram) {
        return Err(AllocError);
    }
    let start = out.len();
    put_head(out, HEARD, moment, length(datagram))?;
    encode_into(out, session, datagram)?;
    seal(out, start)?;
    Ok(())
}

/// Appends the frame of a message that the worker of a page slot took: that of a line with [`Call::Took`], which would own the message. Fails as [`put_line`] does.
#[tactic(auto, unfolding(crate::specs::Lines::line_text))]
pub fn put_took(
    out: &mut Vec<u8>,
    moment: u64,
    slot: u8,
    message: &PageMsg,
) -> Result<(), AllocError>
    ensures { OnOk result (out.new.items ≡ out.old.items ++ line_text (record { moment = moment; call = calls.Took slot message.now })) }
{
    let start = out.len();
    put_head(out, TOOK, moment, message_bytes(message).saturating_add(1))?;
    out.push(slot)?;
    put_message(out, message)?;
    seal(out, start)?;
    Ok(())
}
