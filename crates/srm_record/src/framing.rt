//! The frames of a member's calls, and of its end.

ghost use Rattle.std.specs.Prelude.{◌≡◌, ◌++◌, OnOk};
ghost use Rattle.srm_frames.specs.Lines.{line_text};
ghost use Rattle.srm_record.specs.Takes.{end_at};
ghost use Rattle.srm_record.specs.Writing.{call_text};

use crate::taking::end_at;
use crate::telling::{acts, line_of};
use srm_entries::{Entry, Input};
use srm_frames::{put_heard, put_line};
use std::alloc::{AllocError, Global};

/// Appends the frame of a call to bytes, if it acts. Fails as [`line_of`] does.
pub fn put_call(
    alloc: Global,
    out: &mut Vec<u8>,
    session: u32,
    entry: &Entry,
) -> Result<(), AllocError>
    ensures { OnOk result (out.new.items ≡ out.old.items ++ call_text session entry.now) }
{
    match &entry.input {
        // Most of what a record has is datagrams, so these get no line that owns their bytes.
        Input::Heard(datagram) if acts(entry) => put_heard(out, entry.moment, session, datagram),
        _ => put_line_of(alloc, out, session, entry),
    }
}

fn put_line_of(
    alloc: Global,
    out: &mut Vec<u8>,
    session: u32,
    entry: &Entry,
) -> Result<(), AllocError>
    ensures { OnOk result (out.new.items ≡ out.old.items ++ call_text session entry.now) }
{
    match line_of(alloc, session, entry)? {
        Some(line) => put_line(out, &line),
        None => Ok(()),
    }
}

/// Appends the frame that a record ends with, at its last moment. Fails only if out of memory.
pub fn put_end(out: &mut Vec<u8>, last: u64) -> Result<(), AllocError>
    ensures { OnOk result (out.new.items ≡ out.old.items ++ line_text (end_at last)) }
{
    put_line(out, &end_at(last))
}
