//! The lines of a member's calls.

ghost use Rattle.std.specs.Prelude.{◌≡◌, ◌++◌, [], IfOk, OnOk};
ghost use Rattle.std.specs.List.{cons_option};
ghost use Rattle.srm_codec.specs.Spelling.{spelling};
ghost use Rattle.srm_replays.specs.Calls.{is_idle, acts_by, acts};
ghost use Rattle.srm_record.specs.Calls.{call_of, line_of, lines_of, last_after, last_recorded};

use bytes::Bytes;
use srm_codec::{Datagram, encodable, encode};
use srm_entries::{Effects, Entry, Input, Verdict};
use srm_frames::{Call, Line};
use std::alloc::{AllocError, Global};

/// Returns the lines of a member's calls in this session, in order: of each that acts one. Fails as [`line_of`] does.
pub fn lines_of(alloc: Global, session: u32, entries: &[Entry]) -> Result<Vec<Line>, AllocError>
    ensures { IfOk result (λ lines. lines.items ≡ lines_of session entries.now) }
{
    let mut lines = Vec::new(alloc);
    for entry in entries {
        let line = line_of(alloc, session, entry)?;
        add(&mut lines, line)?;
    }
    Ok(lines)
}

fn add(lines: &mut Vec<Line>, line: Option<Line>) -> Result<(), AllocError>
    ensures { OnOk result (lines.new.items ≡ lines.old.items ++ cons_option line []) }
{
    match line {
        Some(line) => lines.push(line).map_err(AllocError::from),
        None => Ok(()),
    }
}

/// Returns the line of a call in this session, if it acts. Fails if out of memory, or if a datagram was heard that has no spelling, which no member accepts.
pub fn line_of(alloc: Global, session: u32, entry: &Entry) -> Result<Option<Line>, AllocError>
    ensures { IfOk result (λ found. found ≡ line_of session entry.now) }
{
    if !acts(entry) {
        return Ok(None);
    }
    match call_of(alloc, session, &entry.input)? {
        Some(call) => Ok(Some(Line {
            moment: entry.moment,
            call,
        })),
        None => Ok(None),
    }
}

fn call_of(alloc: Global, session: u32, input: &Input) -> Result<Option<Call>, AllocError>
    ensures { IfOk result (λ found. found ≡ call_of session input.now) }
{
    match input {
        Input::Drew(page, body) => Ok(Some(Call::Drew(*page, body.clone()?))),
        Input::Heard(datagram) => {
            let bytes = spelled(alloc, session, datagram)?;
            Ok(Some(Call::Heard(Bytes::copy_from_slice(alloc, bytes.as_slice())?)))
        }
        Input::Ticked => Ok(Some(Call::Ticked)),
        Input::Showed(page) => Ok(Some(Call::Showed(*page))),
        Input::AskedLeave => Ok(Some(Call::AskedLeave)),
        Input::Gave(slot) => Ok(Some(Call::Gave(*slot))),
        Input::Noise | Input::Took(_) => Ok(None),
    }
}

// The bytes of a datagram. Fails if out of memory, or if it has no spelling.
fn spelled(alloc: Global, session: u32, datagram: &Datagram) -> Result<Vec<u8>, AllocError>
    ensures { IfOk result (λ bytes. bytes.items ≡ spelling session datagram.now) }
{
    if !encodable(datagram) {
        return Err(AllocError);
    }
    encode(alloc, session, datagram)
}

/// Returns the last moment in the record after a call.
pub fn last_after(last: u64, entry: &Entry) -> u64
    ensures { result ≡ last_after last entry.now }
{
    if acts(entry) { entry.moment } else { last }
}

/// Returns the last moment in the record of a member that was made at a moment.
pub fn last_recorded(made: u64, entries: &[Entry]) -> u64
    ensures { result ≡ last_recorded made entries.now }
{
    let mut last = made;
    for entry in entries {
        last = last_after(last, entry);
    }
    last
}

/// Returns whether a call did something: whether anything but the last moment may be another after it. It takes no memory.
pub fn acts(entry: &Entry) -> bool
    ensures { result ≡ acts entry.now }
{
    matches!(entry.verdict, Verdict::Done) && acts_by(&entry.input, &entry.effects)
}

fn acts_by(input: &Input, effects: &Effects) -> bool
    ensures { result ≡ acts_by input.now effects.now }
{
    match input {
        Input::Drew(_, _) | Input::Heard(_) | Input::Showed(_) | Input::AskedLeave => true,
        Input::Noise | Input::Took(_) => false,
        Input::Ticked => !is_idle(effects),
        Input::Gave(_) => !effects.message.is_none(),
    }
}

fn is_idle(effects: &Effects) -> bool
    ensures { result ≡ is_idle effects.now }
{
    effects.arms.as_slice().is_empty()
        && effects.asks.as_slice().is_empty()
        && effects.fixes.as_slice().is_empty()
        && effects.outs.as_slice().is_empty()
}
