//! The lines of events.

ghost use Rattle.std.specs.Prelude.{◌≤◌, IfOk};
ghost use Rattle.srm_names.specs.declared.limits.TheConstants.{LATEST_MOMENT};
ghost use Rattle.srm_world.specs.Events.{IsTimely};

use super::line_reader::{LineFault, LineReader};
use bytes::Bytes;
use srm_names::LONGEST_BODY;
use srm_world::Event;
use std::alloc::Global;

/// Reads an event of a kind from the rest of its line.
pub fn read_event(alloc: Global, kind: &str, reader: LineReader<'_>) -> Result<Event, LineFault>
    ensures { IfOk result IsTimely }
{
    match kind {
        "draw" => read_draw(alloc, reader),
        "deliver" => read_deliver(reader),
        "tick" => {
            let (member, now) = read_moment(reader)?;
            Ok(Event::Tick { member, now })
        }
        "show" => read_show(reader),
        "leave" => {
            let (member, now) = read_moment(reader)?;
            Ok(Event::Leave { member, now })
        }
        "give" => {
            let (member, slot) = read_slot(reader)?;
            Ok(Event::Give { member, slot })
        }
        "take" => {
            let (member, slot) = read_slot(reader)?;
            Ok(Event::Take { member, slot })
        }
        _ => Err(LineFault::Bad),
    }
}

/// Reads `M T C.P`, or `M T C.P TEXT`.
fn read_draw(alloc: Global, mut reader: LineReader<'_>) -> Result<Event, LineFault>
    ensures { IfOk result IsTimely }
{
    let member = reader.member()?;
    let now = reader.moment()?;
    let page = reader.page()?;
    let text = reader.rest().unwrap_or("");
    if text.len() > usize::from(LONGEST_BODY) {
        return Err(LineFault::Bad);
    }
    let body = Bytes::copy_from_slice(alloc, text.as_bytes())?;
    Ok(Event::Draw {
        member,
        now,
        page,
        body,
    })
}

/// Reads `M T K`.
fn read_deliver(mut reader: LineReader<'_>) -> Result<Event, LineFault>
    ensures { IfOk result IsTimely }
{
    let member = reader.member()?;
    let now = reader.moment()?;
    let index = reader.number(u64::from(u32::MAX))? as usize;
    reader.end()?;
    Ok(Event::Deliver { member, now, index })
}

/// Reads `M T`.
fn read_moment(mut reader: LineReader<'_>) -> Result<(u8, u64), LineFault>
    ensures { IfOk result (λ r. r.1 ≤ LATEST_MOMENT) }
{
    let member = reader.member()?;
    let now = reader.moment()?;
    reader.end()?;
    Ok((member, now))
}

/// Reads `M T C.P`.
fn read_show(mut reader: LineReader<'_>) -> Result<Event, LineFault>
    ensures { IfOk result IsTimely }
{
    let member = reader.member()?;
    let now = reader.moment()?;
    let page = reader.page()?;
    reader.end()?;
    Ok(Event::Show { member, now, page })
}

/// Reads `M J`.
fn read_slot(mut reader: LineReader<'_>) -> Result<(u8, u8), LineFault> {
    let member = reader.member()?;
    let slot = reader.slot()?;
    reader.end()?;
    Ok((member, slot))
}
