//! The lines of a script.

ghost use Rattle.std.specs.Prelude.{◌≤◌, ◌<◌, All, IfOk};
ghost use Rattle.srm_names.specs.declared.limits.TheConstants.{MEMBERS};
ghost use Rattle.srm_world.specs.Events.{IsTimely};

use super::dialect::Dialect;
use super::event::read_event;
use super::header::Header;
use super::line_reader::{LineFault, LineReader};
use srm_names::MEMBERS;
use srm_world::Event;
use std::alloc::{AllocError, Global};

/// Reads the first line, `members N`, with N from 1 to 32.
pub fn read_members(line: &[u8]) -> Result<u8, LineFault>
    ensures some { IfOk result (λ members. 0 < members) }
    ensures few { IfOk result (λ members. members ≤ MEMBERS) }
{
    let mut reader = LineReader::new(line)?;
    if reader.next()? != "members" {
        return Err(LineFault::Bad);
    }
    let members = reader.number_from(1, u32::from(MEMBERS))?;
    reader.end()?;
    Ok(members as u8)
}

/// Reads a line after the first: a line of the header, or an event.
pub fn read_line(
    alloc: Global,
    dialect: Dialect,
    line: &[u8],
    header: &mut Header,
    events: &mut Vec<Event>,
) -> Result<(), LineFault>
    requires { All IsTimely events.old.items }
    ensures { All IsTimely events.new.items }
{
    let mut reader = LineReader::new(line)?;
    match reader.next()? {
        "bucket" => header.read_bucket(reader),
        "words" => header.read_words(alloc, reader),
        "timers" => header.read_timers(reader),
        "distance" if dialect == Dialect::Extended => header.read_distance(reader),
        kind => {
            let event = read_event(alloc, kind, reader)?;
            header.end();
            events.push(event).map_err(AllocError::from)?;
            Ok(())
        }
    }
}
