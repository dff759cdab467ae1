//! Reading scripts: the members of a world, and what happens in it.

ghost use Rattle.std.specs.Prelude.{◌≡◌, length, All, IfOk};
ghost use Rattle.srm_world.specs.Traces.{IsRoster, started};
ghost use Rattle.srm_world.specs.Events.{IsTimely};

mod dialect;
mod event;
mod header;
mod line;
mod line_reader;
mod number;
mod roster;

use crate::fault::ScriptFault;
pub use dialect::Dialect;
use header::Header;
use line::{read_line, read_members};
use srm_agent::Config;
use srm_timers::Listed;
use srm_world::Event;
use std::alloc::Global;

/// What a script says: the settings and the random numbers of each member, 1 to 32 of them, and the events in order.
#[derive(Drop)]
pub struct Script {
    /// The settings of the members, in order of number.
    pub configs: Vec<Config>,
    /// The random numbers of the members, in the same order.
    pub words: Vec<Listed>,
    /// Whether timers are printed.
    pub timers: bool,
    /// What happens, in order.
    pub events: Vec<Event>,
}

/// Reads a script of plain lines, of any length, and runs nothing.
///
/// Fails with [`ScriptFault::BadLine`] for its first bad line, and with [`ScriptFault::Memory`].
pub fn read_script(alloc: Global, text: &[u8]) -> Result<Script, ScriptFault>
    ensures roster { IfOk result (λ script. IsRoster (started script.configs.items)) }
    ensures words { IfOk result (λ script. length script.words.items ≡ length script.configs.items) }
    ensures timely { IfOk result (λ script. All IsTimely script.events.items) }
{
    read_script_in(alloc, Dialect::Plain, text)
}

/// Reads a script that may have the lines of this dialect, and else does what [`read_script`] does, with the same faults.
pub fn read_script_in(alloc: Global, dialect: Dialect, text: &[u8]) -> Result<Script, ScriptFault>
    ensures roster { IfOk result (λ script. IsRoster (started script.configs.items)) }
    ensures words { IfOk result (λ script. length script.words.items ≡ length script.configs.items) }
    ensures timely { IfOk result (λ script. All IsTimely script.events.items) }
{
    let mut lines = text
        .strip_suffix(b"\n")
        .unwrap_or(text)
        .split(|byte| *byte == b'\n');
    let first = lines.next().unwrap_or(b"");
    let members = read_members(first).map_err(|fault| fault.at(1))?;
    let mut header = Header::new(alloc, members);
    let mut events = Vec::new(alloc);
    for (number, line) in (2..=u64::MAX).zip(lines) {
        read_line(alloc, dialect, line, &mut header, &mut events).map_err(|fault| fault.at(
            number,
        ))?;
    }
    let configs = header.configs(alloc)?;
    let timers = header.has_timers();
    Ok(Script {
        configs,
        words: header.words(alloc)?,
        timers,
        events,
    })
}
