//! Running a script.

ghost use Rattle.std.specs.Prelude.{All};
ghost use Rattle.srm_world.specs.Events.{IsTimely};

use crate::fault::ScriptFault;
use crate::input::read_input;
use crate::printer::EntryPrinter;
use crate::script::{Dialect, Script, read_script_in};
use srm_timers::Listed;
use srm_world::{Event, World};
use std::alloc::Global;
use std::io;
use std::io::{BufWriter, Read, Write};

/// Reads a script of plain lines from `reader`, runs it, and prints what happens to `out` and a fault to `err`. It checks all lines
/// before it runs any, so a script with a bad line prints nothing but the fault.
///
/// Returns the program's status: 0 if all went well; 1 if the input can't be read, has more than 1,000,000 bytes or a bad line, or the
/// output can't be written; 4 if out of memory. What was printed before memory ran out is still written.
pub fn run_script<I: Read, O: Write, E: Write>(
    alloc: Global,
    reader: &mut I,
    out: &mut O,
    err: &mut E,
) -> u8 {
    run_script_in(alloc, Dialect::Plain, reader, out, err)
}

/// Reads a script that may have the lines of this dialect, and does what [`run_script`] does. Returns the same statuses.
pub fn run_script_in<I: Read, O: Write, E: Write>(
    alloc: Global,
    dialect: Dialect,
    reader: &mut I,
    out: &mut O,
    err: &mut E,
) -> u8 {
    match run(alloc, dialect, reader, out) {
        Ok(()) => 0,
        Err(fault) => fault.print(err),
    }
}

fn run<I: Read, O: Write>(
    alloc: Global,
    dialect: Dialect,
    reader: &mut I,
    out: &mut O,
) -> Result<(), ScriptFault> {
    let input = read_input(alloc, reader)?;
    let Script {
        configs,
        words,
        timers,
        events,
    } = read_script_in(alloc, dialect, input.as_slice())?;
    let mut world = World::new(alloc, configs, words)?;
    let mut out = BufWriter::new(alloc, out).map_err(ScriptFault::of_output)?;
    let ran = run_events(&mut world, events, &mut EntryPrinter::new(timers), &mut out);
    // What was printed before memory ran out is still written.
    let flushed = out.flush();
    ran?;
    flushed.map_err(ScriptFault::of_output)
}

fn run_events<O: Write>(
    world: &mut World<Listed>,
    events: Vec<Event>,
    printer: &mut EntryPrinter,
    out: &mut O,
) -> Result<(), ScriptFault>
    requires { All IsTimely events.items }
{
    for event in events {
        run_event(world, event, printer, out)?;
    }
    Ok(())
}

/// Applies an event to a world, and prints what it did: the lines of its entry, or `skipped`. Its moment is at most 2^48 microseconds.
///
/// Fails with [`ScriptFault::Memory`] if the world or the output is out of memory, and with [`ScriptFault::Output`] if `out` can't be
/// written.
pub fn run_event<O: Write>(
    world: &mut World<Listed>,
    event: Event,
    printer: &mut EntryPrinter,
    out: &mut O,
) -> Result<(), ScriptFault>
    requires { IsTimely event }
{
    let printed = if world.apply(event)? {
        print_newest(world, printer, out)
    } else {
        writeln!(out, "skipped")
    };
    printed.map_err(ScriptFault::of_output)
}

/// Prints the newest entry of a world, if there is one. Fails only if the output does.
pub fn print_newest<O: Write>(
    world: &World<Listed>,
    printer: &mut EntryPrinter,
    out: &mut O,
) -> io::Result<()> {
    match world.trace().entries().last() {
        None => Ok(()),
        Some(entry) => printer.print_entry(out, entry),
    }
}
