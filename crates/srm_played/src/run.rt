//! Running `srm picture`.

ghost use Rattle.srm_played.specs.Statuses.{IsStatus};

use crate::fault::PictureFault;
use crate::played::play;
use srm_picture::write_svg;
use srm_script::{ScriptFault, read_input, read_script};
use std::alloc::Global;
use std::io::{BufWriter, Read, Write};

/// Reads a script from `reader`, plays it, and writes its picture as SVG to `out` and a fault to `err`. If the script has a bad line or
/// too many events, it writes nothing to `out`.
///
/// Returns the program's status: 0 if all went well; 1 if the input can't be read, has more than 1,000,000 bytes, a bad line or more than
/// 2,000 events, or the output can't be written; 4 if out of memory.
pub fn run_picture<I: Read, O: Write, E: Write>(
    alloc: Global,
    reader: &mut I,
    out: &mut O,
    err: &mut E,
) -> u8
    ensures { IsStatus result }
{
    match run(alloc, reader, out) {
        Ok(()) => 0,
        Err(fault) => fault.print(err),
    }
}

fn run<I: Read, O: Write>(alloc: Global, reader: &mut I, out: &mut O) -> Result<(), PictureFault> {
    let input = read_input(alloc, reader)?;
    let played = play(alloc, read_script(alloc, input.as_slice())?)?;
    let picture = played.picture(alloc)?;
    let mut out = BufWriter::new(alloc, out).map_err(ScriptFault::of_output)?;
    write_svg(alloc, &mut out, &played.subject(), &picture).map_err(ScriptFault::of_output)?;
    Ok(out.flush().map_err(ScriptFault::of_output)?)
}
