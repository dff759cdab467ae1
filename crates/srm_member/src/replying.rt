//! What a command line gets in place of being done.

ghost use Rattle.std.specs.Prelude.{◌≡◌};
ghost use Rattle.std.specs.Io.KnownBytes.{Keeps};
ghost use Rattle.srm_member.specs.Statuses.{StatusOf, KeepsUnlessHelp};

use srm_options::Reply;
use srm_script::{ScriptFault, WIRE_FAILED, WRONG_USAGE};
use std::io::Write;

/// Prints a reply: the help or version to `out`; what is wrong in a command line, which host isn't found, or that memory ran out to `err`.
///
/// Returns the program's status: 0 if the help or version was printed; 1 if `out` fails, or 4 if it is out of memory; 2 for a wrong command line; 3 if a host isn't
/// found; 4 if memory ran out. An `err` that fails changes nothing. Only the help or version goes to `out`, and nothing goes to `err` if the status is 0.
pub fn print_reply<O: Write, E: Write>(reply: &Reply, out: &mut O, err: &mut E) -> u8
    ensures status { StatusOf reply.now result }
    ensures out { KeepsUnlessHelp reply.now (O.contents out.old) (O.contents out.new) }
    ensures err { result ≡ 0 → Keeps (E.contents err.old) (E.contents err.new) }
{
    match reply {
        Reply::Help(text) => match write!(out, "{text}") {
            Ok(()) => 0,
            Err(error) => ScriptFault::of_output(error).print(err),
        },
        Reply::Wrong(text) => {
            // Where this can't be written there is nobody left to tell.
            let _ = write!(err, "{text}");
            WRONG_USAGE
        }
        Reply::Unresolved(text) => {
            let _ = writeln!(err, "{text}");
            WIRE_FAILED
        }
        Reply::Memory => ScriptFault::Memory.print(err),
    }
}
