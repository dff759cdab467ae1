//! A part of the program: plays a script of several members, or draws a picture of it.
//!
//! It knows the three command lines that ask for this, and stands neither on members nor on a parser of command lines, so less is compiled before it runs. `./srm`
//! runs it where nothing is proved yet.
#![tactic(auto)]

ghost use Rattle.std.specs.Prelude.{◌≡◌};
ghost use Rattle.srm_script.specs.declared.status.TheConstants.{WRONG_USAGE};

use srm_arguments::{ArgumentFault, read_arguments, texts_of};
use srm_played::run_picture;
use srm_script::{Dialect, WRONG_USAGE, print_fault, run_script_in};
use std::io::{Write, writer};
use std::process::ExitCode;

/// What any other command line is told.
const OTHERS: &str =
    "error: this plays 'world', 'world --extended' and 'picture'; all else is for ./srm";

fn main(rt: HostRuntime) -> ExitCode {
    let mut err = rt.stderr();
    match play(&rt, &mut err) {
        Ok(status) => ExitCode::from(status),
        Err(fault) => ExitCode::from(fault.print(&mut err)),
    }
}

/// Does what the command line says. The program's status.
fn play<E: Write>(rt: &HostRuntime, err: &mut E) -> Result<u8, ArgumentFault> {
    let alloc = rt.alloc();
    let arguments = read_arguments(rt)?;
    let texts = texts_of(alloc, arguments.as_slice())?;
    let mut script = rt.stdin();
    let mut out = writer(rt);
    let status = match texts.as_slice() {
        ["world"] => run_script_in(alloc, Dialect::Plain, &mut script, &mut out, err),
        ["world", "--extended"] => {
            run_script_in(alloc, Dialect::Extended, &mut script, &mut out, err)
        }
        ["picture"] => run_picture(alloc, &mut script, &mut out, err),
        _ => refuse(err),
    };
    Ok(status)
}

/// Tells that a command line isn't for this program, and returns the status of wrong usage.
fn refuse<E: Write>(err: &mut E) -> u8
    ensures { result ≡ WRONG_USAGE }
{
    print_fault(&OTHERS, err, WRONG_USAGE)
}
