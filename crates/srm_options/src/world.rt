//! The command lines of `srm world`, and of `srm` by itself.

use crate::audit::audit_command;
use crate::board::board_command;
use crate::help::{ABOUT, WORLD, WORLD_HELP};
use crate::node::node_command;
use crate::picture::picture_command;
use crate::reply::Reply;
use crate::room::room_command;
use clap::error::ErrorKind;
use clap::{Arg, ArgAction, Command};
use std::alloc::{AllocError, Global};

/// What a command line of `srm world` says.
#[derive(Clone, Copy, Debug, PartialEq, Eq)]
pub struct WorldOptions {
    /// Whether the script may have the lines of `--extended`.
    pub extended: bool,
}

/// Reads the arguments behind `srm`, if the first is none of `node`, `board`, `picture`, `audit` and `room`. Returns options if they ask for `srm world`. Fails with
/// [`Reply::Help`] if they ask for help or the version, [`Reply::Wrong`] with what is wrong in them, also if one of the five stands behind an option, and
/// [`Reply::Memory`] if out of memory.
pub fn read_world<'a>(alloc: Global, arguments: &'a [&'a str]) -> Result<WorldOptions, Reply> {
    let mut command = srm_command(alloc)?;
    let matches = command.try_get_matches_from_mut(arguments)?;
    match matches.subcommand() {
        Some(("world", matches)) => Ok(WorldOptions {
            extended: matches.get_flag("extended"),
        }),
        Some(("picture", _)) => Err(told(&mut command, "'picture' has to be the first word")),
        Some(("board", _)) => Err(told(&mut command, "'board' has to be the first word")),
        Some(("audit", _)) => Err(told(&mut command, "'audit' has to be the first word")),
        Some(("room", _)) => Err(told(&mut command, "'room' has to be the first word")),
        _ => Err(told(&mut command, "'node' has to be the first word")),
    }
}

fn srm_command<'a>(alloc: Global) -> Result<Command<'a>, AllocError> {
    let extended = Arg::new(alloc, "extended")
        .long("extended")
        .action(ArgAction::SetTrue);
    let world = Command::new(alloc, "world")
        .about(WORLD)
        .override_help(WORLD_HELP)
        .arg(extended)?;
    Command::new(alloc, "srm")
        .bin_name("srm")?
        .no_binary_name(true)
        .version("0.1.0")
        .about(ABOUT)
        .subcommand_required(true)
        .subcommand(world)?
        .subcommand(picture_command(alloc)?)?
        .subcommand(node_command(alloc, false)?)?
        .subcommand(board_command(alloc)?)?
        .subcommand(audit_command(alloc)?)?
        .subcommand(room_command(alloc)?)
}

/// That one of the other commands comes first, for a caller who reads it here.
fn told(command: &mut Command<'_>, text: &str) -> Reply {
    Reply::to(command, ErrorKind::InvalidSubcommand, text)
}
