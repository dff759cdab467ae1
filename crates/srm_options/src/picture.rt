//! The command line of `srm picture`.

use crate::help::{PICTURE, PICTURE_HELP};
use crate::reply::Reply;
use clap::Command;
use std::alloc::{AllocError, Global};

/// Reads the arguments behind `srm picture`, which takes none. Fails with [`Reply::Help`] for `--help`, [`Reply::Wrong`] for any other argument, and
/// [`Reply::Memory`] if out of memory.
pub fn read_picture<'a>(alloc: Global, arguments: &'a [&'a str]) -> Result<(), Reply> {
    let mut command = picture_command(alloc)?;
    command.try_get_matches_from_mut(arguments)?;
    Ok(())
}

/// Makes the command, for its own arguments and for the help on all commands.
pub(crate) fn picture_command<'a>(alloc: Global) -> Result<Command<'a>, AllocError> {
    let command = Command::new(alloc, "picture")
        .bin_name("srm picture")?
        .no_binary_name(true)
        .about(PICTURE)
        .override_help(PICTURE_HELP);
    Ok(command)
}
