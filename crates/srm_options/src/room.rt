//! The command lines of `srm room`.

use crate::help::{ROOM, ROOM_HELP};
use crate::reply::Reply;
use clap::error::ErrorKind;
use clap::{Arg, ArgAction, Command};
use std::alloc::{AllocError, Global};

/// What a command line of `srm room` asks for, with the path of the room's file.
#[derive(Debug, Drop)]
pub enum RoomCommand<'a> {
    /// To make a room of these members, each a name and an address.
    New(&'a str, Vec<(&'a str, &'a str)>),
    /// To print it.
    Show(&'a str),
    /// To write the room that standard input says.
    Take(&'a str),
    /// To say what it has, and which members this machine may be.
    Check(&'a str),
}

/// Reads the arguments behind `srm room`. Fails with [`Reply::Help`] for `--help`, [`Reply::Wrong`] with what is wrong in them, and [`Reply::Memory`] if out of memory.
pub fn read_room_command<'a>(
    alloc: Global,
    arguments: &'a [&'a str],
) -> Result<RoomCommand<'a>, Reply> {
    let mut command = room_command(alloc)?;
    let matches = command.try_get_matches_from_mut(arguments)?;
    match matches.get_strs("WORD").unwrap_or(&[]) {
        ["new", file, members @ ..] if !members.is_empty() => {
            match members_in(alloc, &mut command, members) {
                Ok(members) => Ok(RoomCommand::New(file, members)),
                Err(reply) => Err(reply),
            }
        }
        ["show", file] => Ok(RoomCommand::Show(file)),
        ["take", file] => Ok(RoomCommand::Take(file)),
        ["check", file] => Ok(RoomCommand::Check(file)),
        _ => Err(Reply::to(
            &mut command,
            ErrorKind::ValueValidation,
            "'srm room' is followed by new FILE NAME=ADDR.., show FILE, take FILE or check FILE",
        )),
    }
}

// Takes each word apart at its first `=`.
fn members_in<'a>(
    alloc: Global,
    command: &mut Command<'_>,
    words: &[&'a str],
) -> Result<Vec<(&'a str, &'a str)>, Reply> {
    let mut members = Vec::new(alloc);
    for word in words {
        let Some(member) = word.split_once('=') else {
            return Err(no_member(alloc, command, word));
        };
        if members.push(member).is_err() {
            return Err(Reply::Memory);
        }
    }
    Ok(members)
}

fn no_member(alloc: Global, command: &mut Command<'_>, word: &str) -> Reply {
    match format!(in alloc;
        "'{word}' is no member: write a name, '=' and an address, as ada=192.0.2.7:47100"
    ) {
        Ok(text) => Reply::to(command, ErrorKind::ValueValidation, text.as_str()),
        Err(_) => Reply::Memory,
    }
}

/// Makes the command, for its own arguments and for the help on all commands.
pub(crate) fn room_command<'a>(alloc: Global) -> Result<Command<'a>, AllocError> {
    let words = Arg::new(alloc, "WORD")
        .action(ArgAction::Append)
        .num_args(1..)
        .required(true);
    Command::new(alloc, "room")
        .bin_name("srm room")?
        .no_binary_name(true)
        .about(ROOM)
        .override_help(ROOM_HELP)
        .arg(words)
}
