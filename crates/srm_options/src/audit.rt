//! The command line of `srm audit`.

use crate::help::{AUDIT, AUDIT_HELP};
use crate::names::Names;
use crate::node::{flag, option};
use crate::reply::Reply;
use clap::{Arg, ArgAction, Command};
use std::alloc::{AllocError, Global};

/// How an honest session is printed. Any other verdict is printed in words.
#[derive(Clone, Copy, Debug, PartialEq, Eq)]
pub enum AuditOutput {
    /// In words.
    Words,
    /// As a script.
    Script,
    /// As a picture.
    Picture,
}

/// What a command line of `srm audit` says.
#[derive(Debug, Drop)]
pub struct AuditOptions<'a> {
    /// The paths of the records' files, at least one.
    pub files: Vec<&'a str>,
    /// How an honest session is printed.
    pub output: AuditOutput,
    /// The path of the file of the room that names the members, if one does.
    pub room: Option<&'a str>,
    /// What the members are called. Whoever reads the room puts its names here.
    pub names: Names,
}

/// Reads the arguments behind `srm audit`. Fails with [`Reply::Help`] for `--help`, [`Reply::Wrong`] if there is no file, another option or both options, and
/// [`Reply::Memory`] if out of memory.
pub fn read_audit<'a>(alloc: Global, arguments: &'a [&'a str]) -> Result<AuditOptions<'a>, Reply> {
    let mut command = audit_command(alloc)?;
    let matches = command.try_get_matches_from_mut(arguments)?;
    let mut files = Vec::new(alloc);
    for path in matches.get_strs("FILE").unwrap_or(&[]) {
        files.push(*path).map_err(AllocError::from)?;
    }
    let output = if matches.get_flag("script") {
        AuditOutput::Script
    } else if matches.get_flag("picture") {
        AuditOutput::Picture
    } else {
        AuditOutput::Words
    };
    let room = matches.get_str("room");
    Ok(AuditOptions {
        files,
        output,
        room,
        names: Names::none(alloc),
    })
}

/// Makes the command, for its own arguments and for the help on all commands.
pub(crate) fn audit_command<'a>(alloc: Global) -> Result<Command<'a>, AllocError> {
    let files = Arg::new(alloc, "FILE")
        .action(ArgAction::Append)
        .num_args(1..)
        .required(true);
    let script = flag(alloc, "script", "as a script").conflicts_with("picture")?;
    Command::new(alloc, "audit")
        .bin_name("srm audit")?
        .no_binary_name(true)
        .about(AUDIT)
        .override_help(AUDIT_HELP)
        .arg(script)?
        .arg(flag(alloc, "picture", "as a picture"))?
        .arg(option(alloc, "room", "FILE", "the room that names the members"))?
        .arg(files)
}
