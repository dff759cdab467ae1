//! What a command line gets if it isn't carried out.

ghost use Rattle.std.specs.Prelude.{◌≡◌};
ghost use Rattle.srm_options.specs.declared.reply.Reply.TheVariants.{Memory};

use clap::error::ErrorKind;
use clap::{Command, Error};
use std::alloc::AllocError;
use std::fmt;

/// What a command line gets in place of being done.
#[derive(Debug, Drop)]
pub enum Reply {
    /// The help or the version, which it asks for.
    Help(Text),
    /// What is wrong in it.
    Wrong(Text),
    /// It names a host that isn't found, or that wasn't looked up ([`read_node`](crate::read_node)): the line for standard error, without its line end.
    Unresolved(String),
    /// Memory ran out.
    Memory,
}

impl Reply {
    /// Returns what this command says of such a mistake.
    pub(crate) fn to(command: &mut Command<'_>, kind: ErrorKind, text: &str) -> Reply {
        match command.error(kind, text) {
            Ok(error) => Reply::from(error),
            Err(_) => Reply::Memory,
        }
    }
}

/// A text for the user, with its line ends.
#[derive(Debug, Drop)]
pub struct Text(Error);

impl fmt::Display for Text {
    fn fmt<W: fmt::Write>(&self, f: &mut fmt::Formatter<W>) -> fmt::Result {
        write!(f, "{}", self.0)
    }
}

impl From<Error> for Reply {
    fn from(error: Error) -> Reply {
        match error.kind() {
            ErrorKind::OutOfMemory => Reply::Memory,
            ErrorKind::DisplayHelp | ErrorKind::DisplayVersion => Reply::Help(Text(error)),
            _ => Reply::Wrong(Text(error)),
        }
    }
}

impl From<AllocError> for Reply {
    ghost from_gives = { λ _ gives. gives ≡ Memory };

    fn from(_error: AllocError) -> Reply {
        Reply::Memory
    }
}
