//! Which datagrams a node drops.

ghost use Rattle.std.specs.Prelude.{◌↔◌, IsTrue};
ghost use Rattle.srm_options.specs.Options.{IsInGuardRange};

use crate::key_source::KeySource;
use crate::mistake::Mistake;
use crate::node::{flag, number, option};
use crate::path_option::path_in;
use clap::{ArgMatches, Command, value_parser};
use srm_names::{DRAWOPS, MEMBERS, PAGES};
use std::alloc::{AllocError, Global};

/// The most drawops that a member can miss, 16,777,216: all 65,536 of each of 32 streams on each of 8 pages.
pub const MOST_MISSING: u32 = DRAWOPS * MEMBERS as u32 * PAGES as u32;

/// Which datagrams a node drops, as if the network had lost them.
#[derive(Debug, Drop)]
pub struct GuardOptions {
    /// Whether it drops what doesn't come from an address of the roster, and what names another sender than the member of its address.
    pub only_roster: bool,
    /// Where the key that all members share comes from. With it the node numbers and tags what it sends, and drops what has no right tag or came before.
    pub key: Option<KeySource>,
    /// How many drawops may be missing, 1 to 16,777,216: the node drops a datagram that would make more missing. `None` for no limit.
    pub most_missing: Option<u32>,
}

impl GuardOptions {
    /// Returns whether the number of drawops that may be missing is in its range, if there is one.
    pub fn is_in_range(&self) -> bool
        ensures { IsTrue result ↔ IsInGuardRange self.now }
    {
        match self.most_missing {
            Some(most) => 1 <= most && most <= MOST_MISSING,
            None => true,
        }
    }
}

/// Adds the guard's options to a command. Fails only if out of memory.
pub fn with_guard<'a>(alloc: Global, command: Command<'a>) -> Result<Command<'a>, AllocError> {
    let most_missing = number(
        alloc,
        "most-missing",
        "N",
        "drops a datagram that would make more drawops missing, 1 to 16777216; who is further behind never catches up; else no limit",
    )
    .value_parser(value_parser!(u32).range(1..=i64::from(MOST_MISSING)));
    command
        .arg(flag(
            alloc,
            "only-roster",
            "drops what doesn't come from its sender's ADDR, as --live does unless --any-origin is given",
        ))?
        .arg(flag(
            alloc,
            "any-origin",
            "takes datagrams from any address and any sender, as without --live",
        ))?
        .arg(option(
            alloc,
            "key",
            "FILE",
            "numbers and tags each datagram by the key in this file, 16 to 1024 bytes, and drops what has no right tag or came before",
        ))?
        .arg(most_missing)
}

/// Returns what the arguments say of the guard. A live member keeps to its roster unless told otherwise; any other takes datagrams from any address. Fails if both are asked for, if the key's
/// file has an empty name, or if out of memory.
pub fn guard_in<'a>(
    alloc: Global,
    matches: &ArgMatches<'a>,
    live: bool,
) -> Result<GuardOptions, Mistake<'a>> {
    let only_roster = matches.get_flag("only-roster");
    let any_origin = matches.get_flag("any-origin");
    if only_roster && any_origin {
        return Err(Mistake::Origins);
    }
    let key = path_in(alloc, matches, "key")?;
    Ok(GuardOptions {
        only_roster: only_roster || (live && !any_origin),
        key: key.map(KeySource::File),
        most_missing: matches.get_one::<u32>("most-missing"),
    })
}
