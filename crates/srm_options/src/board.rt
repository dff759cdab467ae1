//! The command line of `srm board`.

ghost use Rattle.std.specs.Prelude.{◌↔◌, IfOk, IsTrue};
ghost use Rattle.srm_options.specs.Boards.{IsBoardInRange, KeepsOut};

use crate::help::{BOARD, BOARD_MORE};
use crate::mistake::Mistake;
use crate::node::{flag, node_command, option, options_in, told};
use crate::node_options::NodeOptions;
use crate::reply::Reply;
use crate::resolving::{Resolve, System};
use clap::{Arg, ArgMatches, Command};
use std::alloc::{AllocError, Global};
use std::net::{Ipv4Addr, Net, SocketAddr, SocketAddrV4};

/// Without `--http` a board is served at this port of this machine.
const PORT: u16 = 8080;

/// What a command line of `srm board` says.
#[derive(Debug, Drop)]
pub struct BoardOptions {
    /// The member, with the defaults of a live one.
    pub node: NodeOptions,
    /// Where its board is served.
    pub http: SocketAddr,
    /// Whether a token stands in the address of its page.
    pub has_token: bool,
}

impl BoardOptions {
    /// Returns whether its member's options are in their ranges, and a board that is served at each address of the machine has a token.
    pub fn is_in_range(&self) -> bool
        ensures { IsTrue result ↔ IsBoardInRange self.now }
    {
        self.node.is_in_range() && self.keeps_out()
    }

    // Whether nobody reaches it without its token from everywhere.
    fn keeps_out(&self) -> bool
        ensures { IsTrue result ↔ KeepsOut self.now }
    {
        self.has_token || !self.http.ip().is_unspecified()
    }
}

/// Reads the arguments behind `srm board`, and asks the system for the addresses of hosts that they name, which may wait for the network. Returns options in their
/// ranges.
///
/// Fails with [`Reply::Help`] if the arguments ask for it, [`Reply::Wrong`] with what is wrong in them, [`Reply::Unresolved`] with the first host that the system
/// doesn't find, and [`Reply::Memory`] if out of memory.
pub fn read_board<R: Net + Copy>(
    rt: &R,
    alloc: Global,
    arguments: &[&str],
) -> Result<BoardOptions, Reply>
    ensures { IfOk result IsBoardInRange }
{
    // Its member is read as a live one.
    let mut words = Vec::new(alloc);
    if words.push("--live").is_err() || words.extend_from_slice(arguments).is_err() {
        return Err(Reply::Memory);
    }
    read_words(alloc, words.as_slice(), &System(*rt))
}

fn read_words<'a, S: Resolve>(
    alloc: Global,
    words: &'a [&'a str],
    names: &S,
) -> Result<BoardOptions, Reply>
    ensures { IfOk result IsBoardInRange }
{
    let mut command = board_command(alloc)?;
    let matches = command.try_get_matches_from_mut(words)?;
    let options = match board_in(alloc, &matches, names) {
        Ok(options) => options,
        Err(mistake) => return Err(told(alloc, &mut command, mistake)),
    };
    if options.is_in_range() {
        Ok(options)
    } else {
        Err(told(alloc, &mut command, Mistake::Range))
    }
}

/// The command, for its arguments and for the help on all commands.
pub(crate) fn board_command<'a>(alloc: Global) -> Result<Command<'a>, AllocError> {
    let http = option(
        alloc,
        "http",
        "ADDR",
        "IPv4 address and port where the board is served; else 127.0.0.1:8080",
    );
    let no_token = flag(
        alloc,
        "no-token",
        "leaves the token out of the page's address: whoever reaches it can look and draw",
    );
    node_command(alloc, true)?
        .name("board")
        .bin_name("srm board")?
        .about(BOARD)
        .after_help(BOARD_MORE)
        .mut_arg("live", hidden)?
        .mut_arg("stay", hidden)?
        .mut_arg("verbose", hidden)?
        .arg(http)?
        .arg(no_token)
}

// Leaves an option that has no effect out of the help.
fn hidden(option: Arg<'_>) -> Result<Arg<'_>, AllocError> {
    Ok(option.hide(true))
}

// What the arguments say.
fn board_in<'a, S: Resolve>(
    alloc: Global,
    matches: &ArgMatches<'a>,
    names: &S,
) -> Result<BoardOptions, Mistake<'a>> {
    let has_token = !matches.get_flag("no-token");
    Ok(BoardOptions {
        node: options_in(alloc, matches, names)?,
        http: http_in(matches, has_token)?,
        has_token,
    })
}

fn http_in<'a>(matches: &ArgMatches<'a>, has_token: bool) -> Result<SocketAddr, Mistake<'a>> {
    let Some(text) = matches.get_str("http") else {
        return Ok(SocketAddr::V4(SocketAddrV4::new(Ipv4Addr::LOCALHOST, PORT)));
    };
    match text.parse::<SocketAddrV4>() {
        Ok(http) if http.ip().is_unspecified() && !has_token => Err(Mistake::Open(text)),
        Ok(http) => Ok(SocketAddr::V4(http)),
        Err(_) => Err(Mistake::Address(text)),
    }
}
