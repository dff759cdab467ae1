//! The command line of `srm node`.

ghost use Rattle.std.specs.Prelude.{IfOk};
ghost use Rattle.srm_options.specs.Options.{AreInRange};

use crate::apart::is_first_apart;
use crate::guard_options::{guard_in, with_guard};
use crate::help::{NODE, NODE_MORE};
use crate::live_defaults::{LIVE_LINGER, live_settings};
use crate::mistake::Mistake;
use crate::names::Names;
use crate::node_options::{LONGEST_LINGER, NodeOptions};
use crate::own_port::names_port;
use crate::path_option::path_in;
use crate::reply::Reply;
use crate::resolving::{NoNames, Resolve, System, resolved};
use clap::error::ErrorKind;
use clap::{Arg, ArgAction, ArgMatches, Command, value_parser};
use srm_bucket::{GREATEST_DEPTH, GREATEST_RATE, LEAST_DEPTH, LEAST_RATE};
use srm_entries::{Config, Settings};
use srm_names::{LATEST_MOMENT, LONGEST_DISTANCE, MEMBERS, Member};
use srm_timers::GREATEST_TIMER_SETTING;
use std::alloc::{AllocError, Global};
use std::net::{Net, SocketAddr, SocketAddrV4};

/// Without `--stay` a node leaves after so many microseconds.
const STAY: u64 = 5_000_000;

/// Without `--turns` it turns so often, at most.
const TURNS: u64 = 1_000_000;

/// Reads the arguments behind `srm node`, and looks up no names of hosts. Returns options in their ranges.
///
/// Fails with [`Reply::Help`] if the arguments ask for it, [`Reply::Wrong`] with what is wrong in them, [`Reply::Unresolved`] for the first address of a live member
/// that is a host's name, and [`Reply::Memory`] if out of memory.
pub fn read_node<'a>(alloc: Global, arguments: &'a [&'a str]) -> Result<NodeOptions, Reply>
    ensures { IfOk result AreInRange }
{
    read_with(alloc, arguments, &NoNames)
}

/// Does what [`read_node`] does, and asks the system for the addresses of hosts that a live member's line names, which may wait for the network. All members get an
/// IPv4 address if each has one, else all an IPv6 address.
///
/// Fails as [`read_node`] does; [`Reply::Unresolved`] names the first host that the system doesn't find.
pub fn read_node_on<'a, R: Net + Copy>(
    rt: &R,
    alloc: Global,
    arguments: &'a [&'a str],
) -> Result<NodeOptions, Reply>
    ensures { IfOk result AreInRange }
{
    read_with(alloc, arguments, &System(*rt))
}

fn read_with<'a, S: Resolve>(
    alloc: Global,
    arguments: &'a [&'a str],
    names: &S,
) -> Result<NodeOptions, Reply>
    ensures { IfOk result AreInRange }
{
    let mut command = node_command(alloc, is_live(arguments))?;
    let matches = command.try_get_matches_from_mut(arguments)?;
    let options = match options_in(alloc, &matches, names) {
        Ok(options) => options,
        Err(mistake) => return Err(told(alloc, &mut command, mistake)),
    };
    if options.is_in_range() {
        Ok(options)
    } else {
        Err(told(alloc, &mut command, Mistake::Range))
    }
}

// Whether these arguments ask for a live member, if they are a command line.
fn is_live(arguments: &[&str]) -> bool {
    arguments.iter().any(|word| *word == "--live")
}

/// Makes the command, for its own arguments and for the help on all commands. A live member's takes times in seconds too.
pub(crate) fn node_command<'a>(alloc: Global, live: bool) -> Result<Command<'a>, AllocError> {
    let command = Command::new(alloc, "node")
        .bin_name("srm node")?
        .no_binary_name(true)
        .about(NODE)
        .after_help(NODE_MORE);
    let command = with_limits(alloc, with_member(alloc, command, live)?, live)?;
    let room = option(
        alloc,
        "room",
        "FILE",
        "the room's file, which has the session, the key, the settings and all addresses: srm node --room FILE --me NAME",
    );
    let record = option(
        alloc,
        "record",
        "FILE",
        "writes what the member is handed and what its page workers took to this file, which must not exist; srm audit judges it",
    );
    with_addresses(alloc, with_guard(alloc, command)?)?
        .arg(record)?
        .arg(room)
}

/// An option with a value.
pub(crate) fn option<'a>(alloc: Global, name: &'a str, value: &'a str, help: &'a str) -> Arg<'a> {
    Arg::new(alloc, name)
        .long(name)
        .value_name(value)
        .help(help)
        .action(ArgAction::Set)
}

/// An option whose value is a number. A negative one is a value too, so it is told with the option's range.
pub(crate) fn number<'a>(alloc: Global, name: &'a str, value: &'a str, help: &'a str) -> Arg<'a> {
    option(alloc, name, value, help).allow_negative_numbers(true)
}

fn with_member<'a>(
    alloc: Global,
    command: Command<'a>,
    live: bool,
) -> Result<Command<'a>, AllocError> {
    let session = number(alloc, "session", "S", "number of the session, below 2^32")
        .required(true)
        .value_parser(value_parser!(u32));
    let me = number(
        alloc,
        "me",
        "M",
        "this member: the place of its address, from 0; in a room also its name",
    )
    .required(true)
    .value_parser(value_parser!(u8));
    let start = number(
        alloc,
        "start",
        "N",
        if live {
            "start of the random waits, below 2^64; else the member's number"
        } else {
            "start of the random waits, below 2^64; else 0"
        },
    )
    .value_parser(value_parser!(u64));
    command.arg(session)?.arg(me)?.arg(start)
}

fn stay_option<'a>(alloc: Global, live: bool) -> Arg<'a> {
    let stay = number(
        alloc,
        "stay",
        "U",
        "leaves after so many microseconds, at most 2^48; else 5000000; with --live, so long after the end of input, and 5s or 500ms will do",
    );
    if live {
        stay
    } else {
        stay.value_parser(value_parser!(u64).range(..=LATEST_MOMENT as i64))
    }
}

fn least_distance_option<'a>(alloc: Global, live: bool) -> Arg<'a> {
    let help = help_of(
        live,
        "a distance counts as at least so many microseconds, 1 to 10000000; else 1, or 5000 with --live, where 5ms will do",
        "a distance counts as at least so many microseconds, 1 to 10000000; else 5000; 5ms will do",
    );
    let least_distance = number(alloc, "least-distance", "L", help);
    if live {
        least_distance
    } else {
        least_distance.value_parser(value_parser!(u64).range(1..=LONGEST_DISTANCE as i64))
    }
}

fn turns_option<'a>(alloc: Global, live: bool) -> Arg<'a> {
    let help = help_of(
        live,
        "turns so often, at most, below 2^64; else 1000000, or with --live as often as it takes",
        "turns so often, at most, below 2^64; else as often as it takes",
    );
    number(alloc, "turns", "T", help).value_parser(value_parser!(u64))
}

fn rate_option<'a>(alloc: Global, live: bool) -> Arg<'a> {
    let help = help_of(
        live,
        "bytes a second, 1 to 100000000; else 8000, or 64000 with --live",
        "bytes a second, 1 to 100000000; else 64000",
    );
    number(alloc, "rate", "R", help).value_parser(value_parser!(u32).range(
        i64::from(LEAST_RATE)..=i64::from(GREATEST_RATE),
    ))
}

fn linger_option<'a>(alloc: Global, live: bool) -> Arg<'a> {
    let help = help_of(
        live,
        "with --live, leaves only once nobody asked for what it holds for so many microseconds, 0 to 30000000; else 6000000",
        "leaves only once nobody asked for what it holds for so many microseconds, 0 to 30000000; else 6000000; 6s will do",
    );
    number(alloc, "linger", "U", help)
}

// What the help says of an option.
fn help_of<'a>(live: bool, plain: &'a str, of_live: &'a str) -> &'a str {
    if live { of_live } else { plain }
}

fn with_limits<'a>(
    alloc: Global,
    command: Command<'a>,
    live: bool,
) -> Result<Command<'a>, AllocError> {
    let depth = number(
        alloc,
        "depth",
        "D",
        "depth of its bucket in bytes, 1051 to 1000000; else 4204",
    )
    .value_parser(value_parser!(u32).range(i64::from(LEAST_DEPTH)..=i64::from(GREATEST_DEPTH)));
    let waits = option(
        alloc,
        "waits",
        "c1,c2,d1,d2",
        "a request waits c1 to c1+c2 distances, a repair d1 to d1+d2; each 0 to 16; else 2,2,1,1",
    );
    command
        .arg(stay_option(alloc, live))?
        .arg(turns_option(alloc, live))?
        .arg(rate_option(alloc, live))?
        .arg(depth)?
        .arg(waits)?
        .arg(least_distance_option(alloc, live))?
        .arg(linger_option(alloc, live))?
        .arg(flag(
            alloc,
            "live",
            "draws each line as it is typed, and prints what is taken as it is",
        ))?
        .arg(flag(
            alloc,
            "verbose",
            "tells why the address can't be bound or which call of the socket failed, as --live does in any case",
        ))
}

/// An option without a value.
pub(crate) fn flag<'a>(alloc: Global, name: &'a str, help: &'a str) -> Arg<'a> {
    Arg::new(alloc, name)
        .long(name)
        .help(help)
        .action(ArgAction::SetTrue)
}

fn with_addresses<'a>(alloc: Global, command: Command<'a>) -> Result<Command<'a>, AllocError> {
    let addresses = Arg::new(alloc, "ADDR")
        .help(
            "IPv4 address and port of each member, 1 to 32, as 127.0.0.1:47100; with --live, also [::1]:47100 or host:47100",
        )
        .action(ArgAction::Append)
        .num_args(1..)
        .required(true);
    command.arg(addresses)
}

/// What the arguments say.
pub(crate) fn options_in<'a, S: Resolve>(
    alloc: Global,
    matches: &ArgMatches<'a>,
    names: &S,
) -> Result<NodeOptions, Mistake<'a>> {
    if matches.contains_id("room") {
        return Err(Mistake::Rooms);
    }
    let texts = matches.get_strs("ADDR").unwrap_or(&[]);
    let live = matches.get_flag("live");
    let addresses = addresses_in(alloc, texts, live, names)?;
    let numbers = numbers_in(matches, live, texts, addresses.as_slice())?;
    let guard = guard_in(alloc, matches, live)?;
    let record = path_in(alloc, matches, "record")?;
    Ok(NodeOptions {
        config: numbers.config,
        seed: numbers.seed,
        stay: numbers.stay,
        linger: numbers.linger,
        turns: numbers.turns,
        live,
        verbose: matches.get_flag("verbose"),
        guard,
        record,
        names: Names::none(alloc),
        addresses,
    })
}

// What the arguments say in numbers. They are read apart from what owns memory, since each `?` has what is owned there to drop, and its proof takes longer for it.
#[derive(Clone, Copy)]
struct Numbers {
    config: Config,
    seed: u64,
    stay: u64,
    linger: u64,
    turns: u64,
}

fn numbers_in<'a>(
    matches: &ArgMatches<'a>,
    live: bool,
    texts: &[&'a str],
    addresses: &[SocketAddr],
) -> Result<Numbers, Mistake<'a>> {
    let config = config_in(matches, live, texts, addresses)?;
    let stay = micros_in(matches, "stay", live, 0, LATEST_MOMENT)?.unwrap_or(STAY);
    // How long a live member runs is for who types to say.
    let turns = if live { u64::MAX } else { TURNS };
    Ok(Numbers {
        config,
        seed: start_in(matches, live, config.me()),
        stay,
        linger: linger_in(matches, live)?,
        turns: matches.get_one::<u64>("turns").unwrap_or(turns),
    })
}

/// The member, its session, and what it may send and how long it waits. Fails if its addresses don't fit either.
fn config_in<'a>(
    matches: &ArgMatches<'a>,
    live: bool,
    texts: &[&'a str],
    addresses: &[SocketAddr],
) -> Result<Config, Mistake<'a>> {
    let me = member_in(matches, addresses.len()).ok_or(Mistake::NoPlace)?;
    let session = matches.get_one::<u32>("session").ok_or(Mistake::Range)?;
    let settings = settings_in(matches, live)?;
    let Ok(members) = u8::try_from(addresses.len()) else {
        return Err(Mistake::TooMany);
    };
    if live {
        find_twice(texts, addresses)?;
        look_at_own_port(texts, addresses, me)?;
    }
    Config::with(me, members, session, settings).ok_or(Mistake::Range)
}

/// What the member's random waits start from. Members that start alike choose alike, so those that are live differ.
fn start_in(matches: &ArgMatches, live: bool, me: Member) -> u64 {
    let usual = if live { u64::from(me.number()) } else { 0 };
    matches.get_one::<u64>("start").unwrap_or(usual)
}

/// What the member may send and how long it waits.
fn settings_in<'a>(matches: &ArgMatches<'a>, live: bool) -> Result<Settings, Mistake<'a>> {
    let usual = if live {
        live_settings()
    } else {
        Settings::default()
    };
    let [c1, c2, d1, d2] = match matches.get_str("waits") {
        Some(text) => waits_in(text).ok_or(Mistake::Waits(text))?,
        None => [usual.c1, usual.c2, usual.d1, usual.d2],
    };
    let floor = micros_in(matches, "least-distance", live, 1, LONGEST_DISTANCE)?;
    Ok(Settings {
        rate: matches.get_one::<u32>("rate").unwrap_or(usual.rate),
        depth: matches.get_one::<u32>("depth").unwrap_or(usual.depth),
        c1,
        c2,
        d1,
        d2,
        least_distance: floor.unwrap_or(usual.least_distance),
    })
}

/// How many microseconds an option says, if it is given: of a live member a time from the least to the greatest, as `5s`, `500ms` or `5000000`.
fn micros_in<'a>(
    matches: &ArgMatches<'a>,
    option: &'a str,
    live: bool,
    least: u64,
    greatest: u64,
) -> Result<Option<u64>, Mistake<'a>> {
    if !live {
        return Ok(matches.get_one::<u64>(option));
    }
    let Some(text) = matches.get_str(option) else {
        return Ok(None);
    };
    match time_in(text) {
        Some(micros) if least <= micros && micros <= greatest => Ok(Some(micros)),
        _ => Err(Mistake::Time(text, option, least, greatest)),
    }
}

/// For how many microseconds it lingers, which a live member alone does.
fn linger_in<'a>(matches: &ArgMatches<'a>, live: bool) -> Result<u64, Mistake<'a>> {
    if live {
        return Ok(micros_in(matches, "linger", live, 0, LONGEST_LINGER)?.unwrap_or(LIVE_LINGER));
    }
    match matches.get_str("linger") {
        Some(_) => Err(Mistake::Linger),
        None => Ok(0),
    }
}

/// A time in microseconds: a number of seconds with `s` behind it, of milliseconds with `ms`, or of microseconds.
fn time_in(text: &str) -> Option<u64> {
    let (number, unit) = if let Some(number) = text.strip_suffix("ms") {
        (number, 1_000)
    } else if let Some(number) = text.strip_suffix('s') {
        (number, 1_000_000)
    } else {
        (text, 1)
    };
    number.parse::<u64>().ok()?.checked_mul(unit)
}

/// Four numbers of distances, with commas between.
fn waits_in(text: &str) -> Option<[u8; 4]> {
    let mut parts = text.split(',');
    let waits = [
        wait_in(parts.next()?)?,
        wait_in(parts.next()?)?,
        wait_in(parts.next()?)?,
        wait_in(parts.next()?)?,
    ];
    match parts.next() {
        Some(_) => None,
        None => Some(waits),
    }
}

/// A number of distances, in decimal.
fn wait_in(text: &str) -> Option<u8> {
    let wait = text.parse::<u8>().ok()?;
    if wait <= GREATEST_TIMER_SETTING {
        Some(wait)
    } else {
        None
    }
}

// Returns the addresses of all members. Those of a live member may be IPv6, and names.
fn addresses_in<'a, S: Resolve>(
    alloc: Global,
    texts: &[&'a str],
    live: bool,
    names: &S,
) -> Result<Vec<SocketAddr>, Mistake<'a>> {
    if texts.len() > usize::from(MEMBERS) {
        return Err(Mistake::TooMany);
    }
    if live {
        resolved(alloc, texts, names)
    } else {
        plain_addresses(alloc, texts)
    }
}

fn plain_addresses<'a>(alloc: Global, texts: &[&'a str]) -> Result<Vec<SocketAddr>, Mistake<'a>> {
    let mut addresses = Vec::new(alloc);
    for text in texts {
        let Ok(address) = text.parse::<SocketAddrV4>() else {
            return Err(Mistake::Address(text));
        };
        if addresses.push(SocketAddr::V4(address)).is_err() {
            return Err(Mistake::Memory);
        }
    }
    Ok(addresses)
}

/// Refuses an address that a live member's line has twice: what is sent there would come to one member only. Port 0 is one that the system chooses.
fn find_twice<'a>(texts: &[&'a str], addresses: &[SocketAddr]) -> Result<(), Mistake<'a>> {
    for (at, text) in texts.iter().enumerate() {
        let Some(rest) = addresses.get(at..) else {
            return Ok(());
        };
        if !is_first_apart(rest) {
            return Err(Mistake::Twice(text));
        }
    }
    Ok(())
}

/// Refuses port 0 of a live member that isn't alone: the system would choose a port, and nobody else would know it.
fn look_at_own_port<'a>(
    texts: &[&'a str],
    addresses: &[SocketAddr],
    me: Member,
) -> Result<(), Mistake<'a>> {
    if names_port(addresses, me.index()) {
        return Ok(());
    }
    match texts.get(me.index()) {
        Some(text) => Err(Mistake::OwnPort(text)),
        None => Err(Mistake::NoPlace),
    }
}

/// The member, where it is one of so many.
fn member_in(matches: &ArgMatches<'_>, members: usize) -> Option<Member> {
    let me = matches.get_one::<u8>("me")?;
    if usize::from(me) < members {
        Member::new(me)
    } else {
        None
    }
}

/// What is told of a mistake.
pub(crate) fn told<'a>(alloc: Global, command: &mut Command<'a>, mistake: Mistake<'a>) -> Reply {
    if matches!(mistake, Mistake::Memory) {
        return Reply::Memory;
    }
    match format!(in alloc; "{mistake}") {
        Ok(text) if matches!(mistake, Mistake::Unresolved(..)) => Reply::Unresolved(text),
        Ok(text) => Reply::to(command, ErrorKind::ValueValidation, text.as_str()),
        Err(_) => Reply::Memory,
    }
}
