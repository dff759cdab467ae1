//! The program: a world of scripts, pictures of it, a member over UDP, with a board or without, and the records of a session.
#![tactic(auto)]

mod standard_streams;

use crate::standard_streams::{STDIN, fill_standard_streams};
use srm_arguments::{ArgumentFault, read_arguments, texts_of};
use srm_board::run_board;
use srm_live::{PolledInput, run_live};
use srm_member::{print_reply, run_node};
use srm_options::{
    BoardOptions, NodeOptions, WorldOptions, read_picture, read_room_command, read_world,
};
use srm_played::run_picture;
use srm_rooms::{
    BoardLines, NodeLines, Unjoined, audit_options, board_options, node_options, run_room,
};
use srm_script::{Dialect, run_script_in};
use srm_verdicts::run_audit;
use std::alloc::Global;
use std::io::{IsTerminal, Read, Write, writer};
use std::net::Net;
use std::process::ExitCode;
use std::rt::Files;

fn main(rt: HostRuntime) -> ExitCode {
    fill_standard_streams(&rt);
    let mut err = rt.stderr();
    let arguments = match read_arguments(&rt) {
        Ok(arguments) => arguments,
        Err(fault) => return ExitCode::from(fault.print(&mut err)),
    };
    let Ok(texts) = texts_of(rt.alloc(), arguments.as_slice()) else {
        return ExitCode::from(ArgumentFault::Memory.print(&mut err));
    };
    let mut out = writer(&rt);
    ExitCode::from(match texts.as_slice() {
        ["node", arguments @ ..] => match read_node_line(&rt, arguments, &mut err) {
            Ok(options) if options.live => {
                let input = PolledInput::new(&rt, rt.alloc(), rt.stdin(), STDIN);
                run_live(&rt, options, input, rt.stdout(), rt.stderr())
            }
            Ok(options) => run_node(&rt, options, &mut rt.stdin(), &mut out, &mut err),
            Err(unjoined) => print_unjoined(&unjoined, &mut out, &mut err),
        },
        ["board", arguments @ ..] => match read_board_line(&rt, arguments, &mut err) {
            Ok(options) => {
                let input = terminal_of(&rt, rt.alloc(), rt.stdin());
                run_board(&rt, options, input, rt.stderr())
            }
            Err(unjoined) => print_unjoined(&unjoined, &mut out, &mut err),
        },
        ["room", arguments @ ..] => keep_room(&rt, arguments, &mut out, &mut err),
        ["picture", arguments @ ..] => draw_picture(&rt, arguments, &mut out, &mut err),
        ["audit", arguments @ ..] => judge(&rt, arguments, &mut out, &mut err),
        arguments => play(&rt, arguments, &mut out, &mut err),
    })
}

/// Returns what a command line of `srm node` asks for.
fn read_node_line<E: Write>(
    rt: &HostRuntime,
    arguments: &[&str],
    err: &mut E,
) -> Result<NodeOptions, Unjoined> {
    node_options(rt, rt.alloc(), &NodeLines(*rt), arguments, err)
}

/// Returns what a command line of `srm board` asks for.
fn read_board_line<E: Write>(
    rt: &HostRuntime,
    arguments: &[&str],
    err: &mut E,
) -> Result<BoardOptions, Unjoined> {
    board_options(rt, rt.alloc(), &BoardLines(*rt), arguments, err)
}

/// Makes, shows or checks a room, as a command line of `srm room` says. The program's status.
fn keep_room<'a, O: Write, E: Write>(
    rt: &HostRuntime,
    arguments: &'a [&'a str],
    out: &mut O,
    err: &mut E,
) -> u8 {
    match read_room_command(rt.alloc(), arguments) {
        Ok(command) => run_room(rt, rt.alloc(), &command, &mut rt.stdin(), out, err),
        Err(reply) => print_reply(&reply, out, err),
    }
}

/// Draws the pages of a script. The program's status.
fn draw_picture<'a, O: Write, E: Write>(
    rt: &HostRuntime,
    arguments: &'a [&'a str],
    out: &mut O,
    err: &mut E,
) -> u8 {
    match read_picture(rt.alloc(), arguments) {
        Ok(()) => run_picture(rt.alloc(), &mut rt.stdin(), out, err),
        Err(reply) => print_reply(&reply, out, err),
    }
}

/// Plays a script. The program's status.
fn play<'a, O: Write, E: Write>(
    rt: &HostRuntime,
    arguments: &'a [&'a str],
    out: &mut O,
    err: &mut E,
) -> u8 {
    match read_world(rt.alloc(), arguments) {
        Ok(options) => run_script_in(rt.alloc(), dialect_of(&options), &mut rt.stdin(), out, err),
        Err(reply) => print_reply(&reply, out, err),
    }
}

/// Judges the records that a command line of `srm audit` names. The program's status.
fn judge<'a, R: Files + AllocGlobal, O: Write, E: Write>(
    rt: &R,
    arguments: &'a [&'a str],
    out: &mut O,
    err: &mut E,
) -> u8 {
    match audit_options(rt, rt.alloc(), arguments, err) {
        Ok(options) => run_audit(rt, &options, out, err),
        Err(unjoined) => print_unjoined(&unjoined, out, err),
    }
}

/// Prints why a line isn't carried out. The program's status.
fn print_unjoined<O: Write, E: Write>(unjoined: &Unjoined, out: &mut O, err: &mut E) -> u8 {
    match unjoined {
        Unjoined::Reply(reply) => print_reply(reply, out, err),
        Unjoined::Room(fault) => fault.print(err),
    }
}

/// The terminal that is typed at. Where the input is none, the page alone says when a board's member leaves.
fn terminal_of<I: Read + IsTerminal + Drop>(
    net: &impl Net,
    alloc: Global,
    stdin: I,
) -> Option<PolledInput<I>> {
    if stdin.is_terminal() {
        Some(PolledInput::new(net, alloc, stdin, STDIN))
    } else {
        None
    }
}

fn dialect_of(options: &WorldOptions) -> Dialect {
    if options.extended {
        Dialect::Extended
    } else {
        Dialect::Plain
    }
}
