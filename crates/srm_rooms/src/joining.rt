//! The options of a line, with a room or without one.

ghost use Rattle.std.specs.Prelude.{◌≡◌, IfOk};
ghost use Rattle.srm_rooms.specs.RoomLines.{texts};
ghost use Rattle.srm_rooms.specs.Joins.{AreNamed, AreNames, IsSeat, SaysOptions, SaysBoardOptions};

use crate::in_room::{is_live, read_board_in, read_node_in};
use crate::line_reader::LineReader;
use crate::room_file::room_at;
use crate::room_file_fault::RoomFileFault;
use crate::room_lines::room_line;
use srm_names::Member;
use srm_options::{
    AuditOptions, BoardOptions, Names, NodeOptions, Reply, RoomMistake, read_audit, refuse_board,
    refuse_node,
};
use srm_room::Room;
use std::alloc::{AllocError, Global};
use std::io::Write;
use std::rt::Files;

/// What a line gets in place of being carried out.
#[derive(Debug, Drop)]
pub enum Unjoined {
    /// What it asks for, or what is wrong in it.
    Reply(Reply),
    /// Why its room can't be used.
    Room(RoomFileFault),
}

impl From<AllocError> for Unjoined {
    fn from(_error: AllocError) -> Unjoined {
        Unjoined::Reply(Reply::Memory)
    }
}

// A room that a line names, and which member of it the line is for.
#[derive(Drop)]
struct Seat {
    room: Room,
    me: Member,
}

/// Returns what a line of `srm node` says: the options that the reader returns for its words, or with `--room` for the words that it stands for.
///
/// Fails with what the reader replies; with [`Unjoined::Room`] if the file of the room can't be read or is no room, or the room has no such member; and if out of memory. `err` gets a
/// line if others may read the file.
#[tactic(auto, using(crate::proofs::Joined::plain, crate::proofs::Joined::in_room))]
pub fn node_options<L: LineReader<Options = NodeOptions>, R: Files, E: Write>(
    rt: &R,
    alloc: Global,
    reader: &L,
    words: &[&str],
    err: &mut E,
) -> Result<NodeOptions, Unjoined>
    ensures { IfOk result (SaysOptions R.File.remaining (L.reads reader.now) (texts words.now)) }
{
    let Some(line) = room_line(alloc, words)? else {
        return match reader.read(alloc, words) {
            Ok(options) => Ok(options),
            Err(reply) => Err(Unjoined::Reply(reply)),
        };
    };
    let Some(me) = line.me else {
        let live = is_live(line.own.as_slice());
        let reply = refuse_node(alloc, live, RoomMistake::NoName);
        return Err(Unjoined::Reply(reply));
    };
    let seat = seat_in(rt, alloc, line.file, me, err)?;
    match read_node_in(alloc, reader, line.own.as_slice(), &seat.room, seat.me) {
        Ok(options) => Ok(options),
        Err(reply) => Err(Unjoined::Reply(reply)),
    }
}

/// Does the same for a line of `srm board`.
#[tactic(auto, using(crate::proofs::Joined::plain_board, crate::proofs::Joined::board_in_room))]
pub fn board_options<L: LineReader<Options = BoardOptions>, R: Files, E: Write>(
    rt: &R,
    alloc: Global,
    reader: &L,
    words: &[&str],
    err: &mut E,
) -> Result<BoardOptions, Unjoined>
    ensures { IfOk result (SaysBoardOptions R.File.remaining (L.reads reader.now) (texts words.now)) }
{
    let Some(line) = room_line(alloc, words)? else {
        return match reader.read(alloc, words) {
            Ok(options) => Ok(options),
            Err(reply) => Err(Unjoined::Reply(reply)),
        };
    };
    let Some(me) = line.me else {
        let reply = refuse_board(alloc, RoomMistake::NoName);
        return Err(Unjoined::Reply(reply));
    };
    let seat = seat_in(rt, alloc, line.file, me, err)?;
    match read_board_in(alloc, reader, line.own.as_slice(), &seat.room, seat.me) {
        Ok(options) => Ok(options),
        Err(reply) => Err(Unjoined::Reply(reply)),
    }
}

/// Returns what a line of `srm audit` says, with the names of the room if it names one. Fails as [`node_options`] does.
pub fn audit_options<'a, R: Files, E: Write>(
    rt: &R,
    alloc: Global,
    words: &'a [&'a str],
    err: &mut E,
) -> Result<AuditOptions<'a>, Unjoined>
    ensures { IfOk result (λ options. AreNamed R.File.remaining options.room options.names) }
{
    match read_audit(alloc, words) {
        Ok(options) => named(rt, alloc, options, err),
        Err(reply) => Err(Unjoined::Reply(reply)),
    }
}

// Returns the options with the names of the room, if they name one.
fn named<'a, R: Files, E: Write>(
    rt: &R,
    alloc: Global,
    options: AuditOptions<'a>,
    err: &mut E,
) -> Result<AuditOptions<'a>, Unjoined>
    ensures { IfOk result (λ options. AreNamed R.File.remaining options.room options.names) }
{
    let Some(path) = options.room else {
        return Ok(options);
    };
    match names_at(rt, alloc, path, err) {
        Ok(names) => Ok(with_names(options, names)),
        Err(fault) => Err(Unjoined::Room(fault)),
    }
}

fn with_names<'a>(options: AuditOptions<'a>, names: Names) -> AuditOptions<'a>
    ensures room { result.room ≡ options.entry.room }
    ensures names { result.names ≡ names }
{
    let AuditOptions {
        files,
        output,
        room,
        ..
    } = options;
    AuditOptions {
        files,
        output,
        room,
        names,
    }
}

#[tactic(auto, using(crate::proofs::Joined::are_names))]
fn names_at<R: Files, E: Write>(
    rt: &R,
    alloc: Global,
    path: &str,
    err: &mut E,
) -> Result<Names, RoomFileFault>
    ensures { IfOk result (AreNames R.File.remaining) }
{
    let room = room_at(rt, alloc, path, err)?;
    room.is_room();
    Ok(Names::of_room(alloc, &room)?)
}

// Reads the room in a file, and finds the member.
#[tactic(auto, using(crate::proofs::Joined::seated))]
fn seat_in<R: Files, E: Write>(
    rt: &R,
    alloc: Global,
    file: &str,
    me: &str,
    err: &mut E,
) -> Result<Seat, Unjoined>
    ensures { IfOk result (λ seat. IsSeat R.File.remaining me.now seat.room seat.me) }
{
    let room = match room_at(rt, alloc, file, err) {
        Ok(room) => room,
        Err(fault) => return Err(Unjoined::Room(fault)),
    };
    room.is_room();
    match room.member_of(me.as_bytes()) {
        Some(me) => Ok(Seat { room, me }),
        None => Err(Unjoined::Room(nobody(alloc, file, me, &room))),
    }
}

// Returns the fault of a member that a room lacks.
fn nobody(alloc: Global, path: &str, me: &str, room: &Room) -> RoomFileFault {
    match told_nobody(alloc, path, me, room) {
        Ok(fault) => fault,
        Err(_) => RoomFileFault::Memory,
    }
}

fn told_nobody(
    alloc: Global,
    path: &str,
    me: &str,
    room: &Room,
) -> Result<RoomFileFault, AllocError> {
    let mut names = String::new(alloc);
    for member in room.members() {
        if !names.is_empty() {
            names.push_str(", ")?;
        }
        names.push_str(member.name.as_str())?;
    }
    Ok(RoomFileFault::Nobody(
        String::from_str(alloc, path)?,
        String::from_str(alloc, me)?,
        names,
    ))
}
