//! `srm room`, from its command line to what it prints.

ghost use Rattle.std.specs.Prelude.{◌≡◌, ◌≤◌, OnOk};
ghost use Rattle.std.specs.Io.KnownBytes.{Appends};
ghost use Rattle.srm_script.specs.declared.status.TheConstants.{RAN_OUT};
ghost use Rattle.srm_rooms.specs.Made.{IsDone, MakesRoom, PrintsRoom, ShowsRoom, StoresRoom, TakesRoom, people_of};

use crate::checking::checked;
use crate::family::find_families;
use crate::making::new_room;
use crate::room_file::{make_room_file, room_at, room_from};
use crate::room_file_fault::RoomFileFault;
use srm_options::RoomCommand;
use srm_room::{Room, write_room};
use std::alloc::Global;
use std::io;
use std::io::{ErrorKind, Read, Write};
use std::net::Net;
use std::random::RandomSource;
use std::rt::Files;

/// Does what a command line of `srm room` asks for. Returns the program's status: 0; 1 for a file that is no room, or that can't be read, made or written, or if the output fails; 4
/// if memory ran out. The fault goes to `err`.
pub fn run_room<R: Net + Files + RandomSource, I: Read, O: Write, E: Write>(
    rt: &R,
    alloc: Global,
    command: &RoomCommand<'_>,
    reader: &mut I,
    out: &mut O,
    err: &mut E,
) -> u8
    ensures greatest { result ≤ RAN_OUT }
    ensures done { result ≡ 0 → IsDone R.File.remaining R.File.contents command.now (I.remaining reader.old) (O.contents out.old) (O.contents out.new) }
{
    match run(rt, alloc, command, reader, out, err) {
        Ok(()) => 0,
        Err(fault) => fault.print(err),
    }
}

fn run<R: Net + Files + RandomSource, I: Read, O: Write, E: Write>(
    rt: &R,
    alloc: Global,
    command: &RoomCommand<'_>,
    reader: &mut I,
    out: &mut O,
    err: &mut E,
) -> Result<(), RoomFileFault>
    ensures { OnOk result (IsDone R.File.remaining R.File.contents command.now (I.remaining reader.old) (O.contents out.old) (O.contents out.new)) }
{
    match command {
        RoomCommand::New(path, members) => make(rt, alloc, path, members.as_slice()),
        RoomCommand::Show(path) => show_at(rt, alloc, path, out, err),
        RoomCommand::Take(path) => take(rt, alloc, path, reader),
        RoomCommand::Check(path) => {
            let room = room_at(rt, alloc, path, err)?;
            print(out, checked(rt, alloc, &room)?.as_str())
        }
    }
}

// Makes a room and its file.
#[tactic(auto, using(crate::proofs::Written::makes))]
fn make<R: Files + RandomSource>(
    rt: &R,
    alloc: Global,
    path: &str,
    members: &[(&str, &str)],
) -> Result<(), RoomFileFault>
    ensures { OnOk result (MakesRoom R.File.contents (people_of members.now)) }
{
    let room = new_room(rt, alloc, members)?;
    find_families(alloc, path, "", &room)?;
    make_file(rt, alloc, path, &room)?;
    Ok(())
}

// Prints the room that a file has.
#[tactic(auto, using(crate::proofs::Written::shows))]
fn show_at<R: Files, O: Write, E: Write>(
    rt: &R,
    alloc: Global,
    path: &str,
    out: &mut O,
    err: &mut E,
) -> Result<(), RoomFileFault>
    ensures { OnOk result (ShowsRoom R.File.remaining (O.contents out.old) (O.contents out.new)) }
{
    let room = room_at(rt, alloc, path, err)?;
    show(alloc, &room, out)?;
    Ok(())
}

// Makes the file of the room that an input says.
#[tactic(auto, using(crate::proofs::Written::takes))]
fn take<R: Files, I: Read>(
    rt: &R,
    alloc: Global,
    path: &str,
    reader: &mut I,
) -> Result<(), RoomFileFault>
    ensures { OnOk result (TakesRoom R.File.contents (I.remaining reader.old)) }
{
    let room = room_from(alloc, "standard input", reader)?;
    make_file(rt, alloc, path, &room)?;
    Ok(())
}

// Makes the file of a room.
#[tactic(auto, using(crate::proofs::Written::stores))]
fn make_file<R: Files>(rt: &R, alloc: Global, path: &str, room: &Room) -> Result<(), RoomFileFault>
    ensures { OnOk result (StoresRoom R.File.contents room.now) }
{
    let text = write_room(alloc, room)?;
    make_room_file(rt, alloc, path, text.as_str())?;
    Ok(())
}

// Prints a room, as its file has it.
#[tactic(auto, using(crate::proofs::Written::prints))]
fn show<O: Write>(alloc: Global, room: &Room, out: &mut O) -> Result<(), RoomFileFault>
    ensures { OnOk result (PrintsRoom room.now (O.contents out.old) (O.contents out.new)) }
{
    let text = write_room(alloc, room)?;
    print(out, text.as_str())?;
    Ok(())
}

fn print<O: Write>(out: &mut O, text: &str) -> Result<(), RoomFileFault>
    ensures { OnOk result (Appends (O.contents out.old) (O.contents out.new) text.now) }
{
    match write_all(out, text) {
        Ok(()) => Ok(()),
        Err(error) if error.kind() == ErrorKind::OutOfMemory => Err(RoomFileFault::Memory),
        Err(_) => Err(RoomFileFault::Output),
    }
}

fn write_all<O: Write>(out: &mut O, text: &str) -> io::Result<()>
    ensures { OnOk result (Appends (O.contents out.old) (O.contents out.new) text.now) }
{
    out.write_all(text.as_bytes())?;
    out.flush()
}
