//! The file of a room.

ghost use Rattle.std.specs.Prelude.{◌≡◌, Ok, IfOk, OnOk, IfSome};
ghost use Rattle.std.specs.Io.KnownBytes.{Appends};
ghost use Rattle.srm_room.specs.Readings.{said};
ghost use Rattle.srm_rooms.specs.Made.{IsReadAt, IsSaidBy, StoresText};

use crate::family::find_families;
use crate::room_file_fault::RoomFileFault;
use srm_room::{Room, read_room};
use std::alloc::Global;
use std::fs::{File, OpenFile, OpenOptions};
use std::io::{Read, Write};
use std::os::unix::fs::{OpenOptionsExt, PermissionsExt};
use std::rt::Files;
use std::{fs, io};

/// Bytes of a room's file, at most.
const LONGEST: usize = 65_536;

/// Its owner may read and write it, and nobody else, since it has the key.
const MODE: u32 = 0o600;

/// Bits of a mode that let others read.
const READ_BY_OTHERS: u32 = 0o044;

/// Reads the room that the file at a path has. If others may read the file, that is told to `err`. Fails with what is wrong.
#[tactic(auto, using(crate::proofs::Written::read_at))]
pub fn room_at<R: Files, E: Write>(
    rt: &R,
    alloc: Global,
    path: &str,
    err: &mut E,
) -> Result<Room, RoomFileFault>
    ensures { IfOk result (IsReadAt R.File.remaining) }
{
    let mut file = match File::open(rt, path) {
        Ok(file) => file,
        Err(error) => return Err(RoomFileFault::of_read(alloc, path, error.kind())),
    };
    if is_read_by_others(&file) {
        // Where this can't be written there is nobody left to tell.
        let _ = writeln!(
            err,
            "srm: others may read room {path}, and who has it can draw: chmod 600 {path}"
        );
    }
    let room = room_from(alloc, path, &mut file)?;
    Ok(room)
}

fn is_read_by_others<F: OpenFile>(file: &F) -> bool {
    match file.metadata() {
        Ok(metadata) => metadata.permissions().mode() & READ_BY_OTHERS != 0,
        Err(_) => false,
    }
}

/// Reads the room that a reader has to its end; faults name it by `path`.
#[tactic(auto, using(crate::proofs::Written::said_by))]
pub fn room_from<I: Read>(alloc: Global, path: &str, reader: &mut I) -> Result<Room, RoomFileFault>
    ensures { IfOk result (IsSaidBy (I.remaining reader.old)) }
{
    let bytes = bytes_from(alloc, path, reader)?;
    match str::from_utf8(bytes.as_slice()) {
        Ok(text) => {
            let room = room_in(alloc, path, text)?;
            Ok(room)
        }
        Err(_) => Err(RoomFileFault::NoText(String::from_str(alloc, path)?)),
    }
}

// Returns all bytes to the reader's end, unless there are more than a room's file may have.
fn bytes_from<I: Read>(alloc: Global, path: &str, reader: &mut I) -> Result<Vec<u8>, RoomFileFault>
    ensures { IfOk result (λ bytes. IfSome (I.remaining reader.old) (λ text. bytes.items ≡ text)) }
{
    let mut bytes = Vec::new(alloc);
    match reader.take(LONGEST as u64 + 1).read_to_end(&mut bytes) {
        Ok(_) if bytes.len() > LONGEST => {
            Err(RoomFileFault::NoText(String::from_str(alloc, path)?))
        }
        Ok(_) => Ok(bytes),
        Err(error) => Err(RoomFileFault::of_read(alloc, path, error.kind())),
    }
}

fn room_in(alloc: Global, path: &str, text: &str) -> Result<Room, RoomFileFault>
    ensures { IfOk result (λ room. said text.now ≡ Ok room) }
{
    match read_room(alloc, text) {
        Ok(room) => {
            find_families(alloc, path, text, &room)?;
            Ok(room)
        }
        Err(error) => Err(RoomFileFault::of_error(alloc, path, error)),
    }
}

/// Makes the file at a path, which must not exist, with this text. Only its owner may read it. Fails with [`RoomFileFault::Unwritten`] and the cause, and if out of memory; a file
/// that was made and takes no more, as on a full disk, is removed.
#[tactic(auto, using(crate::proofs::Written::stores_text))]
pub fn make_room_file<R: Files>(
    rt: &R,
    alloc: Global,
    path: &str,
    text: &str,
) -> Result<(), RoomFileFault>
    ensures { OnOk result (StoresText R.File.contents text.now) }
{
    let mut how = OpenOptions::new();
    how.write(true).create_new(true).mode(MODE);
    match how.open(rt, path) {
        Ok(mut file) => match write_all(&mut file, text) {
            Ok(()) => Ok(()),
            Err(error) => {
                // Without all of its text it is no room, and would be in the way of the next try.
                let _ = fs::remove_file(rt, path);
                Err(RoomFileFault::of_write(alloc, path, error.kind()))
            }
        },
        Err(error) => Err(RoomFileFault::of_write(alloc, path, error.kind())),
    }
}

fn write_all<F: Write + OpenFile>(file: &mut F, text: &str) -> io::Result<()>
    ensures { OnOk result (Appends (F.contents file.old) (F.contents file.new) text.now) }
{
    file.write_all(text.as_bytes())?;
    file.sync_all()
}
