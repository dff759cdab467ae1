//! Rooms: reading one, and what C asks of it.

ghost use Rattle.std.specs.Prelude.{◌≡◌, ◌≤◌, ◌<◌, None, Ok, Err, MatchResult, option_map};
ghost use Rattle.srm_names.specs.declared.limits.TheConstants.{MEMBERS};
ghost use Rattle.srm_join.specs.Joining.{address_at, name_at};
ghost use Rattle.srm_join.specs.Reading.{ReadsText};
ghost use Rattle.srm_ffi.specs.declared.codes.TheConstants.{MEMBER};
ghost use Rattle.srm_ffi.specs.Codes.{refusal_kind};
ghost use Rattle.srm_ffi.specs.Joins.{AddressCall, ConfigCall, FindCall, NameCall, NumberCall, ReadCall, Refuses, TellsConfig, TellsFault, TellsMember, TellsText, linger_of, member_count, most_missing_of};

use crate::codes::{BUFFER, DONE, EMPTY, FAULT, FULL, MEMBER, of_fault, refusal_kind};
use crate::shapes::{RawConfig, RawRoomFault};
use srm_agent::AgentFault;
use srm_join::{
    Refusal, RoomHandle, address_at, config_in, explain, lay_start, name_at, read_text,
};
use srm_names::Member;
use srm_room::{Room, RoomError};
use srm_seat::lay_over;
use std::alloc::Global;

/// Reads a room from TOML in UTF-8 into an empty handle. If the text is no room, writes what is wrong with it, and the words for that to the front of `words`, as many
/// as fit.
///
/// Returns `DONE` or the first of these that holds: `FULL` if the handle holds a room; `FAULT` if the text is no room; the number of out of memory.
#[unsafe(no_mangle)]
pub extern "C" fn srm_raw_room_read(
    alloc: Global,
    handle: &mut RoomHandle,
    text: &[u8],
    words: &mut [u8],
    fault: &mut RawRoomFault,
) -> u32
    ensures { ReadCall text.now result words.old words.new fault.old fault.new handle.old.value handle.new.value }
{
    if let Some(room) = handle.take(alloc) {
        handle.put(room);
        return FULL;
    }
    match read_boxed(alloc, text) {
        Ok(room) => {
            handle.put(room);
            DONE
        }
        Err(refusal) => tell_fault(alloc, &refusal, words, fault),
    }
}

fn read_boxed(alloc: Global, text: &[u8]) -> Result<Box<Room>, Refusal>
    ensures { MatchResult result (λ room. ReadsText text.now (Ok room.value)) (λ refusal. ReadsText text.now (Err refusal)) }
{
    match read_text(alloc, text) {
        Ok(room) => match Box::new(alloc, room) {
            Ok(room) => Ok(room),
            Err(_) => Err(Refusal::NoRoom(RoomError::Memory)),
        },
        Err(refusal) => Err(refusal),
    }
}

fn tell_fault(alloc: Global, refusal: &Refusal, words: &mut [u8], to: &mut RawRoomFault) -> u32
    ensures { TellsFault (refusal_kind refusal.now) result words.old words.new to.old to.new }
{
    let Some(kind) = refusal_kind(refusal) else {
        return of_fault(AgentFault::Memory);
    };
    let Ok(text) = explain(alloc, refusal) else {
        return of_fault(AgentFault::Memory);
    };
    let length = lay_start(text.as_bytes(), words);
    let line = line_of(refusal);
    *to = RawRoomFault { line, length, kind };
    FAULT
}

// Returns the line of what is wrong, from 1, or 0.
fn line_of(refusal: &Refusal) -> usize {
    match refusal {
        Refusal::NoText => 0,
        Refusal::NoRoom(error) => error.line().unwrap_or(0),
    }
}

/// Drops the room, if the handle holds one. The handle is empty then.
#[unsafe(no_mangle)]
pub extern "C" fn srm_raw_room_close(alloc: Global, handle: &mut RoomHandle)
    ensures { handle.new.value ≡ None }
{
    drop(handle.take(alloc));
}

/// Returns how many members the room has, 1 to 32; 0 if the handle is empty.
#[unsafe(no_mangle)]
pub extern "C" fn srm_raw_room_members(alloc: Global, handle: &mut RoomHandle) -> u32
    ensures { NumberCall member_count result handle.old.value handle.new.value }
{
    let Some(room) = handle.take(alloc) else {
        return 0;
    };
    let count = count_of(&room);
    handle.put(room);
    count
}

#[tactic(auto, using(srm_join::proofs::Taking::people_count))]
fn count_of(room: &Room) -> u32
    ensures { result ≡ member_count room.now }
{
    room.is_room();
    room.members().len() as u32
}

/// Returns for how long a live member lingers, in microseconds, at most 30,000,000; 0 if the handle is empty.
#[unsafe(no_mangle)]
pub extern "C" fn srm_raw_room_linger(alloc: Global, handle: &mut RoomHandle) -> u32
    ensures { NumberCall linger_of result handle.old.value handle.new.value }
{
    let Some(room) = handle.take(alloc) else {
        return 0;
    };
    let linger = room.settings().linger;
    handle.put(room);
    linger
}

/// Returns how many strokes may be missing, 1 to 16,777,216; 0 if the handle is empty.
#[unsafe(no_mangle)]
pub extern "C" fn srm_raw_room_most_missing(alloc: Global, handle: &mut RoomHandle) -> u32
    ensures { NumberCall most_missing_of result handle.old.value handle.new.value }
{
    let Some(room) = handle.take(alloc) else {
        return 0;
    };
    let most_missing = room.settings().most_missing;
    handle.put(room);
    most_missing
}

/// Writes the place of the member that has this name, or whose place this text is.
///
/// Returns `DONE` or the first of these that holds: `EMPTY`; `MEMBER` if the room has none such.
#[unsafe(no_mangle)]
pub extern "C" fn srm_raw_room_find(
    alloc: Global,
    handle: &mut RoomHandle,
    me: &[u8],
    place: &mut u32,
) -> u32
    ensures { FindCall me.now result place.old place.new handle.old.value handle.new.value }
{
    let Some(room) = handle.take(alloc) else {
        return EMPTY;
    };
    let member = room.member_of(me);
    handle.put(room);
    tell_member(member, place)
}

fn tell_member(member: Option<Member>, to: &mut u32) -> u32
    ensures { TellsMember member result to.old to.new }
{
    match member {
        Some(member) => {
            *to = u32::from(member.number());
            DONE
        }
        None => MEMBER,
    }
}

/// Copies the name of the member with this place to the front of a buffer, and writes its length.
///
/// Returns `DONE` or the first of these that holds: `EMPTY`; `MEMBER` if the room has no such member; `BUFFER` if the name doesn't fit, and then its length is written too.
#[unsafe(no_mangle)]
pub extern "C" fn srm_raw_room_name(
    alloc: Global,
    handle: &mut RoomHandle,
    place: u32,
    buffer: &mut [u8],
    length: &mut usize,
) -> u32
    ensures { NameCall place result buffer.old buffer.new length.old length.new handle.old.value handle.new.value }
{
    let Some(room) = handle.take(alloc) else {
        return EMPTY;
    };
    let code = tell_name(&room, place, buffer, length);
    handle.put(room);
    code
}

fn tell_name(room: &Room, place: u32, buffer: &mut [u8], to: &mut usize) -> u32
    ensures { TellsText (name_at room.now.people place) result buffer.old buffer.new to.old to.new }
{
    tell_text(name_at(room, place as usize), buffer, to)
}

/// Copies the address of the member with this place to the front of a buffer, and writes its length.
///
/// Returns what `srm_raw_room_name` does.
#[unsafe(no_mangle)]
pub extern "C" fn srm_raw_room_address(
    alloc: Global,
    handle: &mut RoomHandle,
    place: u32,
    buffer: &mut [u8],
    length: &mut usize,
) -> u32
    ensures { AddressCall place result buffer.old buffer.new length.old length.new handle.old.value handle.new.value }
{
    let Some(room) = handle.take(alloc) else {
        return EMPTY;
    };
    let code = tell_address(&room, place, buffer, length);
    handle.put(room);
    code
}

fn tell_address(room: &Room, place: u32, buffer: &mut [u8], to: &mut usize) -> u32
    ensures { TellsText (address_at room.now.people place) result buffer.old buffer.new to.old to.new }
{
    tell_text(address_at(room, place as usize), buffer, to)
}

fn tell_text(text: Option<&str>, buffer: &mut [u8], to: &mut usize) -> u32
    ensures { TellsText (option_map (λ found. found.now) text.entry) result buffer.old buffer.new to.old to.new }
{
    let Some(text) = text else {
        return MEMBER;
    };
    let bytes = text.as_bytes();
    lay_over(bytes, buffer);
    *to = bytes.len();
    if bytes.len() <= buffer.len() {
        DONE
    } else {
        BUFFER
    }
}

/// Writes the settings that the agent of a member takes. The size stays.
///
/// Returns `DONE` or the first of these that holds: `MEMBER` if the member is past 31; `EMPTY`; `MEMBER` if the room has no such member.
#[unsafe(no_mangle)]
pub extern "C" fn srm_raw_room_config(
    alloc: Global,
    handle: &mut RoomHandle,
    me: u8,
    config: &mut RawConfig,
) -> u32
    ensures no_member { MEMBERS ≤ me → Refuses MEMBER result handle.old.value handle.new.value × (config.new ≡ config.old) }
    ensures told { me < MEMBERS → ConfigCall me result config.old config.new handle.old.value handle.new.value }
{
    let Some(me) = Member::new(me) else {
        return MEMBER;
    };
    let Some(room) = handle.take(alloc) else {
        return EMPTY;
    };
    let code = tell_config(&room, me, config);
    handle.put(room);
    code
}

fn tell_config(room: &Room, me: Member, to: &mut RawConfig) -> u32
    ensures { TellsConfig room.now me result to.old to.new }
{
    match config_in(room, me) {
        Some(config) => {
            to.set(config);
            DONE
        }
        None => MEMBER,
    }
}
