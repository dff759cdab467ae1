//! Guards, as C calls seals: what goes to a member, and what came.

ghost use Rattle.std.specs.Prelude.{◌≡◌, ◌≤◌, ◌<◌, None, Ok, Err, MatchResult};
ghost use Rattle.srm_names.specs.declared.limits.TheConstants.{MEMBERS};
ghost use Rattle.srm_join.specs.Joining.{SealsIn};
ghost use Rattle.srm_join.specs.Sealing.{SealsBy};
ghost use Rattle.srm_ffi.specs.declared.codes.TheConstants.{MEMBER};
ghost use Rattle.srm_ffi.specs.Joins.{MakesSeal, OpenCall, Refuses, SealByCall, SealCall, SealInCall, TellsOpened, TellsSealed};

use crate::codes::{
    AGAIN, BUFFER, COUNTERS, DONE, EMPTY, FULL, MEMBER, OLDER, UNTAGGED, of_seal_fault,
};
use srm_guard::{Opened, Seal};
use srm_join::{RoomHandle, SealFault, SealHandle, Sealed, seal_by, seal_datagram, seal_in};
use srm_names::Member;
use srm_room::Room;
use std::alloc::Global;

/// Makes the seal of a member by a key, in an empty handle. Its counters begin at `start`.
///
/// Returns `DONE` or the first of these that holds: `MEMBER` if the member is past 31; `FULL` if the handle holds a seal; `KEY` if the key has fewer than 16 bytes or more
/// than 1,024; the number of out of memory.
#[unsafe(no_mangle)]
pub extern "C" fn srm_raw_guard_new(
    alloc: Global,
    handle: &mut SealHandle,
    key: &[u8],
    me: u8,
    start: u64,
) -> u32
    ensures no_member { MEMBERS ≤ me → Refuses MEMBER result handle.old.value handle.new.value }
    ensures seals { me < MEMBERS → SealByCall key.now me start result handle.old.value handle.new.value }
{
    let Some(me) = Member::new(me) else {
        return MEMBER;
    };
    if let Some(seal) = handle.take(alloc) {
        handle.put(seal);
        return FULL;
    }
    match boxed_by(alloc, key, me, start) {
        Ok(seal) => {
            handle.put(seal);
            DONE
        }
        Err(fault) => of_seal_fault(fault),
    }
}

fn boxed_by(alloc: Global, key: &[u8], me: Member, start: u64) -> Result<Box<Seal>, SealFault>
    ensures { MatchResult result (λ seal. SealsBy key.now me start (Ok seal.value)) (λ fault. SealsBy key.now me start (Err fault)) }
{
    match seal_by(alloc, key, me, start) {
        Ok(seal) => match Box::new(alloc, seal) {
            Ok(seal) => Ok(seal),
            Err(_) => Err(SealFault::Memory),
        },
        Err(fault) => Err(fault),
    }
}

/// Makes the seal of a member by the key of a room, in an empty handle. Its counters begin at `start`.
///
/// Returns `DONE` or the first of these that holds: `MEMBER` if the member is past 31; `EMPTY` if there is no room; `FULL` if the handle holds a seal; `MEMBER` if the room has no
/// such member; the number of out of memory.
#[unsafe(no_mangle)]
pub extern "C" fn srm_raw_room_guard(
    alloc: Global,
    handle: &mut RoomHandle,
    seal: &mut SealHandle,
    me: u8,
    start: u64,
) -> u32
    ensures no_member { MEMBERS ≤ me → Refuses MEMBER result handle.old.value handle.new.value × (seal.new.value ≡ seal.old.value) }
    ensures seals { me < MEMBERS → SealInCall me start result seal.old.value seal.new.value handle.old.value handle.new.value }
{
    let Some(me) = Member::new(me) else {
        return MEMBER;
    };
    let Some(room) = handle.take(alloc) else {
        return EMPTY;
    };
    let code = make_in(alloc, &room, seal, me, start);
    handle.put(room);
    code
}

fn make_in(alloc: Global, room: &Room, to: &mut SealHandle, me: Member, start: u64) -> u32
    ensures { MakesSeal (SealsIn room.now me start) result to.old.value to.new.value }
{
    if let Some(seal) = to.take(alloc) {
        to.put(seal);
        return FULL;
    }
    match boxed_in(alloc, room, me, start) {
        Ok(seal) => {
            to.put(seal);
            DONE
        }
        Err(fault) => of_seal_fault(fault),
    }
}

fn boxed_in(alloc: Global, room: &Room, me: Member, start: u64) -> Result<Box<Seal>, SealFault>
    ensures { MatchResult result (λ seal. SealsIn room.now me start (Ok seal.value)) (λ fault. SealsIn room.now me start (Err fault)) }
{
    match seal_in(alloc, room, me, start) {
        Ok(seal) => match Box::new(alloc, seal) {
            Ok(seal) => Ok(seal),
            Err(_) => Err(SealFault::Memory),
        },
        Err(fault) => Err(fault),
    }
}

/// Drops the seal, if the handle holds one. The handle is empty then.
#[unsafe(no_mangle)]
pub extern "C" fn srm_raw_guard_close(alloc: Global, handle: &mut SealHandle)
    ensures { handle.new.value ≡ None }
{
    drop(handle.take(alloc));
}

/// Puts a datagram to a member, sealed, to the front of a buffer, and writes its length: 25 more bytes than the datagram has.
///
/// Returns `DONE` or the first of these that holds: `MEMBER` if the member is past 31; `EMPTY`; `BUFFER` if it doesn't fit, and then its length is written too; `COUNTERS` if all
/// counters to the member were used.
#[unsafe(no_mangle)]
pub extern "C" fn srm_raw_guard_seal(
    alloc: Global,
    handle: &mut SealHandle,
    to: u8,
    datagram: &[u8],
    buffer: &mut [u8],
    length: &mut usize,
) -> u32
    ensures no_member { MEMBERS ≤ to → Refuses MEMBER result handle.old.value handle.new.value × (buffer.new ≡ buffer.old) × (length.new ≡ length.old) }
    ensures seals { to < MEMBERS → SealCall to datagram.now result buffer.old buffer.new length.old length.new handle.old.value handle.new.value }
{
    let Some(to) = Member::new(to) else {
        return MEMBER;
    };
    let Some(mut seal) = handle.take(alloc) else {
        return EMPTY;
    };
    let sealed = seal_datagram(&mut seal, to, datagram, buffer);
    handle.put(seal);
    tell_sealed(sealed, length)
}

fn tell_sealed(sealed: Sealed, to: &mut usize) -> u32
    ensures { TellsSealed sealed result to.old to.new }
{
    match sealed {
        Sealed::Done(length) => {
            *to = length;
            DONE
        }
        Sealed::Short(length) => {
            *to = length;
            BUFFER
        }
        Sealed::UsedUp => COUNTERS,
    }
}

/// Opens bytes that came, whatever they are, and writes how many of them, from the front, are a datagram to be heard.
///
/// Returns `DONE` or the first of these that holds: `EMPTY`; `OLDER` if an older version tagged them; `UNTAGGED` if nobody with the key sealed them for this member; `AGAIN` if
/// they came before, or lie behind the window of their sender.
#[unsafe(no_mangle)]
pub extern "C" fn srm_raw_guard_open(
    alloc: Global,
    handle: &mut SealHandle,
    bytes: &[u8],
    length: &mut usize,
) -> u32
    ensures { OpenCall bytes.now result length.old length.new handle.old.value handle.new.value }
{
    let Some(mut seal) = handle.take(alloc) else {
        return EMPTY;
    };
    let opened = seal.open(bytes);
    handle.put(seal);
    tell_opened(opened, length)
}

fn tell_opened(opened: Opened, to: &mut usize) -> u32
    ensures { TellsOpened opened result to.old to.new }
{
    match opened {
        Opened::Datagram(count) => {
            *to = count;
            DONE
        }
        Opened::Foreign => UNTAGGED,
        Opened::Older => OLDER,
        Opened::Again => AGAIN,
    }
}
