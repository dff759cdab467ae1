//! Making a room.

ghost use Rattle.std.specs.Prelude.{◌≡◌, map, IfOk};
ghost use Rattle.srm_room.specs.Rooms.{person, person_of};
ghost use Rattle.srm_rooms.specs.Made.{IsMadeOf, people_of};

use crate::room_file_fault::RoomFileFault;
use srm_room::{Room, RoomMember, RoomSettings};
use std::alloc::{AllocError, Global};
use std::random::RandomSource;

/// Bytes of a key that is made.
const KEY_BYTES: usize = 32;

/// Makes a room of these members, each a name and an address, with a session and a key of the system's random source, and the usual settings. Fails with
/// [`RoomFileFault::Unfit`] if they make none, with [`RoomFileFault::Random`], and if out of memory.
pub fn new_room<R: RandomSource>(
    rt: &R,
    alloc: Global,
    members: &[(&str, &str)],
) -> Result<Room, RoomFileFault>
    ensures { IfOk result (IsMadeOf (people_of members.now)) }
{
    let mut session = [0; 4];
    let mut key = [0; KEY_BYTES];
    if rt.fill_bytes(&mut session).is_err() || rt.fill_bytes(&mut key).is_err() {
        return Err(RoomFileFault::Random);
    }
    let members = members_of(alloc, members)?;
    room_of(alloc, u32::from_be_bytes(session), &key, members.as_slice())
}

fn room_of(
    alloc: Global,
    session: u32,
    key: &[u8; KEY_BYTES],
    members: &[RoomMember],
) -> Result<Room, RoomFileFault>
    ensures { IfOk result (IsMadeOf (map person members.now)) }
{
    match Room::new(alloc, session, key, members, RoomSettings::usual()) {
        Ok(room) => {
            room.is_room();
            Ok(room)
        }
        Err(error) => Err(RoomFileFault::Unfit(error)),
    }
}

fn members_of(alloc: Global, pairs: &[(&str, &str)]) -> Result<Vec<RoomMember>, AllocError>
    ensures { IfOk result (λ members. map person members.items ≡ people_of pairs.now) }
{
    let mut members = Vec::new(alloc);
    for pair in pairs {
        members.push(member_of(alloc, pair.0, pair.1)?)?;
    }
    Ok(members)
}

fn member_of(alloc: Global, name: &str, address: &str) -> Result<RoomMember, AllocError>
    ensures { IfOk result (λ member. person member ≡ person_of name.now address.now) }
{
    Ok(RoomMember {
        name: String::from_str(alloc, name)?,
        address: String::from_str(alloc, address)?,
    })
}
