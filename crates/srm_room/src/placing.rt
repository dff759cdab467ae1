//! Which member of a room has a name or a place.

ghost use Rattle.std.specs.Prelude.{◌≡◌, ◌≤◌, length, map};
ghost use Rattle.srm_names.specs.declared.limits.TheConstants.{MEMBERS};
ghost use Rattle.srm_room.specs.Rooms.{person};
ghost use Rattle.srm_room.specs.Places.{member_of, named_from, place_behind, place_in, place_of, place_step};

use crate::room::Room;
use crate::room_member::RoomMember;
use srm_names::{MEMBERS, Member};

impl Room {
    /// Returns the member that has this name, or whose place this is, from 0, in bytes of UTF-8. `None` if the room has none such. No name is a number.
    #[tactic(auto, using(crate::proofs::Persons::people_count))]
    pub fn member_of(&self, me: &[u8]) -> Option<Member>
        ensures { result ≡ member_of self.now.people me.now }
    {
        self.is_room();
        let members = self.members();
        let place = place_of(members, me);
        if usize::from(place) < members.len() {
            Member::new(place)
        } else {
            None
        }
    }
}

fn place_of(members: &[RoomMember], me: &[u8]) -> u8
    requires { length members.now ≤ MEMBERS }
    ensures { result ≡ place_of (map person members.now) me.now }
{
    match named(members, me) {
        Some(place) => place,
        None => place_in(me),
    }
}

// Returns the place of the member with this name.
fn named(members: &[RoomMember], name: &[u8]) -> Option<u8>
    requires { length members.now ≤ MEMBERS }
    ensures { result ≡ named_from 0 (map person members.now) name.now }
{
    let mut place: u8 = 0;
    for member in members {
        if member.name.as_bytes() == name {
            return Some(place);
        }
        place = place.saturating_add(1);
    }
    None
}

// Returns the place that a text says, or 32 if it says none.
fn place_in(text: &[u8]) -> u8
    ensures { result ≡ place_in text.now }
{
    match text {
        [] => MEMBERS,
        _ => place_behind(text),
    }
}

fn place_behind(text: &[u8]) -> u8
    ensures { result ≡ place_behind 0 text.now }
{
    let mut place = 0;
    for b in text {
        place = place_step(place, *b);
    }
    place
}

fn place_step(place: u8, b: u8) -> u8
    requires { place ≤ MEMBERS }
    ensures value { result ≡ place_step place b }
    ensures bound { result ≤ MEMBERS }
{
    if b.is_ascii_digit() {
        (u16::from(place) * 10 + u16::from(b - b'0')).min(u16::from(MEMBERS)) as u8
    } else {
        MEMBERS
    }
}
