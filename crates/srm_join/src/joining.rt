//! What a room has for one of its members.

ghost use Rattle.std.specs.Prelude.{◌≡◌, ◌<◌, ◌≤◌, length, map, option_map, slice_get, MatchOption};
ghost use Rattle.srm_room.specs.Rooms.{person};
ghost use Rattle.srm_join.specs.Joining.{SealsIn, address_at, config_in, name_at};

use crate::sealing::{SealFault, seal_by};
use srm_entries::{Config, Settings};
use srm_guard::Seal;
use srm_names::Member;
use srm_room::{Room, RoomMember};
use std::alloc::Global;

/// Returns the settings of a member's agent: the room's session and settings, and how many members it has. `None` if it has no such member.
#[tactic(auto, using(crate::proofs::Taking::takes, crate::proofs::Taking::people_count))]
pub fn config_in(room: &Room, me: Member) -> Option<Config>
    ensures { MatchOption result (length room.now.people ≤ me) (λ config. (me < length room.now.people) × (config ≡ config_in room.now me)) }
{
    room.is_room();
    let members = room.members().len();
    if me.index() >= members {
        return None;
    }
    let settings = room.settings();
    let settings = Settings {
        rate: settings.rate,
        depth: settings.depth,
        c1: settings.c1 as u8,
        c2: settings.c2 as u8,
        d1: settings.d1 as u8,
        d2: settings.d2 as u8,
        least_distance: u64::from(settings.least_distance),
    };
    Config::with(me, members as u8, room.session(), settings)
}

/// Makes the seal of a member by the room's key, as [`seal_by`] does. Fails with [`SealFault::NoMember`] if the room has no such member, and with [`SealFault::Memory`].
pub fn seal_in(alloc: Global, room: &Room, me: Member, start: u64) -> Result<Seal, SealFault>
    ensures { SealsIn room.now me start result }
{
    room.is_room();
    if me.index() >= room.members().len() {
        return Err(SealFault::NoMember);
    }
    seal_by(alloc, room.key(), me, start)
}

/// Returns the name of the member with this place, from 0. `None` if the room has none such.
pub fn name_at(room: &Room, place: usize) -> Option<&str>
    ensures { option_map (λ name. name.now) result ≡ name_at room.now.people place }
{
    match member_at(room, place) {
        Some(member) => Some(member.name.as_str()),
        None => None,
    }
}

/// Returns the address of the member with this place, from 0, as the room has it. `None` if the room has none such.
pub fn address_at(room: &Room, place: usize) -> Option<&str>
    ensures { option_map (λ address. address.now) result ≡ address_at room.now.people place }
{
    match member_at(room, place) {
        Some(member) => Some(member.address.as_str()),
        None => None,
    }
}

#[tactic(auto, using(crate::proofs::Taking::person_at))]
fn member_at(room: &Room, place: usize) -> Option<&RoomMember>
    ensures { option_map (λ member. person member.now) result ≡ slice_get room.now.people place }
{
    room.members().get(place)
}
