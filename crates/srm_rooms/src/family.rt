//! Whether all members of a room can reach each other.

use crate::room_file_fault::RoomFileFault;
use srm_room::{Room, RoomMember};
use std::alloc::Global;
use std::net::SocketAddr;

/// Refuses a room whose addresses are of IPv4 and of IPv6, with the line of the first that differs from those before. `text` is what its file has. A host's name may be of either
/// kind, or both.
pub fn find_families(
    alloc: Global,
    path: &str,
    text: &str,
    room: &Room,
) -> Result<(), RoomFileFault> {
    let Some(other) = first_other(room.members()) else {
        return Ok(());
    };
    let path = String::from_str(alloc, path)?;
    match line_with(text, other.address.as_str()) {
        Some(line) => Err(RoomFileFault::FamilyInLine(path, line)),
        None => Err(RoomFileFault::Families(path)),
    }
}

// Returns the first member whose address is of another kind than one before.
fn first_other(members: &[RoomMember]) -> Option<&RoomMember> {
    let mut first = None;
    for member in members {
        if let Ok(address) = member.address.as_str().parse::<SocketAddr>() {
            match first {
                None => first = Some(address.is_ipv4()),
                Some(is_ipv4) if is_ipv4 != address.is_ipv4() => return Some(member),
                Some(_) => {}
            }
        }
    }
    None
}

// Returns the first line of a text that has this address, from 1.
fn line_with(text: &str, address: &str) -> Option<usize> {
    let mut number: usize = 0;
    for line in text.lines() {
        number = number.saturating_add(1);
        if line.contains(address) {
            return Some(number);
        }
    }
    None
}
