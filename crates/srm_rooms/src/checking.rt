//! What a room has, and which of its members a machine may be.

use crate::room_file_fault::RoomFileFault;
use srm_room::{Room, RoomMember};
use std::alloc::Global;
use std::net::{Net, SocketAddr, ToSocketAddrs, UdpSocket};

/// Returns what a room has, a line for the session, the key, the settings and each member, with whether this machine has its address, or why that isn't known. The key itself isn't
/// told. Fails only if out of memory.
pub fn checked<R: Net>(rt: &R, alloc: Global, room: &Room) -> Result<String, RoomFileFault> {
    let (session, bytes) = (room.session(), room.key().len());
    let mut text = format!(in alloc; "session {session}\nkey of {bytes} bytes\n")?;
    let settings = room.settings();
    let (c1, c2, d1, d2) = (settings.c1, settings.c2, settings.d1, settings.d2);
    let least = settings.least_distance;
    text.push_str(format!(in alloc;
        "waits {c1},{c2},{d1},{d2}, least-distance {least}\n"
    )?.as_str())?;
    let (rate, depth) = (settings.rate, settings.depth);
    let (linger, missing) = (settings.linger, settings.most_missing);
    text.push_str(format!(in alloc;
        "rate {rate}, depth {depth}, linger {linger}, most-missing {missing}\n"
    )?.as_str())?;
    for (place, member) in room.members().iter().enumerate() {
        text.push_str(member_line(rt, alloc, place, member)?.as_str())?;
    }
    Ok(text)
}

fn member_line<R: Net>(
    rt: &R,
    alloc: Global,
    place: usize,
    member: &RoomMember,
) -> Result<String, RoomFileFault> {
    let told = match is_here(rt, alloc, member.address.as_str()) {
        Some(true) => "this machine",
        Some(false) => "another machine",
        None => "not found",
    };
    let (name, address) = (member.name.as_str(), member.address.as_str());
    Ok(format!(in alloc; "member {place} {name} {address}: {told}\n")?)
}

// Returns whether this machine has an address: whether a socket can be bound there, at a port that the system chooses. `None` if the system doesn't find the host.
fn is_here<R: Net>(rt: &R, alloc: Global, text: &str) -> Option<bool> {
    let Ok(found) = text.to_socket_addrs(rt) else {
        return None;
    };
    let addresses: Vec<SocketAddr> = found.collect(alloc).ok()?;
    if addresses.is_empty() {
        return None;
    }
    for address in addresses.as_slice() {
        if UdpSocket::bind(rt, SocketAddr::new(address.ip(), 0)).is_ok() {
            return Some(true);
        }
    }
    Some(false)
}
