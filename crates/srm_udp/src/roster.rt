//! Which addresses are a member's.

ghost use Rattle.std.specs.Prelude.{◌≡◌, ◌↔◌, IsTrue};
ghost use Rattle.srm_udp.specs.Inboxes.{IsFromMember, IsOfRoster, SamePlace, named_sender};

use std::net::SocketAddr;

/// Returns whether an origin has the IP address and the port of one of these, in time linear in their number.
pub(crate) fn is_of_roster(roster: &[SocketAddr], origin: SocketAddr) -> bool
    ensures { IsTrue result ↔ IsOfRoster roster.now origin }
{
    match roster {
        [] => false,
        [first, rest @ ..] => is_same_place(*first, origin) || is_of_roster(rest, origin),
    }
}

// Returns whether two addresses have the same IP address and port. The flow and the scope of IPv6 don't count.
fn is_same_place(one: SocketAddr, other: SocketAddr) -> bool
    ensures { IsTrue result ↔ SamePlace one other }
{
    one.ip() == other.ip() && one.port() == other.port()
}

/// Bytes before the sender of a datagram.
pub(crate) const SENDER_PLACE: usize = 8;

// Returns the number of the member that bytes name as their sender, if they begin as a datagram does and are long enough.
fn named_sender(bytes: &[u8]) -> Option<u8>
    ensures { result ≡ named_sender bytes.now }
{
    match bytes {
        [b'S', b'R', ..] => bytes.get(SENDER_PLACE).copied(),
        _ => None,
    }
}

#[tactic(auto, using(crate::proofs::Naming::sender_is_at, crate::proofs::Naming::sender_has_none, crate::proofs::Naming::unnamed))]
/// Returns whether bytes come from the address of the member that they name as their sender, or, if they name none, from that of any member.
pub(crate) fn is_from_sender(roster: &[SocketAddr], origin: SocketAddr, bytes: &[u8]) -> bool
    ensures { IsTrue result ↔ IsFromMember roster.now origin bytes.now }
{
    let Some(sender) = named_sender(bytes) else {
        return is_of_roster(roster, origin);
    };
    match roster.get(usize::from(sender)) {
        Some(address) => is_same_place(*address, origin),
        None => false,
    }
}
