//! Whether others know where to send to a member.

ghost use Rattle.std.specs.Prelude.{◌↔◌, IsTrue};
ghost use Rattle.srm_options.specs.Options.{NamesPort};

use std::net::SocketAddr;

/// Returns whether the member at this place is alone, or its address names a port.
pub fn names_port(addresses: &[SocketAddr], place: usize) -> bool
    ensures { IsTrue result ↔ NamesPort addresses.now place }
{
    if addresses.len() == 1 {
        return true;
    }
    match addresses.get(place) {
        Some(own) => own.port() != 0,
        None => true,
    }
}
