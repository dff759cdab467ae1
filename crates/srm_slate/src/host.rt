//! From which host a connection comes.

use std::net::{IpAddr, Ipv6Addr, SocketAddr};

/// A host, as far as its address tells: an IPv4 address, or the first half of an IPv6 address, since whoever has one mostly has all with this half.
#[derive(Clone, Copy, Debug, PartialEq, Eq)]
pub enum Host {
    /// The address.
    V4([u8; 4]),
    /// The first half of the address, as four segments.
    V6([u16; 4]),
}

/// Returns from which host an address is. An IPv4 address that is written as an IPv6 address counts as what it is.
pub fn host_of(address: &SocketAddr) -> Host {
    match address.ip() {
        IpAddr::V4(ip) => Host::V4(ip.octets()),
        IpAddr::V6(ip) => match ip.to_ipv4_mapped() {
            Some(ip) => Host::V4(ip.octets()),
            None => first_half(&ip),
        },
    }
}

fn first_half(ip: &Ipv6Addr) -> Host {
    let segments = ip.segments();
    Host::V6([segments[0], segments[1], segments[2], segments[3]])
}
