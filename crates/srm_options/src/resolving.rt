//! Which addresses a live member's command line names.

use crate::mistake::Mistake;
use std::alloc::{AllocError, Global};
use std::io;
use std::io::ErrorKind;
use std::net::{Net, SocketAddr, ToSocketAddrs};

/// What finds the addresses of a name.
pub(crate) trait Resolve {
    /// Returns the addresses of `HOST:PORT`, in the system's order. Fails with the system's error, and with `OutOfMemory`.
    fn resolve(&self, alloc: Global, text: &str) -> io::Result<Vec<SocketAddr>>;
}

/// Finds none.
#[derive(Clone, Copy)]
pub(crate) struct NoNames;

impl Resolve for NoNames {
    fn resolve(&self, _alloc: Global, _text: &str) -> io::Result<Vec<SocketAddr>> {
        Err(io::Error::from(ErrorKind::Unsupported))
    }
}

/// Asks the system.
#[derive(Clone, Copy)]
pub(crate) struct System<R>(pub R);

impl<R: Net> Resolve for System<R> {
    fn resolve(&self, alloc: Global, text: &str) -> io::Result<Vec<SocketAddr>> {
        let addresses: Vec<SocketAddr> = text.to_socket_addrs(&self.0)?.collect(alloc)?;
        Ok(addresses)
    }
}

// The two kinds of addresses. A member with one kind doesn't reach a member with the other.
#[derive(Clone, Copy)]
enum Family {
    V4,
    V6,
}

/// Returns an address for each text: all are IPv4 if each text has such an address, or else all IPv6. Fails if a text is no address with a port, a name isn't found, no family has
/// an address for each text, or out of memory.
pub(crate) fn resolved<'a, S: Resolve>(
    alloc: Global,
    texts: &[&'a str],
    names: &S,
) -> Result<Vec<SocketAddr>, Mistake<'a>> {
    let mut choices = Vec::new(alloc);
    for text in texts {
        let choice = choice_of(alloc, text, names)?;
        if choices.push(choice).is_err() {
            return Err(Mistake::Memory);
        }
    }
    if let Some(addresses) = chosen(alloc, choices.as_slice(), Family::V4)? {
        return Ok(addresses);
    }
    match chosen(alloc, choices.as_slice(), Family::V6)? {
        Some(addresses) => Ok(addresses),
        None => Err(Mistake::Families),
    }
}

// Returns the addresses that a text stands for, one at least.
fn choice_of<'a, S: Resolve>(
    alloc: Global,
    text: &'a str,
    names: &S,
) -> Result<Vec<SocketAddr>, Mistake<'a>> {
    if let Ok(address) = text.parse::<SocketAddr>() {
        return [address].to_vec(alloc).map_err(|_| Mistake::Memory);
    }
    if !is_name(text) {
        return Err(Mistake::Host(text));
    }
    match names.resolve(alloc, text) {
        Ok(found) if found.is_empty() => Err(Mistake::Unresolved(text, ErrorKind::NotFound)),
        Ok(found) => Ok(found),
        Err(error) => Err(unresolved(text, error.kind())),
    }
}

fn unresolved(text: &str, cause: ErrorKind) -> Mistake<'_> {
    match cause {
        ErrorKind::OutOfMemory => Mistake::Memory,
        cause => Mistake::Unresolved(text, cause),
    }
}

// Returns whether a text is a host's name and a port.
fn is_name(text: &str) -> bool {
    match text.rsplit_once(':') {
        Some((host, port)) => {
            !host.is_empty() && !host.contains(':') && port.parse::<u16>().is_ok()
        }
        None => false,
    }
}

// Returns the first address of a family of each choice, if each has one.
fn chosen<'a>(
    alloc: Global,
    choices: &[Vec<SocketAddr>],
    family: Family,
) -> Result<Option<Vec<SocketAddr>>, Mistake<'a>> {
    let mut addresses = Vec::new(alloc);
    for choice in choices {
        let Some(address) = first_of(choice.as_slice(), family) else {
            return Ok(None);
        };
        if addresses.push(address).is_err() {
            return Err(Mistake::Memory);
        }
    }
    Ok(Some(addresses))
}

fn first_of(choice: &[SocketAddr], family: Family) -> Option<SocketAddr> {
    choice
        .iter()
        .copied()
        .find(|address| is_of(*address, family))
}

fn is_of(address: SocketAddr, family: Family) -> bool {
    match family {
        Family::V4 => address.is_ipv4(),
        Family::V6 => address.is_ipv6(),
    }
}
