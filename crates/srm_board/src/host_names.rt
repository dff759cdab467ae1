//! The names that browsers may ask a board for.

ghost use Rattle.std.specs.Prelude.{◌≡◌, [], ◌∷◌, ◌++◌, map, string_bytes, IfOk};
ghost use Rattle.srm_board.specs.Places.{address_hosts, bare_text, hosts_of, is_loopback, localhost_hosts};

use std::alloc::{AllocError, Global};
use std::net::{IpAddr, SocketAddr};

/// The port that a browser leaves out.
const USUAL_PORT: u16 = 80;

/// Returns what browsers may name as the `Host` of a server at this address: the address, and at a loopback address `localhost` too. Fails only if out of memory.
pub fn host_names(alloc: Global, http: &SocketAddr) -> Result<Vec<String>, AllocError>
    ensures { IfOk result (λ hosts. map string_bytes hosts.items ≡ hosts_of http.now) }
{
    let hosts = address_hosts(alloc, http)?;
    if is_loopback(http) {
        joined(hosts, localhost_hosts(alloc, http.port())?)
    } else {
        Ok(hosts)
    }
}

// Whether only this machine reaches it.
fn is_loopback(http: &SocketAddr) -> bool
    ensures { result ≡ is_loopback http.now }
{
    http.ip().is_loopback()
}

// The address with its port, and at the usual port without it.
fn address_hosts(alloc: Global, http: &SocketAddr) -> Result<Vec<String>, AllocError>
    ensures { IfOk result (λ hosts. map string_bytes hosts.items ≡ address_hosts http.now) }
{
    let mut hosts = Vec::new(alloc);
    hosts.push(format!(in alloc; "{http}")?)?;
    if http.port() == USUAL_PORT {
        with_name(hosts, bare_host(alloc, &http.ip())?)
    } else {
        Ok(hosts)
    }
}

// An address as browsers write it without a port.
fn bare_host(alloc: Global, ip: &IpAddr) -> Result<String, AllocError>
    ensures { IfOk result (λ host. string_bytes host ≡ bare_text ip.now) }
{
    match ip {
        IpAddr::V4(ip) => format!(in alloc; "{ip}"),
        IpAddr::V6(ip) => format!(in alloc; "[{ip}]"),
    }
}

// The usual name of this machine likewise.
fn localhost_hosts(alloc: Global, port: u16) -> Result<Vec<String>, AllocError>
    ensures { IfOk result (λ hosts. map string_bytes hosts.items ≡ localhost_hosts port) }
{
    let mut hosts = Vec::new(alloc);
    hosts.push(format!(in alloc; "localhost:{port}")?)?;
    if port == USUAL_PORT {
        with_name(hosts, String::from_str(alloc, "localhost")?)
    } else {
        Ok(hosts)
    }
}

fn joined(hosts: Vec<String>, more: Vec<String>) -> Result<Vec<String>, AllocError>
    ensures { IfOk result (λ all. map string_bytes all.items ≡ map string_bytes hosts.items ++ map string_bytes more.items) }
{
    let mut hosts = hosts;
    let mut more = more;
    hosts.append(&mut more)?;
    Ok(hosts)
}

fn with_name(hosts: Vec<String>, name: String) -> Result<Vec<String>, AllocError>
    ensures { IfOk result (λ all. map string_bytes all.items ≡ map string_bytes hosts.items ++ string_bytes name ∷ []) }
{
    let mut hosts = hosts;
    hosts.push(name)?;
    Ok(hosts)
}
