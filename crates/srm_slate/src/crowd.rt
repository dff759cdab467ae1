//! Who makes room for those who come.

use crate::guest::Guest;
use crate::host::Host;
use slab::Slab;

/// Connections at once, at most.
pub const MOST: usize = 512;

/// Connections at once of one host to which nothing was granted yet, at most.
pub const STRANGERS: usize = 16;

/// Returns the key of the connection that makes room for one that comes from this host, if one has to: the oldest of this host to which nothing was granted, if 16 are
/// there. Else, if there are 512 connections, the oldest such one of the host that has the most; if there is none, the oldest that is no tab.
pub fn leaver(guests: &Slab<Guest>, host: Host) -> Option<usize> {
    if strangers_of(guests, host) >= STRANGERS {
        return oldest_of(guests, host);
    }
    if guests.len() < MOST {
        return None;
    }
    match most_crowded(guests) {
        Some(host) => oldest_of(guests, host),
        None => oldest_caller(guests),
    }
}

// How many connections of a host were granted nothing yet.
fn strangers_of(guests: &Slab<Guest>, host: Host) -> usize {
    guests
        .iter()
        .filter(|(_, guest)| !guest.is_known && guest.host == host)
        .count()
}

fn oldest_of(guests: &Slab<Guest>, host: Host) -> Option<usize> {
    guests
        .iter()
        .filter(|(_, guest)| !guest.is_known && guest.host == host)
        .min_by_key(|(_, guest)| guest.place)
        .map(|(key, _)| key)
}

// The host that has the most connections to which nothing was granted.
fn most_crowded(guests: &Slab<Guest>) -> Option<Host> {
    guests
        .iter()
        .filter(|(_, guest)| !guest.is_known)
        .max_by_key(|(_, guest)| strangers_of(guests, guest.host))
        .map(|(_, guest)| guest.host)
}

fn oldest_caller(guests: &Slab<Guest>) -> Option<usize> {
    guests
        .iter()
        .filter(|(_, guest)| !guest.is_watching())
        .min_by_key(|(_, guest)| guest.place)
        .map(|(key, _)| key)
}
