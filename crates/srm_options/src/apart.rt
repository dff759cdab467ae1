//! Whether each member has an address that no other has.

ghost use Rattle.std.specs.Prelude.{◌↔◌, Contains, IsTrue};
ghost use Rattle.srm_options.specs.Options.{IsFirstApart};

use std::net::SocketAddr;

/// Returns whether no later address is the first one, or the first has port 0, so that the system chooses one.
pub fn is_first_apart(addresses: &[SocketAddr]) -> bool
    ensures { IsTrue result ↔ IsFirstApart addresses.now }
{
    match addresses {
        [] => true,
        [first, rest @ ..] => first.port() == 0 || !stands_in(rest, first),
    }
}

// Returns whether an address is one of these.
fn stands_in(addresses: &[SocketAddr], address: &SocketAddr) -> bool
    ensures { IsTrue result ↔ Contains addresses.now address.now }
{
    addresses.contains(address)
}
