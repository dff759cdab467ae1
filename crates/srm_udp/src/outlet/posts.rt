//! What passed between a wire and the system, for contracts alone.

ghost use Rattle.std.specs.Prelude.{◌≡◌, ◌++◌, [], ◌∷◌};
ghost use Rattle.srm_udp.specs.Posts.{post};

use std::marker::Model;
use std::net::SocketAddr;
use std::snapshot::Snapshot;

/// Datagrams, each with an address, which contracts see and nothing stores: it takes no memory, and nothing can be read from it. Only the calls of an
/// [`Outlet`](super::Outlet) append to it, so a wire can't tell of a datagram that no call of the system took or returned.
#[cycle(posts)]
#[derive(Drop)]
pub(crate) struct Posts {
    last: Last,
}

// The list before the last datagram, and this one with its address.
#[cycle(posts)]
#[derive(Drop)]
enum Last {
    Nothing,
    Posted(Snapshot<Posts>, Snapshot<SocketAddr>, Snapshot<Bytes>),
}

// Bytes. Nothing stores them either.
#[cycle(bytes)]
#[derive(Drop)]
struct Bytes {
    last: LastByte,
}

#[cycle(bytes)]
#[derive(Drop)]
enum LastByte {
    Nothing,
    Appended(Snapshot<Bytes>, Snapshot<u8>),
}

impl Model for Bytes {
    ghost use Rattle.std.specs.Prelude.{List, ℕ, length};

    ghost Value = { List ℕ };

    ghost use Rattle.srm_udp.specs.Noting.{up_to_last_byte};

    ghost view = { λ b. up_to_last_byte b.last };

    ghost size = { length };

    ghost use Rattle.std.proofs.Common.{arith, length-append};

    ghost size_decreases = { λ a h. Prim.grind (arith, length-append) };
}

impl Model for Posts {
    ghost use Rattle.std.specs.Prelude.{List, length};
    ghost use Rattle.srm_udp.specs.Posts.{Post};

    ghost Value = { List Post };

    ghost use Rattle.srm_udp.specs.Noting.{up_to_last};

    ghost view = { λ posts. up_to_last posts.last };

    ghost size = { length };

    ghost use Rattle.std.proofs.Common.{arith, length-append};

    ghost size_decreases = { λ a h. Prim.grind (arith, length-append) };
}

impl Posts {
    /// Makes an empty list.
    pub(crate) fn new() -> Posts
        ensures { result ≡ [] }
    {
        Posts {
            last: Last::Nothing,
        }
    }

    #[tactic(auto, using(crate::proofs::Posting::noted_more, crate::proofs::Posting::noted_all))]
    /// Appends bytes and their address. Nothing of that is left when it runs.
    pub(super) fn append(&mut self, address: SocketAddr, bytes: &[u8])
        ensures { self.new ≡ self.old ++ post address bytes.now ∷ [] }
    {
        let mut noted = Bytes {
            last: LastByte::Nothing,
        };
        for byte in bytes {
            noted = Bytes {
                last: LastByte::Appended(Snapshot::of(&noted), Snapshot::of(byte)),
            };
        }
        let before = Snapshot::of(self);
        *self = Posts {
            last: Last::Posted(before, Snapshot::of(&address), Snapshot::of(&noted)),
        };
    }
}
