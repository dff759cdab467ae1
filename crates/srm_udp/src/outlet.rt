//! A socket, and what passed by it between a wire and the system.

ghost use Rattle.std.specs.Prelude.{◌≡◌, ◌≤◌, ◌++◌, [], ◌∷◌, length, take, MatchResult};
ghost use Rattle.srm_udp.specs.Losses.{error_of, send_error, with_error};
ghost use Rattle.srm_udp.specs.Posts.{post};

mod errors;
mod posts;

pub(crate) use errors::Errors;
use mio::net::UdpSocket;
pub(crate) use posts::Posts;
use std::io;
use std::marker::Model;
use std::net::SocketAddr;

/// A bound socket. Contracts see the bytes that each send passed to the system, and for which address, and the errors that the system answered, oldest first. There is no
/// other way to the system but [`send_to`](Outlet::send_to), so a wire can't tell of a send that it didn't make.
#[derive(Drop)]
pub(crate) struct Outlet {
    socket: UdpSocket,
    // For contracts alone.
    went: Posts,
    refused: Errors,
}

impl Model for Outlet {
    ghost use Rattle.srm_udp.specs.Posts.{OutletView};

    ghost Value = { OutletView };

    ghost view = { λ outlet. record { went = outlet.went; refused = outlet.refused } };
}

impl Outlet {
    /// Makes the outlet of a bound socket.
    pub(crate) fn new(socket: UdpSocket) -> Outlet
        ensures { result ≡ record { went = []; refused = [] } }
    {
        Outlet {
            socket,
            went: Posts::new(),
            refused: Errors::new(),
        }
    }

    /// Passes bytes to the system, for this address, and returns what it answers.
    pub(crate) fn send_to(&mut self, datagram: &[u8], address: SocketAddr) -> io::Result<usize>
        ensures { self.new ≡ record { went = self.old.went ++ post address datagram.now ∷ []; refused = with_error (send_error (length datagram.now) result) self.old.refused } }
    {
        self.went.append(address, datagram);
        let answer = self.socket.send_to(datagram, address);
        self.refused.note_send(datagram.len(), &answer);
        answer
    }

    /// Receives a datagram by one call of the system, and returns what it answers: how many bytes it put into the room, and where they come from, or its error. What came is
    /// noted for contracts, and so is an error, unless it says that nothing is there.
    pub(crate) fn receive(
        &self,
        room: &mut [u8],
        came: &mut Posts,
        errors: &mut Errors,
    ) -> io::Result<(usize, SocketAddr)>
        ensures datagram { MatchResult result (λ got. (got.0 ≤ length room.new) × (came.new ≡ came.old ++ post got.1 (take got.0 room.new) ∷ [])) (λ _. came.new ≡ came.old) }
        ensures error { MatchResult result (λ _. errors.new ≡ errors.old) (λ error. errors.new ≡ with_error (error_of error) errors.old) }
    {
        match self.socket.recv_from(room) {
            Ok((count, origin)) => {
                came.append(origin, &room[..count]);
                Ok((count, origin))
            }
            Err(error) => {
                errors.note_receive(&error);
                Err(error)
            }
        }
    }

    /// Returns the address that the socket is bound to. Fails with the system's error.
    pub(crate) fn local_addr(&self) -> io::Result<SocketAddr> {
        self.socket.local_addr()
    }
}
