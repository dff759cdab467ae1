//! What members send.

ghost use Rattle.std.specs.Prelude.{◌≡◌, IfOk};

use srm_names::{Drawop, Echo, Items, Member, Name, Page};
use std::alloc::{AllocError, Global};

/// What one member sends to the others.
#[derive(Debug, Drop, PartialEq, Eq)]
pub enum Datagram {
    /// A new drawop, from its source.
    Data(Drawop),
    /// Requests `name`, and for each bit `k` of the mask the name whose number is greater by `1 + k`.
    Request {
        /// The member that requests.
        sender: Member,
        /// The first name that it requests.
        name: Name,
        /// Which later names of the stream it requests too, a bit each; 0 for none.
        mask: u32,
    },
    /// A held drawop, from any member that holds it.
    Repair {
        /// The member that repairs.
        sender: Member,
        /// The drawop that it holds.
        drawop: Drawop,
    },
    /// Says what a member knows of the page that it shows, and when it heard the others. A farewell is its last one.
    Session {
        /// The member that sends it.
        sender: Member,
        /// The moment when it was sent, in microseconds of the sender's clock, at most 2^48.
        sent: u64,
        /// Whether it is the last one of its sender.
        farewell: bool,
        /// The page that its sender shows.
        shown: Page,
        /// The greatest number known of each stream, in order of stream.
        rows: Items<Name>,
        /// The newest session message heard from each member, in order of member.
        echoes: Items<Echo>,
    },
}

impl Datagram {
    ghost use Rattle.srm_codec.specs.Spelling.{sender_of};

    /// Returns the member that sends it.
    pub fn sender(&self) -> Member
        ensures { result ≡ sender_of self.now }
    {
        match self {
            Datagram::Data(drawop) => drawop.name.source(),
            Datagram::Request { sender, .. }
            | Datagram::Repair { sender, .. }
            | Datagram::Session { sender, .. } => *sender,
        }
    }

    /// Returns an equal datagram that shares a body's bytes. Fails only if out of memory.
    pub fn copy(&self, alloc: Global) -> Result<Datagram, AllocError>
        ensures { IfOk result (λ copy. copy ≡ self.now) }
    {
        match self {
            Datagram::Data(drawop) => Ok(Datagram::Data(drawop.copy()?)),
            Datagram::Request { sender, name, mask } => Ok(Datagram::Request {
                sender: *sender,
                name: *name,
                mask: *mask,
            }),
            Datagram::Repair { sender, drawop } => Ok(Datagram::Repair {
                sender: *sender,
                drawop: drawop.copy()?,
            }),
            Datagram::Session {
                sender,
                sent,
                farewell,
                shown,
                rows,
                echoes,
            } => Ok(Datagram::Session {
                sender: *sender,
                sent: *sent,
                farewell: *farewell,
                shown: *shown,
                rows: Items::new(Vec::from_slice(alloc, rows.as_slice())?),
                echoes: Items::new(Vec::from_slice(alloc, echoes.as_slice())?),
            }),
        }
    }
}
