//! What an agent sends.

ghost use Rattle.std.specs.Prelude.{IfOk};
ghost use Rattle.srm_codec.specs.Spelling.{IsSpellable};
ghost use Rattle.srm_outbox.specs.Outs.{IsOutgoingOf};

use srm_codec::{Datagram, encode};
use srm_names::Items;
use std::alloc::{AllocError, Global};

/// A datagram to send, with the bytes that spell it in the session.
#[derive(Debug, Drop)]
pub struct Out {
    /// The datagram.
    pub datagram: Datagram,
    /// Its bytes, to be sent to all other members.
    pub bytes: Items<u8>,
}

/// A datagram that waits for the bucket. It is spelled, and copied for the entry of the tick that sends it, so that sending takes no memory.
#[derive(Debug, Drop)]
pub struct Outgoing {
    /// What the caller gets once it goes.
    pub out: Out,
    /// The copy for the entry.
    pub noted: Datagram,
}

impl Outgoing {
    /// Spells a datagram in a session, and copies it. Fails only if out of memory; the datagram is dropped then.
    pub fn new(alloc: Global, session: u32, datagram: Datagram) -> Result<Outgoing, AllocError>
        requires { IsSpellable datagram }
        ensures { IfOk result (λ outgoing. IsOutgoingOf session datagram outgoing) }
    {
        let noted = datagram.copy(alloc)?;
        let bytes = Items::new(encode(alloc, session, &datagram)?);
        Ok(Outgoing {
            out: Out { datagram, bytes },
            noted,
        })
    }
}
