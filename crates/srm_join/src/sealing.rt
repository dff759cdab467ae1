//! Sealing what goes to a member.

ghost use Rattle.srm_join.specs.Sealing.{SealsBy, SealsInto};

use srm_guard::{Key, Seal, TRAILER_BYTES};
use srm_names::Member;
use std::alloc::{AllocError, Global};

/// Bytes of a key, at least and at most.
const SHORTEST_KEY: usize = 16;

const LONGEST_KEY: usize = 1_024;

/// Why there is no seal.
#[derive(Clone, Copy, Debug, PartialEq, Eq)]
pub enum SealFault {
    /// The key has fewer than 16 bytes, or more than 1,024.
    NoKey,
    /// The room has no such member.
    NoMember,
    /// Out of memory.
    Memory,
}

impl From<AllocError> for SealFault {
    ghost use Rattle.std.specs.Prelude.{◌≡◌};
    ghost use Rattle.srm_join.specs.declared.sealing.SealFault.TheVariants.{Memory};

    ghost from_gives = { λ _ fault. fault ≡ Memory };

    fn from(_error: AllocError) -> SealFault {
        SealFault::Memory
    }
}

/// What became of a datagram that was to be sealed.
#[derive(Clone, Copy, Debug, PartialEq, Eq)]
pub enum Sealed {
    /// All counters to the member were used.
    UsedUp,
    /// Sealed it has so many bytes, which don't fit the buffer.
    Short(usize),
    /// Sealed it has so many bytes, which stand at the front of the buffer.
    Done(usize),
}

/// Makes the seal of a member by a copy of a key of 16 to 1,024 bytes, as [`Seal::new`] does. Fails with [`SealFault::NoKey`] if the key has another length, and with
/// [`SealFault::Memory`] if there are not some 70 KiB.
pub fn seal_by(alloc: Global, key: &[u8], me: Member, start: u64) -> Result<Seal, SealFault>
    ensures { SealsBy key.now me start result }
{
    if key.len() < SHORTEST_KEY || key.len() > LONGEST_KEY {
        return Err(SealFault::NoKey);
    }
    let Some(key) = Key::new(Vec::from_slice(alloc, key)?) else {
        return Err(SealFault::NoKey);
    };
    Ok(Seal::new(alloc, key, me, start)?)
}

/// Puts a datagram to a member with its number and tag to the front of a buffer, as [`Seal::close`] does: 25 more bytes than it has. Changes nothing if they don't fit, or all
/// counters were used. Takes no memory.
pub fn seal_datagram(seal: &mut Seal, to: Member, datagram: &[u8], buffer: &mut [u8]) -> Sealed
    ensures { SealsInto to datagram.now buffer.old buffer.new result seal.old seal.new }
{
    let length = datagram.len() + TRAILER_BYTES;
    if length > buffer.len() {
        return Sealed::Short(length);
    }
    if seal.close(to, datagram, buffer) {
        Sealed::Done(length)
    } else {
        Sealed::UsedUp
    }
}
