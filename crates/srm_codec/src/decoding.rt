//! Bytes as a datagram.

ghost use Rattle.std.specs.Prelude.{◌≡◌, ◌⊎◌, IfOk, IsOk, Ok, Err};
ghost use Rattle.srm_codec.specs.declared.datagram.Datagram.{Datagram};
ghost use Rattle.srm_codec.specs.declared.fault.DecodeFault.TheVariants.{Memory};
ghost use Rattle.srm_codec.specs.Judging.{judge};
ghost use Rattle.srm_codec.specs.Reading.{IsJudged, takes_memory};
ghost use Rattle.srm_codec.specs.Spelling.{Spells};

use crate::contents::contents;
use crate::datagram::Datagram;
use crate::fault::DecodeFault;
use crate::reader::Reader;
use std::alloc::Global;

/// Returns the datagram that the bytes spell in this session.
///
/// Fails with the first fault of the bytes, in the order of their fields. Faults and requests take no memory:
/// [`DecodeFault::Memory`] is returned only for valid data, repairs and session messages, if there is none for their body, rows or
/// echoes. Costs a step for each byte; a session message is read twice.
pub fn decode(alloc: Global, session: u32, bytes: &[u8]) -> Result<Datagram, DecodeFault>
    // What is read is spelled so, with nothing after it.
    ensures spelled { IfOk result (λ datagram. Spells session datagram bytes.now) }

    // What is spelled so is read.
    ensures read { (datagram : Datagram) → Spells session datagram bytes.now
        → (result ≡ Ok datagram) ⊎ (result ≡ Err Memory) }

    // Which fault it is; `Memory` is returned only for a valid datagram that isn't a request.
    ensures judged { IsJudged takes_memory result (judge session bytes.now) }
    ensures memory { result ≡ Err Memory → IsOk (judge session bytes.now) }
{
    judged(alloc, session, bytes)
}

#[tactic(auto, unfolding(crate::specs::Judging::judge))]
fn judged(alloc: Global, session: u32, bytes: &[u8]) -> Result<Datagram, DecodeFault>
    ensures { IsJudged takes_memory result (judge session bytes.now) }
{
    let mut reader = Reader::new(bytes);
    reader.magic()?;
    let version = reader.version()?;
    let kind = reader.kind(version)?;
    reader.session(session)?;
    let sender = reader.member()?;
    contents(alloc, version, kind, sender, &mut reader)
}
