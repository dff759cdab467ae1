//! What stands behind the head of a datagram, by its kind.

ghost use Rattle.std.specs.Prelude.{true};
ghost use Rattle.srm_codec.specs.Judging.{only_drawop, data_of, request_of, packed_of, repair_of, session_of, contents_of, mask_at};
ghost use Rattle.srm_codec.specs.Reading.{IsRead, IsJudged, takes_memory};

use crate::datagram::Datagram;
use crate::fault::DecodeFault;
use crate::format::{DATA, PLAIN, REPAIR, REQUEST};
use crate::lists::{echoes, rows, skim_echoes, skim_rows};
use crate::mask::is_within;
use crate::reader::Reader;
use bytes::Bytes;
use srm_names::{Drawop, Member, Name};
use std::alloc::Global;

/// Reads what follows the head of a datagram of this version and kind. Fails with the first fault of the bytes.
#[tactic(auto, unfolding(crate::specs::Judging::contents_of))]
pub fn contents(
    alloc: Global,
    version: u8,
    kind: u8,
    sender: Member,
    reader: &mut Reader,
) -> Result<Datagram, DecodeFault>
    ensures { IsJudged takes_memory result (contents_of version kind sender reader.old) }
{
    match kind {
        DATA => data(alloc, sender, reader),
        REQUEST if version == PLAIN => request(sender, reader),
        REQUEST => packed_request(sender, reader),
        REPAIR => repair(alloc, sender, reader),
        _ => session(alloc, sender, reader),
    }
}

#[tactic(auto, unfolding(crate::specs::Judging::data_of))]
fn data(alloc: Global, sender: Member, reader: &mut Reader) -> Result<Datagram, DecodeFault>
    ensures { IsJudged takes_memory result (data_of sender reader.old) }
{
    let drawop = only_drawop(alloc, Some(sender), reader)?;
    Ok(Datagram::Data(drawop))
}

#[tactic(auto, unfolding(crate::specs::Judging::repair_of))]
fn repair(alloc: Global, sender: Member, reader: &mut Reader) -> Result<Datagram, DecodeFault>
    ensures { IsJudged takes_memory result (repair_of sender reader.old) }
{
    let drawop = only_drawop(alloc, None, reader)?;
    Ok(Datagram::Repair { sender, drawop })
}

/// A drawop, of the wanted source if there is one, and nothing more. It is judged before memory is taken for it.
#[tactic(auto, unfolding(crate::specs::Judging::drawop_at, crate::specs::Judging::only_drawop))]
fn only_drawop(
    alloc: Global,
    wanted: Option<Member>,
    reader: &mut Reader,
) -> Result<Drawop, DecodeFault>
    ensures { IsJudged (λ _. true) result (only_drawop wanted reader.old) }
{
    let name = reader.name(wanted, None)?;
    let stamp = reader.moment()?;
    let body = reader.body()?;
    reader.end()?;
    let body = Bytes::copy_from_slice(alloc, body)?;
    Ok(Drawop { name, stamp, body })
}

#[tactic(auto, unfolding(crate::specs::Judging::request_of))]
fn request(sender: Member, reader: &mut Reader) -> Result<Datagram, DecodeFault>
    ensures { IsJudged takes_memory result (request_of sender reader.old) }
{
    let name = reader.name(None, None)?;
    reader.end()?;
    Ok(Datagram::Request {
        sender,
        name,
        mask: 0,
    })
}

#[tactic(auto, unfolding(crate::specs::Judging::packed_of))]
fn packed_request(sender: Member, reader: &mut Reader) -> Result<Datagram, DecodeFault>
    ensures { IsJudged takes_memory result (packed_of sender reader.old) }
{
    let name = reader.name(None, None)?;
    let mask = mask(name, reader)?;
    reader.end()?;
    Ok(Datagram::Request { sender, name, mask })
}

/// A mask that names a number, and none past the limit.
#[tactic(auto, unfolding(crate::specs::Judging::mask_at))]
fn mask(name: Name, reader: &mut Reader) -> Result<u32, DecodeFault>
    ensures { IsRead result reader.new (mask_at name reader.old) }
{
    let mask = reader.u32()?;
    if mask != 0 && is_within(name, mask) {
        Ok(mask)
    } else {
        Err(DecodeFault::Number)
    }
}

/// A session message. It is read twice: room for rows and echoes is made only once all is judged.
#[tactic(auto, unfolding(crate::specs::Judging::session_of))]
fn session(alloc: Global, sender: Member, reader: &mut Reader) -> Result<Datagram, DecodeFault>
    ensures { IsJudged takes_memory result (session_of sender reader.old) }
{
    let sent = reader.moment()?;
    let farewell = reader.flag()?;
    let shown = reader.page()?;
    let mut ahead = reader.again();
    skim_rows(farewell, sender, &mut ahead)?;
    skim_echoes(&mut ahead)?;
    ahead.end()?;
    let rows = rows(alloc, farewell, sender, reader)?;
    let echoes = echoes(alloc, reader)?;
    reader.end()?;
    Ok(Datagram::Session {
        sender,
        sent,
        farewell,
        shown,
        rows,
        echoes,
    })
}
