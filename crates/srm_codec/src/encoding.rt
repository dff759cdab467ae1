//! Datagrams as bytes.

ghost use Rattle.std.specs.Prelude.{ℕ, Ok, vec_len, ◌≡◌, ◌≤◌, ◌<◌, ◌^◌, ◌++◌, ◌∷◌, length, OnOk, IfOk};
ghost use Rattle.std.specs.List.{flat_map};
ghost use Rattle.std.specs.Int.{to_be_bytes};
ghost use Rattle.srm_names.specs.declared.limits.TheConstants.{LONGEST_BODY};
ghost use Rattle.srm_codec.specs.Judging.{judge};
ghost use Rattle.srm_codec.specs.declared.format.TheConstants.{LONGEST_LIST};
ghost use Rattle.srm_codec.specs.Spelling.{IsSpellable, Spells, spelling, length_of, drawop_bytes, name_bytes, echo_bytes, request_bytes};

use crate::datagram::Datagram;
use crate::fields::{head_field, name_field, page_field};
use crate::format::{
    DATA, DRAWOP_BYTES, ECHO_BYTES, HEAD_BYTES, MASK_BYTES, NAME_BYTES, PACKED, PLAIN, REPAIR,
    REQUEST, SESSION_MESSAGE, SESSION_MESSAGE_BYTES,
};
use srm_names::{Drawop, Echo, Member, Name};
use std::alloc::{AllocError, Global};

/// Returns the one spelling of the datagram in this session. The caller shows that it has one ([`encodable`](crate::encodable)).
///
/// Fails only if out of memory. Makes one list of as many bytes.
pub fn encode(alloc: Global, session: u32, datagram: &Datagram) -> Result<Vec<u8>, AllocError>
    requires { IsSpellable datagram.now }
    ensures spelled { IfOk result (λ bytes. Spells session datagram.now bytes.items) }
    ensures length { IfOk result (λ bytes. vec_len bytes ≡ length_of datagram.now) }

    // So `decode` reads it again.
    ensures read { IfOk result (λ bytes. judge session bytes.items ≡ Ok datagram.now) }
{
    let mut out = Vec::with_capacity(alloc, length(datagram))?;
    encode_into(&mut out, session, datagram)?;
    Ok(out)
}

/// Appends the one spelling of the datagram in this session to bytes: [`length`] bytes. The caller shows that it has one ([`encodable`](crate::encodable)).
///
/// Fails only if out of memory. What `out` has then is unspecified. Takes memory only where `out` has no room for them.
#[tactic(auto, unfolding(crate::specs::Spelling::spelling))]
pub fn encode_into(out: &mut Vec<u8>, session: u32, datagram: &Datagram) -> Result<(), AllocError>
    requires { IsSpellable datagram.now }
    ensures { OnOk result (out.new.items ≡ out.old.items ++ spelling session datagram.now) }
{
    match datagram {
        Datagram::Data(drawop) => {
            out.extend_from_slice(&head_field(PLAIN, DATA, session, drawop.name.source()))?;
            put_drawop(out, drawop)
        }
        Datagram::Request { sender, name, mask } => put_request(
            out, session, *sender, *name, *mask,
        ),
        Datagram::Repair { sender, drawop } => {
            out.extend_from_slice(&head_field(PLAIN, REPAIR, session, *sender))?;
            put_drawop(out, drawop)
        }
        Datagram::Session {
            sender,
            sent,
            farewell,
            shown,
            rows,
            echoes,
        } => {
            out.extend_from_slice(&head_field(PLAIN, SESSION_MESSAGE, session, *sender))?;
            out.extend_from_slice(&sent.to_be_bytes())?;
            out.push(u8::from(*farewell))?;
            out.extend_from_slice(&page_field(*shown))?;
            put_rows(out, rows.as_slice())?;
            put_echoes(out, echoes.as_slice())
        }
    }
}

/// Returns how many bytes the spelling of the datagram has, in any session, 17 or more. The caller shows that it has one ([`encodable`](crate::encodable)). Takes no
/// memory.
pub fn length(datagram: &Datagram) -> usize
    requires { IsSpellable datagram.now }
    ensures value { result ≡ length_of datagram.now }
    ensures counts { (session : ℕ) → result ≡ length (spelling session datagram.now) }
{
    match datagram {
        Datagram::Data(drawop) | Datagram::Repair { drawop, .. } => {
            HEAD_BYTES + DRAWOP_BYTES + drawop.body.len()
        }
        Datagram::Request { mask: 0, .. } => HEAD_BYTES + NAME_BYTES,
        Datagram::Request { .. } => HEAD_BYTES + NAME_BYTES + MASK_BYTES,
        Datagram::Session { rows, echoes, .. } => {
            let rows = NAME_BYTES * rows.as_slice().len();
            let echoes = ECHO_BYTES * echoes.as_slice().len();
            HEAD_BYTES + SESSION_MESSAGE_BYTES + rows + echoes
        }
    }
}

#[tactic(auto, unfolding(crate::specs::Spelling::drawop_bytes))]
fn put_drawop(out: &mut Vec<u8>, drawop: &Drawop) -> Result<(), AllocError>
    requires { length drawop.now.body ≤ LONGEST_BODY }
    ensures { OnOk result (out.new.items ≡ out.old.items ++ drawop_bytes drawop.now) }
{
    out.extend_from_slice(&name_field(drawop.name))?;
    out.extend_from_slice(&drawop.stamp.to_be_bytes())?;
    out.extend_from_slice(&(drawop.body.len() as u16).to_be_bytes())?;
    out.extend_from_slice(drawop.body.as_slice())
}

#[tactic(auto, unfolding(crate::specs::Spelling::request_bytes))]
fn put_request(
    out: &mut Vec<u8>,
    session: u32,
    sender: Member,
    name: Name,
    mask: u32,
) -> Result<(), AllocError>
    ensures { OnOk result (out.new.items ≡ out.old.items ++ request_bytes session sender name mask) }
{
    if mask == 0 {
        out.extend_from_slice(&head_field(PLAIN, REQUEST, session, sender))?;
        out.extend_from_slice(&name_field(name))
    } else {
        out.extend_from_slice(&head_field(PACKED, REQUEST, session, sender))?;
        out.extend_from_slice(&name_field(name))?;
        out.extend_from_slice(&mask.to_be_bytes())
    }
}

/// The rows behind their count.
fn put_rows(out: &mut Vec<u8>, rows: &[Name]) -> Result<(), AllocError>
    requires { length rows.now ≤ LONGEST_LIST }
    ensures { OnOk result (out.new.items
        ≡ out.old.items ++ length rows.now ∷ flat_map name_bytes rows.now) }
{
    out.push(rows.len() as u8)?;
    for row in rows {
        out.extend_from_slice(&name_field(*row))?;
    }
    Ok(())
}

/// The echoes behind their count.
fn put_echoes(out: &mut Vec<u8>, echoes: &[Echo]) -> Result<(), AllocError>
    requires { length echoes.now ≤ LONGEST_LIST }
    ensures { OnOk result (out.new.items
        ≡ out.old.items ++ length echoes.now ∷ flat_map echo_bytes echoes.now) }
{
    out.push(echoes.len() as u8)?;
    for echo in echoes {
        put_echo(out, *echo)?;
    }
    Ok(())
}

#[tactic(auto, unfolding(crate::specs::Spelling::echo_bytes))]
fn put_echo(out: &mut Vec<u8>, echo: Echo) -> Result<(), AllocError>
    ensures { OnOk result (out.new.items ≡ out.old.items ++ echo_bytes echo) }
{
    out.push(echo.member.number())?;
    out.extend_from_slice(&echo.t1.to_be_bytes())?;
    out.extend_from_slice(&echo.delay.to_be_bytes())?;
    Ok(())
}
