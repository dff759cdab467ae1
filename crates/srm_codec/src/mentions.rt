//! The names that a datagram names.

ghost use Rattle.std.specs.Prelude.{◌≡◌, [], ◌∷◌, IfOk, IfSome};
ghost use Rattle.std.specs.List.{AllByRecursion};
ghost use Rattle.srm_codec.specs.Spelling.{names_in, asked_by, is_name, IsSpellable, sole_name};

use crate::datagram::Datagram;
use crate::format::MASK_BITS;
use srm_names::Name;
use std::alloc::{AllocError, Global};

/// Returns the names that a datagram names, in order; the caller shows that it has a spelling ([`encodable`](crate::encodable)): one of data and repairs, up to 33
/// of a request, one for each row of a session message. Fails only if out of memory.
pub fn names_in(alloc: Global, datagram: &Datagram) -> Result<Vec<Name>, AllocError>
    requires { IsSpellable datagram.now }
    ensures { IfOk result (λ names. names.items ≡ names_in datagram.now) }
{
    match datagram {
        Datagram::Data(drawop) | Datagram::Repair { drawop, .. } => only(alloc, drawop.name),
        Datagram::Request { name, mask, .. } => asked_names(alloc, *name, *mask),
        Datagram::Session { rows, .. } => Vec::from_slice(alloc, rows.as_slice()),
    }
}

/// Returns the name of data or a repair, which have exactly one; `None` for other datagrams. Takes no memory.
pub fn only_name(datagram: &Datagram) -> Option<Name>
    ensures value { result ≡ sole_name datagram.now }
    ensures alone { IfSome result (λ name. names_in datagram.now ≡ name ∷ []) }
{
    match datagram {
        Datagram::Data(drawop) | Datagram::Repair { drawop, .. } => Some(drawop.name),
        _ => None,
    }
}

fn only(alloc: Global, name: Name) -> Result<Vec<Name>, AllocError>
    ensures { IfOk result (λ names. names.items ≡ name ∷ []) }
{
    let mut names = Vec::new(alloc);
    names.push(name)?;
    Ok(names)
}

/// The names that a request with this mask asks for, in order.
fn asked_names(alloc: Global, name: Name, mask: u32) -> Result<Vec<Name>, AllocError>
    requires { AllByRecursion is_name (asked_by name mask) }
    ensures { IfOk result (λ names. names.items ≡ asked_by name mask) }
{
    let mut names = only(alloc, name)?;
    let mut rest = mask;
    for bit in 0..MASK_BITS {
        if rest % 2 == 1 {
            let stream = name.stream();
            let number = name.number() + 1 + bit;
            names.push(stream.at(number).unwrap())?;
        }
        rest /= 2;
    }
    Ok(names)
}
