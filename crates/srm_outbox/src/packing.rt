//! Requests for several names.

ghost use Rattle.std.specs.Prelude.{◌≡◌, ◌<◌, ◌-◌, ◌^◌, ◌∷◌, true, Some, IfOk};
ghost use Rattle.std.specs.List.{AllByRecursion};
ghost use Rattle.srm_names.specs.declared.limits.TheConstants.{DRAWOPS};
ghost use Rattle.srm_names.specs.Names.{ascending, name_below};
ghost use Rattle.srm_codec.specs.declared.datagram.Datagram.TheVariants.{Request};
ghost use Rattle.srm_codec.specs.Spelling.{IsSpellable, is_name};
ghost use Rattle.srm_outbox.specs.DueItems.{MayHandIn};
ghost use Rattle.srm_entries.specs.Packing.{is_covered, is_covered_by, mask_of, packed};

use srm_codec::{Datagram, MASK_BITS};
use srm_names::{Member, Name};
use std::alloc::{AllocError, Global};
use std::collections::VecDeque;

/// Returns a member's requests for these names, which rise, in order. Each begins at the first name that the one before it doesn't cover,
/// and names all that it covers. Fails only if out of memory.
pub(crate) fn packed(
    alloc: Global,
    me: Member,
    asks: &[Name],
) -> Result<VecDeque<Datagram>, AllocError>
    requires { ascending name_below asks.now ≡ true }
    ensures value { IfOk result (λ requests. requests.items ≡ packed me asks.now) }
    ensures each { IfOk result (λ requests. AllByRecursion (MayHandIn me) requests.items) }
{
    let mut requests = VecDeque::new(alloc);
    let mut last: Option<Name> = None;
    for (index, name) in asks.iter().enumerate() {
        if !is_covered_by(&last, *name) {
            requests.push_back(request(me, *name, &asks[index + 1..]))?;
            last = Some(*name);
        }
    }
    Ok(requests)
}

/// Whether the last request, if there is one, names this name.
fn is_covered_by(last: &Option<Name>, name: Name) -> bool
    ensures { result ≡ is_covered_by last.now name }
{
    match last {
        Some(first) => is_covered(*first, name),
        None => false,
    }
}

/// Whether a request that begins at the first name covers this one.
fn is_covered(first: Name, name: Name) -> bool
    ensures { result ≡ is_covered first name }
{
    first.stream() == name.stream()
        && first.number() < name.number()
        && name.number() <= first.number() + MASK_BITS
}

/// Returns the request that begins at a name, and names those behind it that it covers.
fn request(me: Member, first: Name, rest: &[Name]) -> Datagram
    requires { ascending name_below (first ∷ rest.now) ≡ true }
    ensures value { result ≡ Request me first (mask_of first rest.now) }
    ensures spelled { IsSpellable result }
{
    is_in_range(first);
    let _ = me.number();
    Datagram::Request {
        sender: me,
        name: first,
        mask: mask(first, rest),
    }
}

/// Returns the mask of a request: a bit for each name behind the first that the request covers.
fn mask(first: Name, rest: &[Name]) -> u32
    requires { ascending name_below (first ∷ rest.now) ≡ true }
    ensures value { result ≡ mask_of first rest.now }
    ensures within { result < 2 ^ (DRAWOPS - first.number) }
{
    let mut mask = 0;
    for name in rest {
        if !is_covered(first, *name) {
            return mask;
        }
        mask += 1 << (name.number() - first.number() - 1);
    }
    mask
}

/// Tells proofs that a name is in range, as its type promises: its source and its page's creator are members, and its number is a drawop's.
/// It does nothing when it runs.
fn is_in_range(name: Name)
    ensures { is_name name }
{
    let stream = name.stream();
    let _ = name.number();
    let _ = stream.source.number();
    let _ = stream.page.creator.number();
}
