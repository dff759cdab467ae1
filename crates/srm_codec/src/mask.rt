//! The mask of a request.

ghost use Rattle.std.specs.Prelude.{◌≡◌, nat_le};
ghost use Rattle.std.specs.List.{list_all};
ghost use Rattle.srm_names.specs.declared.limits.TheConstants.{DRAWOPS};
ghost use Rattle.srm_codec.specs.Spelling.{asked_by};

use crate::format::MASK_BITS;
use srm_names::{DRAWOPS, Name};

/// Returns whether no number that the mask names is past the limit.
pub fn is_within(name: Name, mask: u32) -> bool
    ensures { result ≡ list_all (λ n. nat_le n.number DRAWOPS) (asked_by name mask) }
{
    let room = DRAWOPS - name.number();
    room >= MASK_BITS || mask >> room == 0
}
