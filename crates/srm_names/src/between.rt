//! The names of a stream between two numbers.

ghost use Rattle.std.specs.Prelude.{◌≤◌, ◌+◌, IfOk};
ghost use Rattle.srm_names.specs.declared.limits.TheConstants.{DRAWOPS};
ghost use Rattle.srm_names.specs.Names.{AreExactly};
ghost use Rattle.srm_names.specs.Between.{is_between};

use crate::name::Name;
use crate::stream::Stream;
use std::alloc::{AllocError, Global};

/// Returns the names of a stream whose numbers are above `above`, at most 65,536, and below `below`, at most 65,537, in order of number.
///
/// Fails only if out of memory. Costs one list of as many names.
pub fn names_between(
    alloc: Global,
    stream: Stream,
    above: u32,
    below: u32,
) -> Result<Vec<Name>, AllocError>
    requires above { above ≤ DRAWOPS }
    requires below { below ≤ DRAWOPS + 1 }
    ensures { IfOk result (λ names. AreExactly (is_between stream above below) names.items) }
{
    let mut names = Vec::new(alloc);
    for number in above + 1..below {
        let name = stream.at(number).unwrap();
        names.push(name)?;
    }
    Ok(names)
}
