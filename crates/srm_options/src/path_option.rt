//! An option that says a path.

ghost use Rattle.std.specs.Prelude.{◌≡◌, ◌⊎◌, Some, [], option_map, string_bytes, IfErr, IfOk, IfSome};
ghost use Rattle.clap.specs.Matches.{found_of, first_value};
ghost use Rattle.srm_options.specs.declared.mistake.Mistake.TheVariants.{Memory, NoFile};

use crate::mistake::Mistake;
use clap::ArgMatches;
use std::alloc::Global;

/// Returns the path of the file that an option says; `None` if it isn't given. Fails with [`Mistake::NoFile`] if the path is empty, and with [`Mistake::Memory`] if out of memory.
pub fn path_in<'a>(
    alloc: Global,
    matches: &ArgMatches<'a>,
    option: &'a str,
) -> Result<Option<String>, Mistake<'a>>
    ensures said { IfOk result (λ path. option_map string_bytes path ≡ first_value (found_of matches.now) option.now) }
    ensures named { IfOk result (λ path. IfSome path (λ text. string_bytes text ≡ [] → ⊥)) }
    ensures refused { IfErr result (λ mistake. (mistake ≡ Memory) ⊎ ((mistake ≡ NoFile option.entry) × (first_value (found_of matches.now) option.now ≡ Some []))) }
{
    let Some(path) = matches.get_str(option) else {
        return Ok(None);
    };
    if path.is_empty() {
        return Err(Mistake::NoFile(option));
    }
    match String::from_str(alloc, path) {
        Ok(path) => Ok(Some(path)),
        Err(_) => Err(Mistake::Memory),
    }
}
