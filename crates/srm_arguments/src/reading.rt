//! Reading a program's arguments.

ghost use Rattle.std.specs.Prelude.{◌≡◌, map, string_bytes, IfOk};

use crate::fault::ArgumentFault;
use std::alloc::{AllocError, Global};
use std::env;
use std::rt::Env;

/// Reads the arguments behind the program's name, in their order.
///
/// Fails with [`ArgumentFault::NoText`] if one of them isn't UTF-8, and with [`ArgumentFault::Memory`].
pub fn read_arguments<R: Env + AllocGlobal>(rt: &R) -> Result<Vec<String>, ArgumentFault> {
    let arguments: Vec<String> = env::args(rt)?.skip(1).collect(rt.alloc())?;
    Ok(arguments)
}

/// Returns the texts of arguments, in their order. Fails only if out of memory.
pub fn texts_of<'a>(alloc: Global, arguments: &'a [String]) -> Result<Vec<&'a str>, AllocError>
    ensures { IfOk result (λ texts. map (λ text. text.now) texts.items ≡ map string_bytes arguments.now) }
{
    arguments.iter().map(|word| word.as_str()).collect(alloc)
}
