//! Reading standard input.

ghost use Rattle.std.specs.Prelude.{◌≡◌, ◌<◌, ◌≤◌, Err, length, vec_len, IfOk, IfSome};
ghost use Rattle.srm_script.specs.declared.fault.ScriptFault.TheVariants.{TooLong};

use crate::fault::ScriptFault;
use std::alloc::Global;
use std::io::Read;

/// The longest input, in bytes.
const LONGEST_INPUT: usize = 1_000_000;

/// Reads an input to its end, and returns all of its bytes.
///
/// Fails with [`ScriptFault::TooLong`] if it has more than 1,000,000 bytes, and then stops reading after one byte more; with
/// [`ScriptFault::StandardInput`] if it can't be read; and with [`ScriptFault::Memory`].
#[tactic(auto, using(crate::proofs::Inputs::read_long))]
pub fn read_input<I: Read>(alloc: Global, reader: &mut I) -> Result<Vec<u8>, ScriptFault>
    ensures whole { IfOk result (λ bytes. IfSome (I.remaining reader.old) (λ text. bytes.items ≡ text)) }
    ensures few { IfOk result (λ bytes. vec_len bytes ≤ LONGEST_INPUT) }
    ensures too_long { result ≡ Err TooLong → IfSome (I.remaining reader.old) (λ text. LONGEST_INPUT < length text) }
{
    let mut bytes = Vec::new(alloc);
    match reader
        .take(LONGEST_INPUT as u64 + 1)
        .read_to_end(&mut bytes)
    {
        Ok(_) if bytes.len() > LONGEST_INPUT => Err(ScriptFault::TooLong),
        Ok(_) => Ok(bytes),
        Err(error) => Err(ScriptFault::of_input(error)),
    }
}
