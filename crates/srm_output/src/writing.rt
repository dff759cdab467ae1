//! Bytes to an output.

ghost use Rattle.std.specs.Prelude.{[], ◌≤◌, length, take, IfOk, OnOk, OnErr};
ghost use Rattle.std.specs.Io.KnownBytes.{Appends};
ghost use Rattle.srm_output.specs.Writing.{AppendsAllBut, AppendsFront};

use std::io;
use std::io::{ErrorKind, Write};

/// Writes bytes to an output until it has all of them. A write that was interrupted is made again.
///
/// Fails with the output's error, and with `WriteZero` if the output takes no more bytes. It has a front of the bytes then.
#[tactic(auto, using(crate::proofs::Gathered::written_more, crate::proofs::Gathered::front_still))]
pub fn write_bytes<O: Write>(out: &mut O, bytes: &[u8]) -> io::Result<()>
    ensures printed { OnOk result (AppendsAllBut (O.contents out.old) (O.contents out.new) bytes.now []) }
    ensures cut { OnErr result (AppendsFront (O.contents out.old) (O.contents out.new) bytes.now) }
{
    let mut rest = bytes;
    for _ in 0..u64::MAX {
        if rest.is_empty() {
            return Ok(());
        }
        let count = write_some(out, rest)?;
        rest = rest.split_at(count).1;
    }
    Err(ErrorKind::Interrupted.into())
}

// Writes some of the bytes, and returns how many: none if the call was interrupted.
#[tactic(auto, using(crate::proofs::Gathered::kept_is_none))]
fn write_some<O: Write>(out: &mut O, bytes: &[u8]) -> io::Result<usize>
    ensures bound { IfOk result (λ count. count ≤ length bytes.now) }
    ensures written { IfOk result (λ count. Appends (O.contents out.old) (O.contents out.new) (take count bytes.now)) }
    ensures none { OnErr result (Appends (O.contents out.old) (O.contents out.new) []) }
{
    match out.write(bytes) {
        Ok(0) => Err(ErrorKind::WriteZero.into()),
        Err(error) if error.kind() == ErrorKind::Interrupted => Ok(0),
        written => written,
    }
}
