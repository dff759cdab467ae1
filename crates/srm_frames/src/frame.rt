//! Frames: a record has one for each line.

ghost use Rattle.std.specs.Prelude.{◌≡◌, ◌<◌, ◌≤◌, ◌^◌, ◌∷◌, ◌++◌, length, take, drop, OnOk};
ghost use Rattle.std.specs.Int.{w32, w64, to_be_bytes};
ghost use Rattle.srm_frames.specs.declared.format.TheConstants.{LONGEST_PAYLOAD as longest_payload};
ghost use Rattle.srm_frames.specs.Frames.{sealed, frame};

use crate::checksum::crc_32;
use crate::format::LONGEST_PAYLOAD;
use std::alloc::AllocError;

/// A line of a record as bytes: its kind, its moment, and its payload.
#[derive(Clone, Copy, Debug)]
pub struct Frame<'a> {
    /// The kind, 1 to 8.
    pub kind: u8,
    /// The moment, in microseconds, at most 2^48.
    pub moment: u64,
    /// The payload.
    pub payload: &'a [u8],
}

/// Appends a frame to bytes: its kind, 1 to 8; its moment in microseconds, at most 2^48; its payload; and the checksum. It checks neither kind nor moment:
/// [`read_record`](crate::read_record) refuses others.
///
/// Fails with `AllocError` if out of memory, or if the payload has 2^32 bytes or more. What `out` has then is unspecified.
pub fn put_frame(out: &mut Vec<u8>, kind: u8, moment: u64, payload: &[u8]) -> Result<(), AllocError>
    ensures frame { OnOk result (out.new.items ≡ out.old.items ++ frame kind moment payload.now) }
    ensures fits { OnOk result (length payload.now < 2 ^ 32) }
{
    let start = out.len();
    put_head(out, kind, moment, payload.len())?;
    out.extend_from_slice(payload)?;
    seal(out, start)?;
    Ok(())
}

/// Appends what stands before a payload of so many bytes. Fails if out of memory, or from 2^32 bytes on.
pub fn put_head(out: &mut Vec<u8>, kind: u8, moment: u64, size: usize) -> Result<(), AllocError>
    ensures head { OnOk result (out.new.items ≡ out.old.items ++ (kind ∷ (to_be_bytes w64 moment ++ to_be_bytes w32 size))) }
    ensures fits { OnOk result (size ≤ longest_payload) }
{
    if size > LONGEST_PAYLOAD {
        return Err(AllocError);
    }
    out.push(kind)?;
    out.extend_from_slice(&moment.to_be_bytes())?;
    out.extend_from_slice(&(size as u32).to_be_bytes())?;
    Ok(())
}

/// Appends the checksum of the bytes from a place on.
pub fn seal(out: &mut Vec<u8>, start: usize) -> Result<(), AllocError>
    requires { start ≤ length out.old.items }
    ensures { OnOk result (out.new.items ≡ take start out.old.items ++ sealed (drop start out.old.items)) }
{
    let (_, fields) = out.as_slice().split_at(start);
    let checksum = crc_32(fields);
    out.extend_from_slice(&checksum.to_be_bytes())?;
    Ok(())
}
