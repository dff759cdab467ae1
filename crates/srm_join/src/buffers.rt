//! Bytes at the front of a buffer that a caller lends.

ghost use Rattle.std.specs.Prelude.{◌≡◌, ◌++◌, drop, length, min, take};

/// Copies bytes to the front of a buffer, as many as fit, and returns how many. Takes no memory.
pub fn lay_start(bytes: &[u8], buffer: &mut [u8]) -> usize
    ensures count { result ≡ min (length bytes.now) (length buffer.old) }
    ensures bytes { buffer.new ≡ take result bytes.now ++ drop result buffer.old }
{
    let count = bytes.len().min(buffer.len());
    let (front, _) = buffer.split_at_mut(count);
    front.copy_from_slice(&bytes[..count]);
    count
}
