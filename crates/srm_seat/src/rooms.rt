//! Bytes into a room that a caller lends.

ghost use Rattle.std.specs.Prelude.{◌≡◌, ◌≤◌, ◌++◌, length, drop};
ghost use Rattle.srm_seat.specs.Calls.{laid_over};

/// Copies bytes to the front of a room if they fit, and else writes nothing. Takes no memory.
pub fn lay_over(bytes: &[u8], room: &mut [u8])
    ensures { room.new ≡ laid_over bytes.now room.old }
{
    if bytes.len() <= room.len() {
        copy_to_front(bytes, room);
    }
}

/// Copies bytes to the front of a room that they fit in.
fn copy_to_front(bytes: &[u8], room: &mut [u8])
    requires { length bytes.now ≤ length room.old }
    ensures { room.new ≡ bytes.now ++ drop (length bytes.now) room.old }
{
    let (front, _) = room.split_at_mut(bytes.len());
    front.copy_from_slice(bytes);
}
