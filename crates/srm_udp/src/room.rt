//! The system's receive buffer.

use libc::net::{SO_RCVBUF, SOL_SOCKET, setsockopt};
use mio::net::UdpSocket;
use std::os::fd::AsRawFd;

/// Bytes that the system is asked to keep.
const BYTES: i32 = 4_194_304;

/// Asks the system for 4 MiB of receive buffer. It grants at most `net.core.rmem_max` and doesn't say how much; if it refuses, the buffer stays as it was.
pub(crate) fn ask_for_room(socket: &UdpSocket) {
    let mut value = [0; 16];
    value[..4].copy_from_slice(&BYTES.to_ne_bytes());
    // SAFETY: the descriptor is the socket's own, and the first four bytes are the value.
    let _ = unsafe { setsockopt(socket.as_raw_fd(), SOL_SOCKET, SO_RCVBUF, &value, 4) };
}
