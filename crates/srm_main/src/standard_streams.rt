//! What stands in for a standard stream that is closed.

use std::fs::{File, Files, OpenOptions};
use std::io;
use std::os::fd::{AsRawFd, IntoRawFd, RawFd};

/// The descriptor of standard input.
pub const STDIN: RawFd = 0;

const STDOUT: RawFd = 1;

const STDERR: RawFd = 2;

/// Fills those of the three standard descriptors that are closed with the null device, so that no socket that is opened later gets such a number: the datagrams of strangers
/// would be read there as input. The device is opened for writing as standard input, and for reading as the others: reads and writes fail as before. Where it can't be opened,
/// what is closed stays so.
pub fn fill_standard_streams<R: Files<File = File>>(rt: &R) {
    for _ in 0..3u8 {
        // The system gives a file the lowest number that is free.
        let Ok(null) = open_null(rt, true) else {
            return;
        };
        match null.as_raw_fd() {
            STDIN => keep(null),
            STDOUT | STDERR => {
                drop(null);
                let Ok(null) = open_null(rt, false) else {
                    return;
                };
                keep(null);
            }
            _ => return,
        }
    }
}

// Leaves it open until the program ends.
fn keep(null: File) {
    let _ = null.into_raw_fd();
}

fn open_null<R: Files<File = File>>(rt: &R, is_written: bool) -> io::Result<File> {
    let mut how = OpenOptions::new();
    how.read(!is_written);
    how.write(is_written);
    how.open(rt, "/dev/null")
}
