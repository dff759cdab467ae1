//! Why a call of the system failed, in words.

use std::fmt;
use std::io::ErrorKind;

/// Displays why a call of the system failed. Where the cause has no name, it displays what to look at.
#[derive(Clone, Copy, Debug, PartialEq, Eq)]
pub struct SystemCause {
    cause: ErrorKind,
    unnamed: &'static str,
}

impl SystemCause {
    /// Returns why a host's name has no address.
    pub fn of_host(cause: ErrorKind) -> SystemCause {
        SystemCause {
            cause,
            unnamed: "no such host, or no name server answers",
        }
    }

    /// Returns why a socket has no address.
    pub fn of_address(cause: ErrorKind) -> SystemCause {
        SystemCause {
            cause,
            unnamed: "too many open files (ulimit -n), or no IPv6 here",
        }
    }

    /// Returns why a datagram wasn't sent or received.
    pub fn of_datagram(cause: ErrorKind) -> SystemCause {
        SystemCause {
            cause,
            unnamed: "the system refused it: look at the interface",
        }
    }

    /// Returns why a file can't be opened, read or written.
    pub fn of_file(cause: ErrorKind) -> SystemCause {
        SystemCause {
            cause,
            unnamed: "no plain file, too many open files (ulimit -n), or a failing disk",
        }
    }
}

impl fmt::Display for SystemCause {
    fn fmt<W: fmt::Write>(&self, f: &mut fmt::Formatter<W>) -> fmt::Result {
        match self.cause {
            ErrorKind::Uncategorized => f.write_str(self.unnamed),
            cause => write!(f, "{cause}"),
        }
    }
}
