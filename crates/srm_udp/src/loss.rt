//! Which errors of the system are loss and no failure.

ghost use Rattle.std.specs.Prelude.{◌≡◌, ◌↔◌, IsTrue};
ghost use Rattle.srm_udp.specs.Losses.{IsLoss, error_of, loss_by_number, loss_of, send_error};

use srm_wire::Loss;
use std::io;
use std::io::ErrorKind;

/// Returns the kind of loss that the system tells by this error, or `None` for a failure. `WouldBlock` counts as full buffers ([`Loss::NoRoom`]), which is right for
/// a send: a caller that received tests for it first. The numbers are Linux's.
///
/// A lost datagram is requested again, so a cable that is pulled ends no member.
pub fn loss_of(error: &io::Error) -> Option<Loss>
    ensures { result ≡ loss_of error.now }
{
    match error.kind() {
        ErrorKind::WouldBlock => Some(Loss::NoRoom),
        ErrorKind::ConnectionRefused => Some(Loss::PortClosed),
        _ => loss_by_number(error.raw_os_error()),
    }
}

// Returns what an error of a receive tells: `None` if nothing is there, and else a kind of loss, or that the socket failed.
pub(crate) fn error_of(error: &io::Error) -> Option<Option<Loss>>
    ensures { result ≡ error_of error.now }
{
    match error.kind() {
        ErrorKind::WouldBlock => None,
        _ => Some(loss_of(error)),
    }
}

// Returns what the system's answer to a send of so many bytes tells: `None` if all went, and else a kind of loss, or a failure.
pub(crate) fn send_error(length: usize, answer: &io::Result<usize>) -> Option<Option<Loss>>
    ensures { result ≡ send_error length answer.now }
{
    match answer {
        Ok(count) if *count == length => None,
        Ok(_) => Some(None),
        Err(error) => Some(loss_of(error)),
    }
}

/// Returns whether [`loss_of`] an error is a kind of loss.
pub fn is_loss(error: &io::Error) -> bool
    ensures { IsTrue result ↔ IsLoss error.now }
{
    loss_of(error).is_some()
}

// Returns the kind of loss that Linux tells by a number.
fn loss_by_number(number: Option<i32>) -> Option<Loss>
    ensures { result ≡ loss_by_number number }
{
    match number {
        Some(100 | 101 | 112 | 113) => Some(Loss::NoWay),
        Some(1 | 13) => Some(Loss::Denied),
        Some(90) => Some(Loss::TooLong),
        Some(105) => Some(Loss::NoRoom),
        _ => None,
    }
}
