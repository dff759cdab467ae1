//! The wire, which carries datagrams between members.

ghost use Rattle.std.specs.Prelude.{◌≡◌, ◌≤◌, ℕ, Bool, true, List, [], length, Option, IfOk, IfSome, is_err};
ghost use Rattle.srm_wire.specs.declared.sent.Sent.{Sent};
ghost use Rattle.srm_wire.specs.declared.counts.WireCounts.{WireCounts as AllCounts};
ghost use Rattle.srm_wire.specs.Wires.{Told, TellsMore, CountsIf, answered, bytes_to, one_more, sent_by};

use crate::counts::WireCounts;
use srm_names::Member;
use thiserror::Error;

/// A call of a wire failed. The wire has counted it.
#[derive(Clone, Copy, Debug, PartialEq, Eq, Error)]
#[error("the wire failed")]
pub struct WireFault;

/// Raises a count of failures by one, up to 2^64 - 1, and returns the fault that the failed call is to return.
pub fn count_failure(failures: &mut u64) -> WireFault
    ensures one { failures.new ≡ one_more failures.old }
    ensures counted { CountsIf true failures.old failures.new }
{
    if *failures < u64::MAX {
        *failures += 1;
    }
    WireFault
}

/// A wire carries datagrams between members. It counts each failed `send` or `receive`, up to 2^64 - 1; nothing lowers the count.
///
/// A wire may *tell*: contracts then see what its receives returned and its sends took. `told` of a wire that doesn't tell is always None.
///
/// It may also say what its calls do, failed ones too:
///
/// - `sends`, of the wire before, what was to be sent, whether that failed, and the wire after;
/// - `receives`, of the wire before, the buffer's length, the answer (an empty list if it failed), and the wire after;
/// - `pauses`, of the wire before, how long, and the wire after.
///
/// So a contract can say what was tried, and in which order. A list can't: a wire may have no memory to add to it. A wire that says nothing
/// leaves them out.
pub trait Wire {
    ghost failure_count: { Self → ℕ };

    ghost told: { Self → Option Told };

    // What it has counted.
    ghost counted: { Self → AllCounts };

    ghost sends: { Self → Sent → Bool → Self → Type 0 } = { λ old sent failed new. Unit {0} };

    ghost receives: { Self → ℕ → List (Option (List ℕ)) → Self → Type 0 } = { λ old room answer new. Unit {0} };

    ghost pauses: { Self → ℕ → Self → Type 0 } = { λ old micros new. Unit {0} };

    /// Sends a datagram's bytes to one member. It may be lost on its way.
    ///
    /// Fails if the wire can't send it, which is counted and not told.
    fn send(&mut self, to: Member, datagram: &[u8]) -> Result<(), WireFault>
        ensures failures { CountsIf (is_err result) (failure_count self.old) (failure_count self.new) }
        ensures tells { TellsMore [] (sent_by to datagram.now result) (told self.old) (told self.new) }
        ensures sends { sends self.old (bytes_to to datagram.now) (is_err result) self.new };

    /// Receives the next datagram into the front of the buffer, and returns how many bytes it has there; `None` if none is there. A datagram longer than the buffer
    /// is cut. It doesn't wait.
    ///
    /// Fails if the wire can't receive, which is counted and not told.
    fn receive(&mut self, buffer: &mut [u8]) -> Result<Option<usize>, WireFault>
        ensures within { IfOk result (λ some. IfSome some (λ count. count ≤ length buffer.new)) }
        ensures failures { CountsIf (is_err result) (failure_count self.old) (failure_count self.new) }
        ensures tells { TellsMore (answered buffer.new result) [] (told self.old) (told self.new) }
        ensures receives { receives self.old (length buffer.new) (answered buffer.new result) self.new };

    /// Waits until a datagram may be there, or `micros` microseconds have passed; it may return sooner. Nothing that the wire tells changes.
    fn pause(&mut self, micros: u64)
        ensures failures { failure_count self.old ≤ failure_count self.new }
        ensures tells { told self.new ≡ told self.old }
        ensures pauses { pauses self.old micros self.new };

    /// Returns the count of failures.
    fn failures(&self) -> u64
        ensures { result ≡ failure_count self.now };

    /// Returns what the wire has counted so far: its failures, what was lost by kind, and what was dropped by cause. Takes no memory. A wire that counts nothing but its failures returns
    /// [`WireCounts::of_failures`].
    fn counts(&self) -> WireCounts
        ensures value { result ≡ counted self.now }
        ensures failures { result.failures ≡ failure_count self.now };
}
