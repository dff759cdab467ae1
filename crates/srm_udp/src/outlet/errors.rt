//! Errors that the system's calls returned, for contracts alone.

ghost use Rattle.std.specs.Prelude.{◌≡◌, ◌++◌, [], ◌∷◌};
ghost use Rattle.srm_udp.specs.Losses.{error_of, send_error, with_error};

use crate::loss::{error_of, send_error};
use srm_wire::Loss;
use std::io;
use std::marker::Model;
use std::snapshot::Snapshot;

/// Errors, each the kind of a loss, or `None` for a failure, which contracts see and nothing stores: it takes no memory, and nothing can be read from it. Only the calls of
/// an [`Outlet`](super::Outlet) append to it, so a wire can't tell of an error that no call of the system returned.
#[cycle(errors)]
#[derive(Drop)]
pub(crate) struct Errors {
    last: LastError,
}

// The list before the last error, and this one.
#[cycle(errors)]
#[derive(Drop)]
enum LastError {
    Nothing,
    Returned(Snapshot<Errors>, Snapshot<Option<Loss>>),
}

impl Model for Errors {
    ghost use Rattle.std.specs.Prelude.{List, Option, length};
    ghost use Rattle.srm_wire.specs.declared.loss.Loss.{Loss as LossKind};

    ghost Value = { List (Option LossKind) };

    ghost use Rattle.srm_udp.specs.Noting.{up_to_last_error};

    ghost view = { λ errors. up_to_last_error errors.last };

    ghost size = { length };

    ghost use Rattle.std.proofs.Common.{arith, length-append};

    ghost size_decreases = { λ a h. Prim.grind (arith, length-append) };
}

impl Errors {
    /// Makes an empty list.
    pub(crate) fn new() -> Errors
        ensures { result ≡ [] }
    {
        Errors {
            last: LastError::Nothing,
        }
    }

    /// Appends what a call of the system returned to a receive, unless it says that nothing is there.
    pub(super) fn note_receive(&mut self, error: &io::Error)
        ensures { self.new ≡ with_error (error_of error.now) self.old }
    {
        let Some(told) = error_of(error) else {
            return;
        };
        self.append(told);
    }

    /// Appends what a call of the system answered to a send of so many bytes, unless all went.
    pub(super) fn note_send(&mut self, length: usize, answer: &io::Result<usize>)
        ensures { self.new ≡ with_error (send_error length answer.now) self.old }
    {
        let Some(told) = send_error(length, answer) else {
            return;
        };
        self.append(told);
    }

    // Nothing of that is left when it runs.
    fn append(&mut self, told: Option<Loss>)
        ensures { self.new ≡ self.old ++ told ∷ [] }
    {
        let before = Snapshot::of(self);
        *self = Errors {
            last: LastError::Returned(before, Snapshot::of(&told)),
        };
    }
}
