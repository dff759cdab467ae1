//! A history that isn't stored.

ghost use Rattle.std.specs.Prelude.{◌≡◌, []};

use crate::past::Past;
use std::alloc::{AllocError, Global};
use std::marker::Model;
use std::snapshot::Snapshot;

/// A history that isn't stored: each item is dropped once appended. It never grows, and nothing can be read from it. Contracts see all
/// items all the same.
#[cycle(forgotten)]
#[derive(Drop)]
pub struct Forgotten<T> {
    last: Last<T>,
}

// The last item and the history before it, for contracts alone.
#[cycle(forgotten)]
#[derive(Drop)]
enum Last<T> {
    Nothing,
    Appended(Snapshot<Forgotten<T>>, Snapshot<T>),
}

impl<T> Model for Forgotten<T> {
    ghost use Rattle.std.specs.Prelude.{List, length};

    ghost Value = { List T };

    ghost use Rattle.srm_world.specs.Pasts.{up_to_last};

    ghost view = { λ past. up_to_last past.last };

    ghost size = { length };

    ghost use Rattle.std.proofs.Common.{arith, length-append};

    ghost size_decreases = { λ a h. Prim.grind (arith, length-append) };
}

impl<T> Forgotten<T> {
    /// Makes an empty history. Takes no memory.
    pub fn new() -> Forgotten<T>
        ensures { result ≡ [] }
    {
        Forgotten {
            last: Last::Nothing,
        }
    }
}

impl<T: Drop> Past<T> for Forgotten<T> {
    ghost appended = { λ past. past };

    ghost has_room = { λ _. Unit {0} };

    ghost is_refused = { λ _. ⊥ };

    fn empty(_alloc: Global) -> Forgotten<T> {
        Forgotten::new()
    }

    fn make_room(&mut self) -> Result<(), AllocError> {
        Ok(())
    }

    fn append(&mut self, one: T) {
        let before = Snapshot::of(self);
        let last = Snapshot::of(&one);
        *self = Forgotten {
            last: Last::Appended(before, last),
        };
    }
}
