//! Lists for contracts alone.

ghost use Rattle.std.specs.Prelude.{◌≡◌, ◌++◌, [], ◌∷◌};

use std::marker::Model;
use std::snapshot::Snapshot;

/// A list that contracts see, and that nothing stores: of each item it has what contracts see of it. It takes no memory, and nothing can be read from it.
#[cycle(noted)]
#[derive(Drop)]
pub(crate) struct Noted<T> {
    last: Last<T>,
}

// The last item and the list before it.
#[cycle(noted)]
#[derive(Drop)]
enum Last<T> {
    Nothing,
    Appended(Snapshot<Noted<T>>, Snapshot<T>),
}

impl<T> Model for Noted<T> {
    ghost use Rattle.std.specs.Prelude.{List, length};

    ghost Value = { List T };

    ghost use Rattle.srm_slate.specs.Noting.{up_to_last};

    ghost view = { λ noted. up_to_last noted.last };

    ghost size = { length };

    ghost use Rattle.std.proofs.Common.{arith, length-append};

    ghost size_decreases = { λ a h. Prim.grind (arith, length-append) };
}

impl<T: Drop> Noted<T> {
    /// Makes an empty list.
    pub(crate) fn new() -> Noted<T>
        ensures { result ≡ [] }
    {
        Noted {
            last: Last::Nothing,
        }
    }

    /// Notes an item behind those before.
    pub(crate) fn note(&mut self, one: &T)
        ensures { self.new ≡ self.old ++ one.now ∷ [] }
    {
        let before = Snapshot::of(self);
        let last = Snapshot::of(one);
        *self = Noted {
            last: Last::Appended(before, last),
        };
    }
}
