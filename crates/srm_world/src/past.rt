//! Where a history is stored.

ghost use Rattle.std.specs.Prelude.{◌≡◌, ◌<◌, ◌++◌, List, [], ◌∷◌, Option, None, IfOk, OnErr, vec_len, vec_capacity};
ghost use Rattle.srm_world.specs.RecordStarts.{RecordStart};

use crate::appending;
use srm_agent::Agent;
use srm_timers::Words;
use srm_wire::WireCounts;
use std::alloc::{AllocError, Global};

/// Stores a history, oldest first: a recorder's entries, or the messages that a page worker took. A `Vec` stores each item, and
/// [`Forgotten`](crate::Forgotten) none. Contracts see all items in any case. A program may implement another store, or one that shows each item to somebody.
///
/// If a history is written to a record, contracts see how that record begins. No call changes it.
pub trait Past<T> {
    // What was appended, in order.
    ghost appended: { Self → List T };

    // There is room for one item.
    ghost has_room: { Self → Type 0 };

    // What holds if `make_room` fails.
    ghost is_refused: { Self → Type 0 };

    // How the record begins that it is written to, if it is written to one.
    ghost begins: { Self → Option RecordStart } = { λ _. None };

    /// Makes an empty history. Takes no memory.
    fn empty(alloc: Global) -> Self
        ensures { appended result ≡ [] };

    /// Makes room for one item. The history stays.
    ///
    /// Fails only if out of memory, and only as the implementation allows by `is_refused`: a `Vec` fails only if it is full, and
    /// [`Forgotten`](crate::Forgotten) never.
    fn make_room(&mut self) -> Result<(), AllocError>
        ensures same { appended self.new ≡ appended self.old }
        ensures begins { begins self.new ≡ begins self.old }
        ensures room { IfOk result (λ _. has_room self.new) }
        ensures refused { OnErr result (is_refused self.new) };

    /// Appends an item. The caller has made room.
    fn append(&mut self, one: T)
        requires { has_room self.old }
        ensures grown { appended self.new ≡ appended self.old ++ one ∷ [] }
        ensures begins { begins self.new ≡ begins self.old };

    /// Sees the member at the end of a turn, and what its wire has counted so far. It may ask the agent how it stands. The history stays. Does nothing unless an implementation does.
    fn turned<W: Words + Drop>(&mut self, _agent: &Agent<W>, _counts: &WireCounts)
        ensures same { appended self.new ≡ appended self.old }
        ensures begins { begins self.new ≡ begins self.old }
    {}
}

impl<T: Drop> Past<T> for Vec<T> {
    ghost appended = { λ all. all.items };

    ghost has_room = { λ all. vec_len all < vec_capacity all };

    ghost is_refused = { λ all. vec_len all ≡ vec_capacity all };

    fn empty(alloc: Global) -> Vec<T> {
        Vec::new(alloc)
    }

    fn make_room(&mut self) -> Result<(), AllocError> {
        self.reserve(1)
    }

    fn append(&mut self, one: T) {
        appending::append(self, one);
    }
}
