//! Room for answers.

ghost use Rattle.std.specs.Prelude.{◌≡◌, ◌≤◌, [], IfOk};
ghost use Rattle.std.specs.Vec.{vec_capacity};
ghost use Rattle.srm_store.specs.Rooms.{is_room_for};

use srm_names::Name;
use std::alloc::{AllocError, Global};
use std::marker::Model;

/// An empty list with room for what evidence of a name will answer.
#[derive(Drop)]
pub struct Room {
    name: Name,
    list: Vec<Name>,
}

impl Model for Room {
    ghost use Rattle.srm_store.specs.Rooms.{RoomContent};

    ghost Value = { RoomContent };

    ghost use Rattle.srm_store.specs.Inside.{room_of, RoomIsRight};

    ghost view = { room_of };

    ghost invariant = { RoomIsRight };
}

impl Room {
    /// Makes room for `count` names. Fails only if out of memory.
    pub fn new(alloc: Global, name: Name, count: usize) -> Result<Room, AllocError>
        ensures { IfOk result (λ room. (room.name ≡ name) × (count ≤ room.capacity)) }
    {
        Ok(Room {
            name,
            list: Vec::with_capacity(alloc, count)?,
        })
    }

    /// Returns whether it is for this name, and has room for so many.
    pub fn fits(&self, name: Name, count: usize) -> bool
        ensures { result ≡ is_room_for name count self.now }
    {
        self.name == name && count <= self.list.capacity()
    }

    /// Returns the empty list.
    pub fn into_list(self) -> Vec<Name>
        ensures items { result.items ≡ [] }
        ensures capacity { vec_capacity result ≡ self.capacity }
    {
        self.list
    }
}
