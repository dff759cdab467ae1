//! Room for the answers of calls to come.

ghost use Rattle.std.specs.Prelude.{◌≡◌, ◌≤◌, [], true, position, OnOk};
ghost use Rattle.std.specs.Vec.{vec_capacity};
ghost use Rattle.srm_store.specs.Rooms.{is_room_for, has_room, StillHasRooms, StillHasOthers};

use crate::room::Room;
use srm_names::Name;
use std::alloc::{AllocError, Global};
use std::marker::Model;

/// Lists that were made so that evidence needs no memory, in the order in which they were made. They are looked through
/// from the first, which is the one for evidence that comes in that order.
#[derive(Drop)]
pub struct Rooms {
    alloc: Global,
    rooms: Vec<Room>,
}

impl Model for Rooms {
    ghost use Rattle.std.specs.Prelude.{List};
    ghost use Rattle.srm_store.specs.Rooms.{RoomContent};

    ghost Value = { List RoomContent };

    ghost view = { λ r. r.rooms.items };
}

impl Rooms {
    /// Makes no room. Takes no memory.
    pub fn new(alloc: Global) -> Self
        ensures { result ≡ [] }
    {
        Rooms {
            alloc,
            rooms: Vec::new(alloc),
        }
    }

    /// Makes room for what evidence of a name answers: so many names.
    pub fn make(&mut self, name: Name, count: usize) -> Result<(), AllocError>
        ensures ok { OnOk result (has_room self.new name count ≡ true) }
        ensures still { StillHasRooms self.old self.new }
    {
        let room = Room::new(self.alloc, name, count)?;
        self.rooms.push(room)?;
        Ok(())
    }

    fn position(&self, name: Name, count: usize) -> Option<usize>
        ensures { result ≡ position (is_room_for name count) self.now }
    {
        self.rooms.iter().position(|room| room.fits(name, count))
    }

    /// Takes a list for what evidence of a name answers: an empty one, with room for so many if it was made.
    pub fn take(&mut self, name: Name, count: usize) -> Vec<Name>
        ensures items { result.items ≡ [] }
        ensures made { has_room self.old name count ≡ true → count ≤ vec_capacity result }
        ensures others { StillHasOthers name self.old self.new }
    {
        match self.position(name, count) {
            Some(place) => self.rooms.remove(place).into_list(),
            None => Vec::new(self.alloc),
        }
    }
}
