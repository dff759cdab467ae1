//! The box of a room as a handle that C keeps.

ghost use Rattle.std.specs.Prelude.{◌≡◌};
ghost use Rattle.std.specs.Option.{MatchOption};
ghost use Rattle.std.specs.declared.option.Option.{Option as AnOption};
ghost use Rattle.std.specs.declared.option.Option.TheVariants.{None, Some};
ghost use Rattle.srm_room.specs.contracts.room.Room.{the_row as room_row};
ghost use Rattle.srm_room.specs.Rooms.{Content};
ghost use Rattle.srm_handle.specs.Held.{held};

use srm_handle::Loose;
use srm_room::Room;
use std::alloc::Global;
use std::marker::Model;
use std::ptr::null_mut;

/// Memory of C's that owns the box of a room, or nothing. All zeroes is an empty handle. Contracts see what it holds.
///
/// C declares it as a pointer and a `bool`, since the allocator takes no bytes. C may move a handle and pass it to another thread, but must
/// not copy it, and makes one call of it at a time.
#[repr(C)]
pub struct RoomHandle {
    at: *mut u8,
    is_full: bool,
    alloc: Global,
    pub ghost value: { AnOption Content },
}

impl Model for RoomHandle {
    ghost also_owns = { λ h. held room_row h.alloc h.is_full h.at h.value };
}

impl RoomHandle {
    /// Takes the room out and returns it; `None` if there is none. The handle is empty then. Takes no memory.
    pub fn take(&mut self, alloc: Global) -> Option<Box<Room>>
        ensures taken { MatchOption result (self.old.value ≡ None) (λ room. self.old.value ≡ Some room.value) }
        ensures left { self.new.value ≡ None }
    {
        match std::mem::replace(self, RoomHandle::empty(alloc)).show() {
            Some(loose) => Some(loose.into_box()),
            None => None,
        }
    }

    /// Puts a room into the handle, and drops the room that it held. Takes no memory.
    pub fn put(&mut self, room: Box<Room>)
        ensures { self.new.value ≡ Some room.value }
    {
        *self = RoomHandle::hide(Loose::of(room));
    }

    pub(crate) fn empty(alloc: Global) -> RoomHandle
        ensures { result.value ≡ None }
    {
        RoomHandle {
            at: null_mut(),
            is_full: false,
            alloc,
        }
    }

    pub(crate) fn hide(loose: Loose<Room, Global>) -> RoomHandle
        ensures { result.value ≡ Some loose.value }
    {
        let Loose { at, alloc } = loose;
        RoomHandle {
            at: at as *mut u8,
            is_full: true,
            alloc,
        }
    }

    pub(crate) fn show(self) -> Option<Loose<Room, Global>>
        ensures { MatchOption result (self.value ≡ None) (λ l. self.value ≡ Some l.value) }
    {
        let RoomHandle { at, is_full, alloc } = self;
        if is_full {
            Some(Loose {
                at: at as *mut Room,
                alloc,
            })
        } else {
            None
        }
    }
}

impl Drop for RoomHandle {
    fn drop(self) {
        if let Some(loose) = self.show() {
            drop(loose.into_box());
        }
    }
}
