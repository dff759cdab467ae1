//! The box of a seat as a handle that C keeps.

ghost use Rattle.std.specs.Prelude.{◌≡◌};
ghost use Rattle.std.specs.Option.{MatchOption};
ghost use Rattle.std.specs.declared.option.Option.{Option as AnOption};
ghost use Rattle.std.specs.declared.option.Option.TheVariants.{None, Some};
ghost use Rattle.srm_seat.specs.contracts.seat.Seat.{the_row as seat_row};
ghost use Rattle.srm_seat.specs.Seats.{SeatContent};
ghost use Rattle.srm_handle.specs.Held.{held};

use crate::seat::Seat;
use srm_handle::Loose;
use std::alloc::Global;
use std::marker::Model;
use std::ptr::null_mut;

/// Memory of C's that owns the box of a seat, or nothing. All zeroes is an empty handle. Contracts see what it holds.
///
/// C declares it as a pointer and a `bool`, since the allocator takes no bytes. C may move a handle and pass it to another thread, but must
/// not copy it, and makes one call of it at a time.
#[repr(C)]
pub struct Handle {
    at: *mut u8,
    is_full: bool,
    alloc: Global,
    pub ghost value: { AnOption SeatContent },
}

impl Model for Handle {
    ghost also_owns = { λ h. held seat_row h.alloc h.is_full h.at h.value };
}

impl Handle {
    /// Takes the seat out and returns it; `None` if there is none. The handle is empty then. Takes no memory.
    pub fn take(&mut self, alloc: Global) -> Option<Box<Seat>>
        ensures taken { MatchOption result (self.old.value ≡ None) (λ seat. self.old.value ≡ Some seat.value) }
        ensures left { self.new.value ≡ None }
    {
        match std::mem::replace(self, Handle::empty(alloc)).show() {
            Some(loose) => Some(loose.into_box()),
            None => None,
        }
    }

    /// Puts a seat into the handle, and drops the seat that it held. Takes no memory.
    pub fn put(&mut self, seat: Box<Seat>)
        ensures { self.new.value ≡ Some seat.value }
    {
        *self = Handle::hide(Loose::of(seat));
    }

    pub(crate) fn empty(alloc: Global) -> Handle
        ensures { result.value ≡ None }
    {
        Handle {
            at: null_mut(),
            is_full: false,
            alloc,
        }
    }

    pub(crate) fn hide(loose: Loose<Seat, Global>) -> Handle
        ensures { result.value ≡ Some loose.value }
    {
        let Loose { at, alloc } = loose;
        Handle {
            at: at as *mut u8,
            is_full: true,
            alloc,
        }
    }

    pub(crate) fn show(self) -> Option<Loose<Seat, Global>>
        ensures { MatchOption result (self.value ≡ None) (λ l. self.value ≡ Some l.value) }
    {
        let Handle { at, is_full, alloc } = self;
        if is_full {
            Some(Loose {
                at: at as *mut Seat,
                alloc,
            })
        } else {
            None
        }
    }
}

impl Drop for Handle {
    fn drop(self) {
        if let Some(loose) = self.show() {
            drop(loose.into_box());
        }
    }
}
