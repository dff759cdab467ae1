//! What a handle of C holds: one member's agent, and what its last tick left to be taken.
//!
//! [`Handle`] is memory that C keeps: sixteen bytes, zeroes at first. It owns the box of a [`Seat`], or nothing. An export takes the seat
//! out, calls it and puts it back, so no clause speaks of memory:
//!
//! ```
//! let Some(mut seat) = handle.take(alloc) else { return };
//! let answer = seat.tick(now);
//! handle.put(seat);
//! ```
//!
//! A seat has the calls of its agent. They take bytes in place of [`Bytes`](bytes::Bytes), and return one datagram or name at a time in
//! place of lists, since no list can be passed to C. `srm_ffi` exports them, and `capi/srm.h` says what C sees.
//!
//! **Errors.** A seat refuses what its agent refuses, with the same faults. A room that is too short for a datagram gets nothing, and the
//! datagram stays the next.
//!
//! [`Seat::tick`] returns [`TickCounts`], [`Seat::next_datagram`] a [`Handover`]. [`lay_over`] copies bytes into a room.
#![tactic(auto)]

mod handle;
mod rooms;
mod seat;

pub use handle::Handle;
pub use rooms::lay_over;
pub use seat::{Handover, Seat, TickCounts};
