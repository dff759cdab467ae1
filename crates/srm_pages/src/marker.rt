//! The seat of a slot's tap, which alone raises the registers of that slot.

ghost use Rattle.std.specs.Prelude.{◌≡◌, ◌≢◌, ◌/◌, ◌%◌, ◌^◌, ◌<◌, ◌≤◌, length, slice_index, slice_set};
ghost use Rattle.crossbeam_channel.specs.Claims.{view as knows};
ghost use Rattle.srm_pages.specs.declared.board.TheConstants.{BOARD_REGISTERS, REGISTERS_A_SLOT};
ghost use Rattle.srm_pages.specs.Board.{count_register, CountsPosted};
ghost use Rattle.srm_pages.specs.Seats.{MayPost, Posts};

use crate::board::{Board, BoardSeat, Raises, count_register, number_register};
use crate::lane::LanePass;
use srm_names::PageMsg;
use std::alloc::Global;
use std::marker::Model;
use std::sync::Arc;

/// The seat of a slot's tap at the board. Contracts see what it stored in each register.
#[derive(Drop)]
pub struct Marker {
    pub(crate) board: Arc<Board, Global>,
    pub(crate) seat: BoardSeat,
    pub(crate) slot: u8,
}

impl Model for Marker {
    ghost use Rattle.srm_pages.specs.Seats.{MarkerView};

    ghost Value = { MarkerView };

    ghost use Rattle.std.specs.Prelude.{◌≡◌, ◌<◌, true};
    ghost use Rattle.std.specs.Arc.{arc_value};
    ghost use Rattle.srm_names.specs.declared.limits.TheConstants.{PAGES};
    ghost use Rattle.srm_pages.specs.declared.board.TheConstants.{BOARD_REGISTERS};

    ghost view = { λ m. record { seat = m.seat.me.0.seen; slot = m.slot; board = m.seat.table_id } };

    ghost invariant = { λ m. (m.seat.table_id ≡ (arc_value m.board).shared.table_id) × (m.seat.table_id.words ≡ BOARD_REGISTERS)
        × (m.seat.me.0.taps ≡ true) × (m.seat.me.0.slot ≡ m.slot) × (m.slot < PAGES) };
}

impl Marker {
    /// Returns its page slot, 0 to 7.
    pub fn slot(&self) -> u8
        ensures { result ≡ self.now.slot }
    {
        self.slot
    }

    /// Stores how many messages were taken. The tap's pass, which takes no bytes, shows that they were, so the count is never ahead. Costs
    /// one store.
    pub fn count(&mut self, pass: &LanePass, count: u64)
        requires taken { count ≤ length (knows pass.now).taken }
        requires rises { slice_index self.old.seat (count_register self.old.slot) ≤ count }
        requires order { CountsPosted self.old.seat self.old.slot }
        ensures seat { self.new ≡ record self.old { seat = slice_set self.old.seat (count_register self.old.slot) count } }
        ensures there { slice_index self.new.seat (count_register self.old.slot) ≡ count }
    {
        self.raise(count_register(self.slot), count);
    }

    /// Stores the number of a drawop in its member's register, once the drawop is counted. Of another message it stores nothing.
    pub fn post(&mut self, msg: &PageMsg)
        requires { MayPost self.old msg.now }
        ensures { Posts self.old msg.now self.new }
    {
        if let PageMsg::Draw(drawop) = msg {
            let member = drawop.name.source();
            self.raise(
                number_register(self.slot, member),
                u64::from(drawop.name.number()),
            );
        }
    }

    // Stores a number that isn't below the one there.
    fn raise(&mut self, register: usize, number: u64)
        requires mine { (register < BOARD_REGISTERS) × (register / REGISTERS_A_SLOT ≡ self.old.slot) }
        requires rises { slice_index self.old.seat register ≤ number }
        requires narrow { register % REGISTERS_A_SLOT ≢ 0 → number < 2 ^ 32 }
        requires order { CountsPosted (slice_set self.old.seat register number) self.old.slot }
        ensures seat { self.new ≡ record self.old { seat = slice_set self.old.seat register number } }
        ensures there { slice_index self.new.seat register ≡ number }
    {
        self.board
            .shared
            .store::<Raises>(&mut self.seat, register, number);
    }
}
