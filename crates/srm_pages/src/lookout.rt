//! A seat at the board that only looks.

ghost use Rattle.std.specs.Prelude.{◌≡◌, ◌≢◌, ◌%◌, ◌^◌, ◌<◌, ◌≤◌, slice_index, slice_set};
ghost use Rattle.srm_pages.specs.declared.board.TheConstants.{BOARD_REGISTERS, REGISTERS_A_SLOT};

use crate::board::{Board, BoardSeat, Looks};
use std::alloc::Global;
use std::marker::Model;
use std::sync::Arc;

/// A seat at the board that only looks. Contracts see what it last saw in each register.
#[derive(Drop)]
pub struct Lookout {
    pub(crate) board: Arc<Board, Global>,
    pub(crate) seat: BoardSeat,
}

impl Model for Lookout {
    ghost use Rattle.srm_pages.specs.Seats.{LookoutView};

    ghost Value = { LookoutView };

    ghost use Rattle.std.specs.Prelude.{◌≡◌};
    ghost use Rattle.std.specs.Arc.{arc_value};
    ghost use Rattle.srm_pages.specs.declared.board.TheConstants.{BOARD_REGISTERS};

    ghost view = { λ l. record { seen = l.seat.me.0.seen; board = l.seat.table_id } };

    ghost invariant = { λ l. (l.seat.table_id ≡ (arc_value l.board).shared.table_id) × (l.seat.table_id.words ≡ BOARD_REGISTERS) };
}

impl Lookout {
    /// Returns the number in a register, never below one seen there before. Costs one load.
    pub fn look(&mut self, register: usize) -> u64
        requires { register < BOARD_REGISTERS }
        ensures seen { self.new ≡ record self.old { seen = slice_set self.old.seen register result } }
        ensures there { slice_index self.new.seen register ≡ result }
        ensures rises { slice_index self.old.seen register ≤ result }
        ensures narrow { register % REGISTERS_A_SLOT ≢ 0 → result < 2 ^ 32 }
    {
        self.board.shared.load::<Looks>(&mut self.seat, register)
    }
}
