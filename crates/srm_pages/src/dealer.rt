//! How the seats of a new board are dealt.

ghost use Rattle.std.specs.Prelude.{◌≡◌, ◌+◌, ◌<◌, IfOk, OnOk};
ghost use Rattle.srm_names.specs.declared.limits.TheConstants.{PAGES};
ghost use Rattle.srm_pages.specs.Seats.{new_marker, new_lookout};

use crate::board::{BOARD_REGISTERS, Board, BoardSeat, NextLookout, NextTap};
use crate::lookout::Lookout;
use crate::marker::Marker;
use std::alloc::{AllocError, Global};
use std::marker::Model;
use std::sync::Arc;

/// The first seat of a board, which deals all others. Contracts see which slot's tap is next, and at which board.
#[derive(Drop)]
pub struct Dealer {
    board: Arc<Board, Global>,
    seat: BoardSeat,
}

impl Model for Dealer {
    ghost use Rattle.srm_pages.specs.Seats.{DealerView};

    ghost Value = { DealerView };

    ghost use Rattle.std.specs.Prelude.{◌≡◌, true};
    ghost use Rattle.std.specs.Arc.{arc_value};
    ghost use Rattle.srm_pages.specs.declared.board.TheConstants.{BOARD_REGISTERS};
    ghost use Rattle.srm_pages.specs.Board.{zeros};

    ghost view = { λ d. record { next = d.seat.me.0.next; board = d.seat.table_id } };

    ghost invariant = { λ d. (d.seat.table_id ≡ (arc_value d.board).shared.table_id) × (d.seat.table_id.words ≡ BOARD_REGISTERS)
        × (d.seat.me.0.deals ≡ true) × (d.seat.me.0.seen ≡ zeros) };
}

impl Dealer {
    /// Makes a board whose registers are all 0. Fails only if out of memory.
    pub fn new(alloc: Global) -> Result<Dealer, AllocError>
        ensures { IfOk result (λ d. d.next ≡ 0) }
    {
        let (table, seat) = Board::of_words(alloc, &[0; BOARD_REGISTERS], &())?;
        Ok(Dealer {
            board: Arc::new(alloc, table)?,
            seat,
        })
    }

    /// Deals the seat of the next slot's tap. Fails only if out of memory.
    pub fn marker(&mut self, slot: u8) -> Result<Marker, AllocError>
        requires { (slot ≡ self.old.next) × (slot < PAGES) }
        ensures dealer { OnOk result (self.new ≡ record self.old { next = self.old.next + 1 }) }
        ensures marker { IfOk result (λ m. m ≡ new_marker slot self.old.board) }
    {
        let board = Arc::try_clone(&self.board)?;
        let seat = self.board.shared.split_seat::<NextTap>(&mut self.seat);
        Ok(Marker { board, seat, slot })
    }

    /// Deals a seat that only looks. Fails only if out of memory.
    pub fn lookout(&mut self) -> Result<Lookout, AllocError>
        ensures dealer { self.new ≡ self.old }
        ensures lookout { IfOk result (λ l. l ≡ new_lookout self.old.board) }
    {
        let board = Arc::try_clone(&self.board)?;
        let seat = self.board.shared.split_seat::<NextLookout>(&mut self.seat);
        Ok(Lookout { board, seat })
    }

    /// Turns this seat into the last one that only looks.
    pub fn into_lookout(self) -> Lookout
        ensures { result ≡ new_lookout self.board }
    {
        let Dealer { board, seat } = self;
        Lookout { board, seat }
    }
}
