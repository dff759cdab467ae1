//! The board: registers that each tap raises and that feeds and viewers read, with no lock.
//!
//! The registers of a slot stand side by side: how many messages its tap took, and then for each member the number of the last drawop
//! taken.

ghost use Rattle.std.specs.Prelude.{◌≡◌};
ghost use Rattle.srm_pages.specs.Board.{count_register, number_register};

use atomic_table::{Play, Seat, Split, Table, TableRule};
use srm_names::{MEMBERS, Member, PAGES};
use std::alloc::Global;
use std::collections::LinkedList;

/// Registers of one slot: one for the count, and one for each member.
pub const REGISTERS_A_SLOT: usize = 1 + MEMBERS as usize;

/// Registers of the board.
pub const BOARD_REGISTERS: usize = PAGES as usize * REGISTERS_A_SLOT;

/// Returns the register of a slot that counts the messages taken.
pub(crate) fn count_register(slot: u8) -> usize
    ensures { result ≡ count_register slot }
{
    usize::from(slot) * REGISTERS_A_SLOT
}

/// Returns the register of a slot that has the number of a member's last drawop.
pub(crate) fn number_register(slot: u8, member: Member) -> usize
    ensures { result ≡ number_register slot member }
{
    usize::from(slot) * REGISTERS_A_SLOT + (member.index() + 1)
}

/// What a seat knows: whether it is a tap's and that tap's slot, whether it deals the slots from `next` on, and the number that it last saw
/// in each register. It is for contracts: no value of it is made.
pub struct BoardView {
    /// Whether it is a tap's seat.
    pub taps: bool,
    /// The page slot of that tap.
    pub slot: u64,
    /// Whether it deals seats.
    pub deals: bool,
    /// The first page slot whose seat isn't dealt yet.
    pub next: u64,
    /// The number that it last saw in each register.
    pub seen: LinkedList<u64>,
}

/// The rule of the board.
pub struct BoardRule;

impl TableRule<u8, BoardView, ()> for BoardRule {
    ghost use Rattle.srm_pages.specs.Board.{dealer, BoardState};

    ghost holds = { λ _. BoardState };

    ghost first = { λ _. dealer };
}

/// Splits off the seat of the next slot's tap.
pub struct NextTap;

impl Split<BoardView> for NextTap {
    ghost use Rattle.std.specs.Prelude.{◌+◌, true, false};
    ghost use Rattle.srm_pages.specs.Board.{board_view, zeros};

    ghost left = { λ v. board_view v.taps v.slot v.deals (v.next + 1) v.seen };

    ghost right = { λ v. board_view true v.next false 0 zeros };
}

/// Splits off a seat that only looks.
pub struct NextLookout;

impl Split<BoardView> for NextLookout {
    ghost use Rattle.srm_pages.specs.Board.{looking};

    ghost left = { λ v. v };

    ghost right = { λ v. looking };
}

/// What a store does to its seat: the register has the number stored.
pub struct Raises;

impl Play<u8, BoardView> for Raises {
    ghost use Rattle.srm_pages.specs.Board.{Raised};

    ghost then = { Raised };
}

/// What a load does to its seat: it has the number found, which is no less than the one seen before.
pub struct Looks;

impl Play<u8, BoardView> for Looks {
    ghost use Rattle.srm_pages.specs.Board.{Looked};

    ghost then = { Looked };
}

pub(crate) type Board = Table<u8, BoardView, (), BoardRule, Global>;

pub(crate) type BoardSeat = Seat<u8, BoardView>;
