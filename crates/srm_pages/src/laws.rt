//! The laws of the lane, the board and the stroke queue: what their rules mean at every moment.
ghost use Rattle.std.specs.Prelude.{◌≡◌, ℕ, ◌/◌, ◌≤◌, List, ◌++◌, true, slice_index};
ghost use mathlib.Core.Option.{some};
ghost use lib.ListN.{get_elem?};
ghost use Rattle.srm_names.specs.declared.page_msg.PageMsg.{PageMsg};
ghost use Rattle.srm_names.specs.PageFeeds.{is_page_feed};
ghost use Rattle.srm_pages.specs.declared.lane.LaneView.{LaneView};
ghost use Rattle.srm_pages.specs.declared.ink.InkView.{InkView};
ghost use Rattle.srm_pages.specs.declared.stroke.Stroke.{Stroke};
ghost use Rattle.atomic_table.specs.Table.{State};
ghost use Rattle.srm_pages.specs.declared.board.TheConstants.{REGISTERS_A_SLOT};
ghost use Rattle.srm_pages.specs.Board.{IsBoardState, CountsPosted};
ghost use Rattle.srm_pages.specs.Lane.{IsLaneState};
ghost use Rattle.srm_pages.specs.Ink.{IsWellState, strokes_of};

use crate::board::{BoardRule, BoardView};
use atomic_table::TableRule;

/// States the law of a lane, and does nothing: what its feed has put is what its tap has taken and then what the lane holds, and it is a page feed.
pub fn lane_keeps_its_rule()
    ensures { (items : List PageMsg) (views : List LaneView) → IsLaneState items views
        → (i j : ℕ) (f t : LaneView) → get_elem? views i ≡ some f → f.puts ≡ true → get_elem? views j ≡ some t → t.takes ≡ true
        → (f.put ≡ t.taken ++ items) × (is_page_feed f.put ≡ true) }
{}

/// States the law of the board, and does nothing: a slot's registers are what its tap's seat has, and nobody has seen more of them. A slot posts no more drawops, of
/// all members together, than it counts messages behind the first, which opened the page: the tap raises the count first.
pub fn board_keeps_its_rule()
    ensures seen { (registers : List ℕ) (views : List BoardView) → IsBoardState registers views
        → (i j : ℕ) (t v : BoardView) → get_elem? views i ≡ some t → t.taps ≡ true → get_elem? views j ≡ some v
        → (w : ℕ) → w / REGISTERS_A_SLOT ≡ t.slot → (slice_index t.seen w ≡ slice_index registers w) × (slice_index v.seen w ≤ slice_index t.seen w) }
    ensures order { (board : State ℕ BoardView) → ⟦<BoardRule as TableRule<u8, BoardView, ()>>⟧.holds tt board → (slot : ℕ) → CountsPosted board.words slot }
{}

/// States the law of the stroke queue, and does nothing: what a producer sent is its part of what was received, and then of what the queue holds.
pub fn well_keeps_its_rule()
    ensures { (items : List Stroke) (views : List InkView) → IsWellState items views
        → (i j : ℕ) (p r : InkView) → get_elem? views i ≡ some p → p.writes ≡ true → get_elem? views j ≡ some r → r.reads ≡ true
        → p.sent ≡ strokes_of p.pen (r.received ++ items) }
{}
