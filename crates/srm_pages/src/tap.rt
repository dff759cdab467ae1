//! The worker's end of a lane, which takes messages out.

ghost use Rattle.std.specs.Prelude.{◌≡◌, true, IsErr};
ghost use Rattle.srm_names.specs.PageFeeds.{is_page_feed};
ghost use Rattle.srm_pages.specs.Ends.{TookOrEnded};
ghost use Rattle.srm_pages.specs.Seats.{CountsTaken};

use crate::closing::is_close;
use crate::lane::{LanePass, Receiver, Taking};
use crate::marker::Marker;
use srm_names::PageMsg;
use std::marker::Model;
use std::sync::Wait;
use thiserror::Error;

/// Why a take returned no message.
#[derive(Clone, Copy, Debug, PartialEq, Eq, Error)]
pub enum Ended {
    /// `Close` was taken, or the feed is gone and the lane is empty, or 2^64 - 1 messages were taken.
    #[error("the lane is closed")]
    Closed = 1,
    /// Never returned.
    #[error("the lane is broken")]
    Broken = 2,
}

/// The worker's end of a lane, which takes messages out.
///
/// Contracts see what was taken, whether a take ended or took the close, what it stored at the board, its slot, its lane and the board.
#[derive(Drop)]
pub struct Tap {
    pub(crate) receiver: Receiver,
    pub(crate) pass: LanePass,
    pub(crate) marker: Marker,
    pub(crate) count: u64,
    pub(crate) closed: bool,
}

impl Model for Tap {
    ghost use Rattle.crossbeam_channel.specs.Ends.{receives_on, ruled_capacity};
    ghost use Rattle.srm_pages.specs.Ends.{TapView, lane_of};
    ghost use Rattle.srm_pages.specs.Seats.{CountsTaken};

    ghost Value = { TapView };

    ghost use Rattle.std.specs.Prelude.{◌≡◌, true, length};
    ghost use Rattle.crossbeam_channel.specs.Claims.{view as knows, IsSeatAt};
    ghost use Rattle.srm_names.specs.PageFeeds.{is_page_feed};

    ghost view = { λ t. record {
      taken = (knows t.pass).taken;
      closed = t.closed;
      seat = t.marker.seat;
      slot = t.marker.slot;
      lane = lane_of t.pass (ruled_capacity (receives_on t.receiver));
      board = t.marker.board;
    } };

    ghost invariant = { λ t. IsSeatAt (receives_on t.receiver) t.pass × ((knows t.pass).takes ≡ true) × (t.count ≡ length (knows t.pass).taken)
        × (is_page_feed (knows t.pass).taken ≡ true) × CountsTaken t.marker.seat t.marker.slot (knows t.pass).taken };
}

impl Tap {
    /// Returns its page slot, 0 to 7.
    pub fn slot(&self) -> u8
        ensures { result ≡ self.now.slot }
    {
        self.marker.slot()
    }

    /// Waits for the next message and takes it, and then stores at the board how many were taken, and for a drawop its number. What was taken is always a page feed.
    /// Takes no memory.
    ///
    /// Returns [`Ended::Closed`] after `Close` was taken, or if the feed is gone and the lane is empty. From then on each take does, and
    /// nothing else changes.
    #[tactic(auto, using(crate::proofs::Taps::counts_order, crate::proofs::Taps::next_shown))]
    pub fn take<R: Wait>(&mut self, rt: &R) -> Result<PageMsg, Ended>
        ensures taken { TookOrEnded result self.old self.new }
        ensures closed { self.old.closed ≡ true → IsErr result }
        ensures feed { is_page_feed self.new.taken ≡ true }
        ensures counted { CountsTaken self.new.seat self.new.slot self.new.taken }
    {
        if self.closed {
            return Err(Ended::Closed);
        }
        // No feed puts more than a u64 counts.
        let Some(count) = self.count.checked_add(1) else {
            self.closed = true;
            return Err(Ended::Closed);
        };
        match self.receiver.recv_as::<Taking, R>(rt, &mut self.pass) {
            Ok(msg) => {
                self.marker.count(&self.pass, count);
                self.marker.post(&msg);
                self.count = count;
                self.closed = is_close(&msg);
                Ok(msg)
            }
            Err(_) => {
                self.closed = true;
                Err(Ended::Closed)
            }
        }
    }
}
