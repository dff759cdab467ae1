//! The node's end of a lane, which puts messages in.
ghost use Rattle.std.specs.Prelude.{◌≡◌, ◌+◌, ◌<◌, ◌≤◌, [], ◌∷◌, ◌++◌, true, OnOk, IfErr};
ghost use Rattle.srm_names.specs.PageFeeds.{is_page_feed};
ghost use Rattle.srm_pages.specs.Ends.{credit_of};

use crate::board::count_register;
use crate::lane::{LanePass, Putting, Sender};
use crate::lookout::Lookout;
use srm_names::{LANE_MESSAGES, PageMsg};
use std::marker::Model;
use std::sync::Wait;

/// The node's end of a lane, which puts messages in.
///
/// Contracts see what was put, how many of these it saw taken, whether a message came back, its slot, its lane and the board.
#[derive(Drop)]
pub struct Feed {
    pub(crate) sender: Sender,
    pub(crate) pass: LanePass,
    pub(crate) lookout: Lookout,
    pub(crate) slot: u8,
    pub(crate) count: u64,
    pub(crate) disconnected: bool,
}

impl Model for Feed {
    ghost use Rattle.crossbeam_channel.specs.Ends.{sends_on, ruled_capacity};
    ghost use Rattle.srm_pages.specs.Ends.{FeedView, lane_of};
    ghost use Rattle.srm_pages.specs.Board.{count_register};

    ghost Value = { FeedView };

    ghost use Rattle.std.specs.Prelude.{◌≡◌, ◌<◌, true, length, slice_index};
    ghost use Rattle.crossbeam_channel.specs.Claims.{view as knows, IsSeatAt};
    ghost use Rattle.srm_names.specs.declared.limits.TheConstants.{PAGES};

    ghost view = { λ f. record {
      put = (knows f.pass).put;
      seen = slice_index f.lookout.seen (count_register f.slot);
      disconnected = f.disconnected;
      slot = f.slot;
      lane = lane_of f.pass (ruled_capacity (sends_on f.sender));
      board = f.lookout.board;
    } };

    ghost invariant = { λ f. IsSeatAt (sends_on f.sender) f.pass × ((knows f.pass).puts ≡ true) × (f.count ≡ length (knows f.pass).put) × (f.slot < PAGES) };
}

impl Feed {
    /// Returns its page slot, 0 to 7.
    pub fn slot(&self) -> u8
        ensures { result ≡ self.now.slot }
    {
        self.slot
    }

    /// Returns whether [`put`](Feed::put) has returned a message.
    pub fn is_disconnected(&self) -> bool
        ensures { result ≡ self.now.disconnected }
    {
        self.disconnected
    }

    /// Returns how many messages may be put, 0 to 64: what a lane holds, less what was put and not yet seen taken.
    ///
    /// What was seen never falls. Costs one load. It neither waits nor takes memory.
    pub fn credit(&mut self) -> u32
        ensures credit { result ≡ credit_of self.new }
        ensures rises { self.old.seen ≤ self.new.seen }
        ensures same { self.new ≡ record self.old { seen = self.new.seen } }
    {
        let seen = self.lookout.look(count_register(self.slot));
        u64::from(LANE_MESSAGES).saturating_sub(self.count.saturating_sub(seen)) as u32
    }

    /// Puts the next message of the page feed. The caller has seen [credit](Feed::credit) for it. Takes no memory.
    ///
    /// Returns the message if the tap is gone, or if 2^64 - 1 messages were put before. The feed is then marked as disconnected, and nothing
    /// else has changed.
    pub fn put<R: Wait>(&mut self, rt: &R, msg: PageMsg) -> Result<(), PageMsg>
        requires credit { 0 < credit_of self.old }
        requires feed { is_page_feed (self.old.put ++ msg ∷ []) ≡ true }
        ensures ok { OnOk result (self.new ≡ record self.old { put = self.old.put ++ msg ∷ [] }) }
        ensures err { IfErr result (λ back. (back ≡ msg) × (self.new ≡ record self.old { disconnected = true })) }
    {
        let Some(count) = self.count.checked_add(1) else {
            return Err(self.disconnect(msg));
        };
        match self.sender.send_as::<Putting, R>(rt, &mut self.pass, msg) {
            Ok(()) => {
                self.count = count;
                Ok(())
            }
            Err(failed) => Err(self.disconnect(failed.into_inner())),
        }
    }

    // Marks the feed as disconnected, and returns the message.
    fn disconnect(&mut self, back: PageMsg) -> PageMsg
        ensures back { result ≡ back }
        ensures marked { self.new ≡ record self.old { disconnected = true } }
    {
        self.disconnected = true;
        back
    }
}
