//! Viewers: how a thread sees how far the page workers are.

ghost use Rattle.std.specs.Prelude.{◌≡◌, ◌<◌, ◌≤◌, slice_index, slice_set};
ghost use Rattle.srm_names.specs.declared.limits.TheConstants.{PAGES};
ghost use Rattle.srm_pages.specs.Board.{number_register};

use crate::board::number_register;
use crate::lookout::Lookout;
use srm_names::Member;
use std::marker::Model;

/// Sees from another thread how far the page workers are. Contracts see its board, and what it last saw in each register.
#[derive(Drop)]
pub struct Viewer {
    pub(crate) lookout: Lookout,
}

impl Model for Viewer {
    ghost use Rattle.srm_pages.specs.Seats.{LookoutView};

    ghost Value = { LookoutView };

    ghost view = { λ v. v.lookout };
}

impl Viewer {
    /// Returns the number of the member's last drawop that the worker of a page slot, 0 to 7, has posted, as far as this viewer sees; 0
    /// before the first. It never falls. Costs one load; it neither waits nor takes memory.
    ///
    /// No clause of this call ties the number to the tap, whose seat another thread has. The law
    /// [`board_keeps_its_rule`](crate::board_keeps_its_rule) says that nobody sees more than the tap posted.
    pub fn look(&mut self, slot: u8, member: Member) -> u32
        requires { slot < PAGES }
        ensures seen { self.new ≡ record self.old { seen = slice_set self.old.seen (number_register slot member) result } }
        ensures there { slice_index self.new.seen (number_register slot member) ≡ result }
        ensures rises { slice_index self.old.seen (number_register slot member) ≤ result }
    {
        self.lookout.look(number_register(slot, member)) as u32
    }
}
