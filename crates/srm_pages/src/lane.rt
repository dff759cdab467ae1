//! A lane: a bounded channel of messages. Its rule: what was put is what was taken and then what the lane holds.
ghost use Rattle.std.specs.Prelude.{◌≡◌, true, false, [], ◌++◌};

use crossbeam_channel::protocol::{Join, Lesson, Outcome, Protocol, Split};
use crossbeam_channel::{Pass, RuledReceiver, RuledSender};
use srm_names::PageMsg;
use std::collections::LinkedList;

/// What a pass knows: whether it puts and what it has put, whether it takes and what it has taken. It is for contracts: no value of it is
/// made.
pub struct LaneView {
    /// Whether it puts.
    pub puts: bool,
    /// Whether it takes.
    pub takes: bool,
    /// What it has put.
    pub put: LinkedList<PageMsg>,
    /// What it has taken.
    pub taken: LinkedList<PageMsg>,
}

/// The rule of a lane.
pub struct LaneRule;

impl Protocol<PageMsg, LaneView> for LaneRule {
    ghost use Rattle.std.specs.Prelude.{true, []};
    ghost use Rattle.srm_pages.specs.Lane.{lane_view, IsLaneState};

    ghost holds = { IsLaneState };

    ghost first = { lane_view true true [] [] };
}

/// Splits the first pass into the feed's and the tap's, and joins them again.
pub struct LaneSplit;

impl Split<LaneView> for LaneSplit {
    ghost use Rattle.std.specs.Prelude.{true, false, []};
    ghost use Rattle.srm_pages.specs.Lane.{lane_view};

    ghost left = { λ v. lane_view true false v.put [] };

    ghost right = { λ v. lane_view false true [] v.taken };
}

impl Join<LaneView> for LaneSplit {
    ghost use Rattle.std.specs.Prelude.{true, false, []};
    ghost use Rattle.srm_pages.specs.Lane.{lane_view};

    ghost both = { λ v w. lane_view true true v.put w.taken };

    ghost spent = { lane_view false false [] [] };
}

/// What a put does to its pass: the message stands behind those put before.
pub struct Putting;

impl Outcome<PageMsg, LaneView> for Putting {
    ghost use Rattle.srm_pages.specs.Lane.{Puts};

    ghost then = { Puts };
}

impl Lesson<PageMsg, LaneView> for Putting {
    ghost fact = { λ v items. Unit {0} };
}

/// What a take does to its pass: the message stands behind those taken before, and they are a page feed.
pub struct Taking;

impl Outcome<PageMsg, LaneView> for Taking {
    ghost use Rattle.srm_pages.specs.Lane.{Takes};

    ghost then = { Takes };
}

impl Lesson<PageMsg, LaneView> for Taking {
    ghost fact = { λ v items. Unit {0} };
}

/// What a joined pass shows: what was put is what was taken, and then what the lane holds.
pub struct Total;

impl Lesson<PageMsg, LaneView> for Total {
    ghost fact = { λ v items. v.put ≡ v.taken ++ items };
}

pub(crate) type Sender = RuledSender<PageMsg, LaneView, LaneRule>;

pub(crate) type Receiver = RuledReceiver<PageMsg, LaneView, LaneRule>;

pub(crate) type LanePass = Pass<PageMsg, LaneView>;
