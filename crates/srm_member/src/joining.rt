//! What the ends of lanes and of the stroke queue tell once their threads have ended.

ghost use Rattle.std.specs.Prelude.{◌≡◌, map};
ghost use Rattle.std.specs.Bool.{OnTrue};
ghost use Rattle.std.specs.List.{AllByRecursion};
ghost use Rattle.srm_node.specs.Hosting.{AreEndsOfLanes};
ghost use Rattle.srm_member.specs.WholeRuns.{TakePrefixes, IsReceivedOf};

use srm_node::Worked;
use srm_pages::ends::Well;
use srm_pages::{Feed, Inked, settle};
use std::collections::VecDeque;
use std::sync::Wait;

/// Compares producers that are done with their stroke queue, and returns whether it received all that each of them sent, once and in order. It did unless it still holds a
/// stroke, which is dropped then. Takes no memory. Precondition: the producers are of this queue.
pub fn join_pens<R: Wait>(rt: &R, well: &mut Well, pens: Vec<Inked>) -> bool
    requires { AllByRecursion (λ p. p.well ≡ well.old.well) pens.items }
    ensures same { OnTrue result (well.new ≡ well.old) }
    ensures parts { OnTrue result (AllByRecursion (IsReceivedOf well.old.received) pens.items) }
{
    for pen in pens {
        let (_, all) = well.join_pen(rt, pen);
        if !all {
            return false;
        }
    }
    true
}

/// Puts the two ends of each lane together, by page slot: what was taken is a prefix of what was put. It is there for contracts, and drops the ends. Precondition:
/// the k-th feed and the k-th worker have the ends of one lane.
pub fn settle_lanes(feeds: Vec<Feed>, workers: Vec<Worked>)
    requires { AreEndsOfLanes feeds.items (map (λ w. w.tap) workers.items) }
    ensures { TakePrefixes feeds.items (map (λ w. w.tap) workers.items) }
{
    let mut feeds = VecDeque::from(feeds);
    let mut left = VecDeque::from(workers);
    while let Some(worked) = left.pop_front() {
        let Some(feed) = feeds.pop_front() else {
            return;
        };
        let Worked { tap, .. } = worked;
        settle(feed, tap);
    }
}
