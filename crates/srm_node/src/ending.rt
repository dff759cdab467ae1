//! Whether a node has ended.

ghost use Rattle.std.specs.Prelude.{◌≡◌, ◌&&◌, false, map, replicate, IfOk};
ghost use Rattle.std.specs.List.{list_all};
ghost use Rattle.srm_names.specs.declared.limits.TheConstants.{PAGES};
ghost use Rattle.srm_entries.specs.Entries.{is_gone};
ghost use Rattle.srm_node.specs.Nodes.{has_closed, has_nothing_more};

use srm_agent::AgentState;
use srm_names::PAGES;
use srm_pages::Feed;
use std::alloc::{AllocError, Global};

/// Notes for each of the eight feeds that it hasn't put its close. Fails only if out of memory.
pub fn none_closed(alloc: Global) -> Result<Vec<bool>, AllocError>
    ensures { IfOk result (λ closed. closed.items ≡ replicate PAGES false) }
{
    vec![in alloc; false; usize::from(PAGES)]
}

/// Returns whether a member in this state is gone, and each of these feeds has put its close or is disconnected.
pub fn is_ended(after: AgentState, feeds: &[Feed], closed: &[bool]) -> bool
    requires { closed.now ≡ map has_closed feeds.now }
    ensures { result ≡ (is_gone after && list_all has_nothing_more feeds.now) }
{
    let gone = after.is_gone();
    gone & are_done(feeds, closed)
}

// Whether each feed is disconnected or has put its close.
fn are_done(feeds: &[Feed], closed: &[bool]) -> bool
    requires { closed.now ≡ map has_closed feeds.now }
    ensures { result ≡ list_all has_nothing_more feeds.now }
{
    for slot in 0..feeds.len() {
        if !is_done(&feeds[slot], closed[slot]) {
            return false;
        }
    }
    true
}

fn is_done(feed: &Feed, closed: bool) -> bool
    requires { closed ≡ has_closed feed.now }
    ensures { result ≡ has_nothing_more feed.now }
{
    feed.is_disconnected() | closed
}
