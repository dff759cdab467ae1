//! What a node shares with its workers and its producers.

ghost use Rattle.std.specs.Prelude.{◌≡◌, [], vec_len, IfOk};
ghost use Rattle.srm_names.specs.declared.limits.TheConstants.{PAGES};
ghost use Rattle.srm_node.specs.Nodes.{AreNewFeeds};

use srm_pages::ends::Well;
use srm_pages::{Feed, Pen, Tap, lanes, well};
use std::alloc::{AllocError, Global};

/// The ends of the lanes of a node, and of the stroke queue.
#[derive(Drop)]
pub(crate) struct Ends {
    pub feeds: Vec<Feed>,
    pub taps: Vec<Tap>,
    pub well: Well,
    pub pens: Vec<Pen>,
}

/// The ends of new lanes and of a new well.
pub(crate) fn new_ends(alloc: Global) -> Result<Ends, AllocError>
    ensures feeds { IfOk result (λ e. AreNewFeeds e.feeds.items) }
    ensures taps { IfOk result (λ e. vec_len e.taps ≡ PAGES) }
    ensures well { IfOk result (λ e. e.well.received ≡ []) }
{
    let ends = lanes(alloc, 0)?;
    let (well, pens) = well(alloc)?;
    Ok(Ends {
        feeds: ends.feeds,
        taps: ends.taps,
        well,
        pens,
    })
}
