//! All ends of the lanes and the board.

use crate::feed::Feed;
use crate::tap::Tap;
use crate::viewer::Viewer;

/// The ends of all lanes, and the viewers. The k-th feed and the k-th tap are the ends of the lane of page slot k.
#[derive(Drop)]
pub struct Lanes {
    /// The node's ends, by page slot.
    pub feeds: Vec<Feed>,
    /// The page workers' ends, by page slot.
    pub taps: Vec<Tap>,
    /// The viewers of the board, as many as were asked for.
    pub viewers: Vec<Viewer>,
}
