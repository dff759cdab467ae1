//! A node with what is outside it.

ghost use Rattle.std.specs.Prelude.{◌≡◌, vec_len, IfOk};
ghost use Rattle.srm_names.specs.declared.limits.TheConstants.{PAGES};

use crate::ends::{Ends, new_ends};
use srm_agent::{Config, Entry};
use srm_node::{Clock, Node, Wire};
use srm_pages::{Pen, Tap};
use srm_timers::Words;
use srm_world::{Forgotten, Past};
use std::alloc::{AllocError, Global};

/// A node, the taps for its page workers, and its producers. The node keeps its entries unless another history is named.
#[derive(Drop)]
pub struct Station<
    W: Words + Drop,
    X: Wire + Drop,
    C: Clock + Drop,
    P: Past<Entry> + Drop = Vec<Entry>,
> {
    pub node: Node<W, X, C, P>,
    pub taps: Vec<Tap>,
    pub pens: Vec<Pen>,
}

impl<W: Words + Drop, X: Wire + Drop, C: Clock + Drop> Station<W, X, C> {
    /// A node that did nothing yet.
    pub fn new(
        alloc: Global,
        config: Config,
        words: W,
        wire: X,
        clock: C,
    ) -> Result<Station<W, X, C>, AllocError>
        ensures { IfOk result (λ station. vec_len station.taps ≡ PAGES) }
    {
        let Ends {
            feeds,
            taps,
            well,
            pens,
        } = new_ends(alloc)?;
        let node = Node::new(alloc, config, words, wire, clock, feeds, well)?;
        Ok(Station { node, taps, pens })
    }
}

impl<W: Words + Drop, X: Wire + Drop, C: Clock + Drop> Station<W, X, C, Forgotten<Entry>> {
    /// The same that keeps no entry.
    pub fn forgetful(
        alloc: Global,
        config: Config,
        words: W,
        wire: X,
        clock: C,
    ) -> Result<Station<W, X, C, Forgotten<Entry>>, AllocError>
        ensures { IfOk result (λ station. vec_len station.taps ≡ PAGES) }
    {
        let Ends {
            feeds,
            taps,
            well,
            pens,
        } = new_ends(alloc)?;
        let node = Node::forgetful(alloc, config, words, wire, clock, feeds, well)?;
        Ok(Station { node, taps, pens })
    }
}
