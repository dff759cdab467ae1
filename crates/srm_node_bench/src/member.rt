//! Member 0 of two, as a node and as a recorder.

use crate::still::Still;
use srm_agent::Config;
use srm_node::Node;
use srm_pages::Tap;
use srm_rig_nodes::{Replay, Station};
use srm_timers::Pcg;
use srm_world::Recorder;
use std::alloc::Global;

/// The node that is measured.
pub type BenchNode = Node<Pcg, Replay, Still>;

fn config() -> Option<Config> {
    srm_rig_members::config(0, 2)
}

/// A new node over a wire that answers these, and its taps; its producers are gone. None where memory ran out.
pub fn new_node(alloc: Global, datagrams: Vec<Vec<u8>>) -> Option<(BenchNode, Vec<Tap>)> {
    let wire = Replay::new(datagrams);
    match Station::new(alloc, config()?, Pcg::new(0), wire, Still) {
        Ok(station) => Some((station.node, station.taps)),
        Err(_) => None,
    }
}

pub fn new_recorder(alloc: Global) -> Option<Recorder<Pcg>> {
    Recorder::new(alloc, config()?, Pcg::new(0), 5).ok()
}

/// How many entries the journal of a node has. The node is given up, here alone.
pub fn entries_of(node: BenchNode) -> usize {
    let (journal, _feeds) = node.finish();
    journal.entries().len()
}
