//! The node of a board's member, its page workers, and the threads that serve the board.

ghost use Rattle.std.specs.Prelude.{◌≡◌, List, Option, None, map, vec_len, IfOk};
ghost use Rattle.std.specs.List.{list_all, list_any};
ghost use Rattle.srm_names.specs.declared.limits.TheConstants.{PAGES};
ghost use Rattle.srm_names.specs.declared.page_msg.PageMsg.{PageMsg as AMessage};
ghost use Rattle.rand_pcg.specs.Pcg.{pcg64};
ghost use Rattle.srm_node.specs.Calls.{calls_of};
ghost use Rattle.srm_node.specs.Hosting.{AreEndsOfLanes};
ghost use Rattle.srm_node.specs.Waits.{ChosenByWords};
ghost use Rattle.srm_udp.specs.Clocks.{NeverFalls};
ghost use Rattle.srm_member.specs.Stations.{HasNewEnds};
ghost use Rattle.srm_member.specs.Statuses.{fault_of, fault_of_lists, lacks_memory, IsRecordedEnd};
ghost use Rattle.srm_member.specs.TakenText.{has_close, lists_of};
ghost use Rattle.srm_record.specs.Begun.{IsRecorded};
ghost use Rattle.srm_member.specs.WholeRuns.{IsWholeHost, TakePrefixes};

use crate::board_desk::BoardDesk;
use crate::serving::{Ink, Opening, Serving, start_serving};
use srm_agent::Entry;
use srm_live::unrecorded;
use srm_member::{MemberFault, Station, end_record, host_if, settle_lanes};
use srm_names::PageMsg;
use srm_node::{Hosted, PageSink};
use srm_record::Written;
use srm_script::ScriptFault;
use srm_slate::Slate;
use srm_wire::Wire;
use srm_world::Past;
use std::alloc::Global;
use std::fs::OpenFile;
use std::io::{Read, Write};
use std::net::Net;
use std::random::RandomSource;
use std::sync::{Arc, Wait};
use std::thread::Threads;
use std::time;

/// Runs the node in this thread, and its page workers and the server of its board in threads beside it, until all have ended. `desk` tells the address of the page once it
/// is served, and knows then that the node has ended. `turns` is how many turns the node has.
///
/// Returns why the run wasn't whole, or [`MemberFault::Record`] if it was and the file hasn't its whole record; `None` if it was and there is no file or it has. Then the node ran to its end, and each worker took all that the node's journal gave in its slot.
pub fn host<R, X, F, P, S, I, E>(
    rt: &R,
    alloc: Global,
    station: Station<R, X, Written<F, P>>,
    sinks: Vec<S>,
    turns: u64,
    opening: Opening<I>,
    slate: &Arc<Slate, Global>,
    desk: &BoardDesk<E>,
) -> Option<MemberFault>
where
    R: Net + RandomSource + time::Clock + Threads + Wait + Copy + Send + Drop + 'static,
    X: Wire + Drop,
    F: Write + OpenFile + Drop,
    P: Past<Entry> + Drop,
    S: PageSink + Send + Drop + 'static,
    I: Read + Send + Drop + 'static,
    E: Write,
    requires new { HasNewEnds station.node.view station.taps.items station.pens.items }
    requires sinks { vec_len sinks ≡ PAGES }
    ensures { result ≡ None → ((took : List (List AMessage)) × (whole : IsWholeHost (calls_of NeverFalls X.receives X.sends X.pauses) turns station.node.view took) × (file : Option F) × IsRecorded F.contents station.node.begins whole.last.journal.entries took file × ChosenByWords pcg64 station.node.view.journal station.node.words whole.last.journal) }
{
    let Station {
        node,
        taps,
        pens,
        waker,
    } = station;
    let serving = start_serving(rt, alloc, Ink { pens, waker }, opening, slate, desk);
    let hosted = host_if(rt, alloc, serving.is_some(), node, taps, sinks, turns);
    slate.end(rt);
    desk.end();
    join_if(rt, serving);
    match hosted {
        Some((hosted, _)) => settle(alloc, hosted),
        None => Some(MemberFault::Script(ScriptFault::Memory)),
    }
}

// Why the run wasn't whole, or that its record isn't. If the run was, both ends of each lane were put together.
#[tactic(auto, using(crate::proofs::BoardRuns::of_fault, crate::proofs::BoardRuns::of_record))]
fn settle<F: Write + OpenFile + Drop, P: Past<Entry> + Drop>(
    alloc: Global,
    hosted: Hosted<Written<F, P>, Vec<PageMsg>>,
) -> Option<MemberFault>
    requires { IfOk hosted.end (λ _. AreEndsOfLanes hosted.feeds.items (map (λ w. w.tap) hosted.worked.items)) }
    ensures fault { IsRecordedEnd (fault_of_lists (fault_of hosted.end (list_any lacks_memory hosted.worked.items)) (list_all has_close hosted.worked.items)) result }
    ensures takes { result ≡ None → TakePrefixes hosted.feeds.items (map (λ w. w.tap) hosted.worked.items) }
    ensures recorded { result ≡ None → ((file : Option F) × IsRecorded F.contents hosted.history.begins hosted.history.journal.entries (lists_of hosted.worked.items) file) }
{
    let Hosted {
        history,
        feeds,
        worked,
        end,
        left,
    } = hosted;
    drop(left);
    let recorded = end_record(alloc, history, worked.as_slice());
    match MemberFault::of_whole_run(end, worked.as_slice()) {
        Some(fault) => Some(fault),
        None => {
            settle_lanes(feeds, worked);
            unrecorded(recorded)
        }
    }
}

fn join_if<R: Threads>(rt: &R, serving: Option<Serving>) {
    if let Some(serving) = serving {
        serving.join(rt);
    }
}
