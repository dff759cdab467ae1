//! The node of a live member, its page workers, and the thread that draws what is typed.

ghost use Rattle.std.specs.Prelude.{◌≡◌, List, Option, None, Some, true, false, map, vec_len, IfOk, IfSome, IsOkAnd};
ghost use Rattle.std.specs.Bool.{OnTrue};
ghost use Rattle.std.specs.List.{AllByRecursion, list_all, list_any};
ghost use Rattle.srm_names.specs.declared.limits.TheConstants.{PAGES};
ghost use Rattle.srm_names.specs.declared.page_msg.PageMsg.{PageMsg as AMessage};
ghost use Rattle.srm_control.specs.Ends.{new_control, new_commands};
ghost use Rattle.srm_node.specs.Calls.{calls_of};
ghost use Rattle.rand_pcg.specs.Pcg.{pcg64};
ghost use Rattle.srm_node.specs.Hosting.{AreEndsOfLanes};
ghost use Rattle.srm_node.specs.Waits.{ChosenByWords};
ghost use Rattle.srm_udp.specs.Clocks.{NeverFalls};
ghost use Rattle.srm_member.specs.Stations.{HasNewEnds};
ghost use Rattle.srm_member.specs.Statuses.{fault_of, fault_of_lists, lacks_memory, IsRecordedEnd};
ghost use Rattle.srm_member.specs.TakenText.{has_close, lists_of};
ghost use Rattle.srm_record.specs.Begun.{IsRecorded};
ghost use Rattle.srm_member.specs.WholeRuns.{TakePrefixes, IsReceivedOf};
ghost use Rattle.srm_live.specs.declared.typing_thread.TypedPens.{TypedPens as ThePens};
ghost use Rattle.srm_live.specs.LiveRuns as spec;
ghost use Rattle.srm_live.specs.LiveRuns.{AreOnLines, AreFirstOf, IsWholeLiveRun, SawWhole};

use crate::desk::Desk;
use crate::lingering::Staying;
use crate::shown_pages::ShownPages;
use crate::typing_thread::{TypedPens, drew_all, join_typing, start_typing};
use srm_agent::Entry;
use srm_control::{PageCommands, PageControl, settle_control};
use srm_member::{MemberFault, Recorded, Station, end_record, host_if, join_pens, settle_lanes};
use srm_names::PageMsg;
use srm_node::{Hosted, NodeEnds, PageSink, WorkEnd, Worked};
use srm_pages::ends::Well;
use srm_pages::{Feed, Inked};
use srm_record::Written;
use srm_script::ScriptFault;
use srm_wire::Wire;
use srm_world::Past;
use std::alloc::{AllocError, Global};
use std::fs::OpenFile;
use std::io::{Read, Write};
use std::sync::{Arc, Wait};
use std::thread::Threads;
use std::time;

/// How a live member's run ended.
#[derive(Drop)]
pub struct LiveEnd {
    /// Why it wasn't whole, or [`MemberFault::Record`] if it was and the file hasn't its whole record; `None` if it was and there is no file or it has.
    pub fault: Option<MemberFault>,
    /// Whether all that was typed was drawn, and no sink stopped its worker.
    pub is_complete: bool,
}

/// Runs the node in this thread, and its page workers and the producer that draws what is typed in one thread each, until all have ended.
///
/// `turns` is how many turns the node has, `pages` has the node's control. Returns how the run ended. Without a fault each worker took all that the node's journal gave in its slot, and its sink
/// saw each of these messages. If the run is complete too, no sink stopped its worker, and the journal's draws are the strokes that are typed in the reader's bytes, up to its end or the first
/// command to leave, in order, each on the page where who types stood by the node's answers to their commands. Where a whole run lacks a stroke that was sent, the fault is [`ScriptFault::Memory`].
pub fn host_live<R, X, F, P, S, I, O, E>(
    rt: &R,
    alloc: Global,
    station: Station<R, X, Written<F, P>>,
    pages: ShownPages,
    sinks: Vec<S>,
    reader: I,
    staying: Staying,
    turns: u64,
    desk: &Arc<Desk<O, E>, Global>,
) -> LiveEnd
where
    R: time::Clock + Threads + Wait + Copy + Send + Drop + 'static,
    X: Wire + Drop,
    F: Write + OpenFile + Drop,
    P: Past<Entry> + Drop,
    S: PageSink + Send + Drop + 'static,
    I: Read + Send + Drop + 'static,
    O: Write + Send + Drop + 'static,
    E: Write + Send + Drop + 'static,
    requires new { HasNewEnds station.node.view station.taps.items station.pens.items }
    requires control { (pages ≡ new_control pages.out pages.back) × (station.node.view.control ≡ Some (new_commands pages.out pages.back)) }
    requires sinks { vec_len sinks ≡ PAGES }
    ensures { result.fault ≡ None → result.is_complete ≡ true → ((took : List (List AMessage)) × (whole : IsWholeLiveRun (calls_of NeverFalls X.receives X.sends X.pauses) turns (I.remaining reader) station.node.view took) × SawWhole S.sees sinks.items took × (file : Option F) × IsRecorded F.contents station.node.begins whole.host.last.journal.entries took file × ChosenByWords pcg64 station.node.view.journal station.node.words whole.host.last.journal) }
{
    let Station {
        node,
        taps,
        pens,
        waker,
    } = station;
    let typing = start_typing(rt, alloc, pens, pages, reader, staying, desk, waker);
    let hosted = host_if(rt, alloc, typing.is_some(), node, taps, sinks, turns);
    desk.end();
    let typed = join_typing(rt, typing);
    match hosted {
        Some((hosted, ends)) => {
            let stopped = any_stopped(hosted.worked.as_slice());
            let is_complete = drew_and_saw(drew_all(&typed), stopped);
            LiveEnd {
                fault: settle(rt, alloc, hosted, ends, typed),
                is_complete,
            }
        }
        None => LiveEnd {
            fault: Some(MemberFault::Script(ScriptFault::Memory)),
            is_complete: false,
        },
    }
}

// Whether all that was typed was drawn, and no worker was stopped.
fn drew_and_saw(drew_all: bool, stopped: bool) -> bool
    ensures { result ≡ true → (drew_all ≡ true) × (stopped ≡ false) }
{
    drew_all && !stopped
}

// Whether a sink stopped one of these workers.
fn any_stopped(worked: &[Worked]) -> bool
    ensures { result ≡ list_any spec.was_stopped worked.now }
{
    worked.iter().any(was_stopped)
}

fn was_stopped(worked: &Worked) -> bool
    ensures { result ≡ spec.was_stopped worked.now }
{
    matches!(worked.end, WorkEnd::Stopped)
}

// Why the run wasn't whole, or that its record isn't. If both are, both ends of each lane were put together, and the producers beside their stroke queue.
#[tactic(auto, using(crate::proofs::Recorded::none_of))]
fn settle<R: Wait, F: Write + OpenFile + Drop, P: Past<Entry> + Drop>(
    rt: &R,
    alloc: Global,
    hosted: Hosted<Written<F, P>, Vec<PageMsg>>,
    ends: NodeEnds,
    typed: Option<TypedPens>,
) -> Option<MemberFault>
    requires lanes { IfOk hosted.end (λ _. AreEndsOfLanes hosted.feeds.items (map (λ w. w.tap) hosted.worked.items)) }
    requires pens { IfSome typed (λ t. IfOk hosted.end (λ _. (t.first.well ≡ ends.well.well) × AllByRecursion (λ p. p.well ≡ ends.well.well) t.others.items)) }
    requires lines { IfSome typed (λ t. IfOk hosted.end (λ _. AreOnLines ends.commands t.control)) }
    ensures fault { result ≡ None → fault_of_lists (fault_of hosted.end (list_any lacks_memory hosted.worked.items)) (list_all has_close hosted.worked.items) ≡ None }
    ensures takes { result ≡ None → TakePrefixes hosted.feeds.items (map (λ w. w.tap) hosted.worked.items) }
    ensures pens { result ≡ None → ((t : ThePens) × (typed ≡ Some t) × IsReceivedOf ends.well.received t.first × AllByRecursion (IsReceivedOf ends.well.received) t.others.items × AreFirstOf ends.commands t.control) }
    ensures recorded { result ≡ None → ((file : Option F) × IsRecorded F.contents hosted.history.begins hosted.history.journal.entries (lists_of hosted.worked.items) file) }
{
    match typed {
        Some(typed) => settle_typed(rt, alloc, hosted, ends, typed),
        None => Some(MemberFault::Script(ScriptFault::Memory)),
    }
}

#[tactic(auto, using(crate::proofs::Recorded::of_fault, crate::proofs::Recorded::of_record))]
fn settle_typed<R: Wait, F: Write + OpenFile + Drop, P: Past<Entry> + Drop>(
    rt: &R,
    alloc: Global,
    hosted: Hosted<Written<F, P>, Vec<PageMsg>>,
    ends: NodeEnds,
    typed: TypedPens,
) -> Option<MemberFault>
    requires lanes { IfOk hosted.end (λ _. AreEndsOfLanes hosted.feeds.items (map (λ w. w.tap) hosted.worked.items)) }
    requires pens { IfOk hosted.end (λ _. (typed.first.well ≡ ends.well.well) × AllByRecursion (λ p. p.well ≡ ends.well.well) typed.others.items) }
    requires lines { IfOk hosted.end (λ _. AreOnLines ends.commands typed.control) }
    ensures fault { IsRecordedEnd (fault_of_lists (fault_of hosted.end (list_any lacks_memory hosted.worked.items)) (list_all has_close hosted.worked.items)) result }
    ensures takes { result ≡ None → TakePrefixes hosted.feeds.items (map (λ w. w.tap) hosted.worked.items) }
    ensures pens { result ≡ None → (IsReceivedOf ends.well.received typed.first × AllByRecursion (IsReceivedOf ends.well.received) typed.others.items) }
    ensures answers { result ≡ None → AreFirstOf ends.commands typed.control }
    ensures recorded { result ≡ None → ((file : Option F) × IsRecorded F.contents hosted.history.begins hosted.history.journal.entries (lists_of hosted.worked.items) file) }
{
    let Hosted {
        history,
        feeds,
        worked,
        end,
        left,
    } = hosted;
    drop(left);
    let recorded = end_record(alloc, history, worked.as_slice());
    match MemberFault::of_whole_run(end, worked.as_slice()) {
        Some(fault) => Some(fault),
        None if put_together(rt, feeds, worked, ends, typed) => unrecorded(recorded),
        None => Some(MemberFault::Script(ScriptFault::Memory)),
    }
}

/// Returns why a whole run isn't recorded, by how its record ended; `None` if the file has the whole record, or there is none. Takes no memory.
#[tactic(auto, using(crate::proofs::Recorded::of_whole))]
pub fn unrecorded<F: Write + Drop>(recorded: Result<Recorded<F>, AllocError>) -> Option<MemberFault>
    ensures fault { IsRecordedEnd None result }
    ensures whole { result ≡ None → IsOkAnd recorded (λ r. r.whole ≡ true) }
{
    match recorded {
        Ok(recorded) => MemberFault::of_record(Ok(recorded.whole)),
        Err(error) => MemberFault::of_record(Err(error)),
    }
}

// Puts both ends of each lane together, the producers beside their stroke queue, and the control beside the node's end of it. Whether all that the producers sent was
// received.
fn put_together<R: Wait>(
    rt: &R,
    feeds: Vec<Feed>,
    worked: Vec<Worked>,
    ends: NodeEnds,
    typed: TypedPens,
) -> bool
    requires lanes { AreEndsOfLanes feeds.items (map (λ w. w.tap) worked.items) }
    requires pens { (typed.first.well ≡ ends.well.well) × AllByRecursion (λ p. p.well ≡ ends.well.well) typed.others.items }
    requires lines { AreOnLines ends.commands typed.control }
    ensures takes { TakePrefixes feeds.items (map (λ w. w.tap) worked.items) }
    ensures pens { OnTrue result (IsReceivedOf ends.well.received typed.first × AllByRecursion (IsReceivedOf ends.well.received) typed.others.items) }
    ensures answers { AreFirstOf ends.commands typed.control }
{
    let TypedPens {
        first,
        others,
        control,
        ..
    } = typed;
    let NodeEnds { well, commands } = ends;
    settle_lanes(feeds, worked);
    settle_answers(control, commands);
    received_all(rt, well, first, others)
}

// Whether all that these producers sent was received.
fn received_all<R: Wait>(rt: &R, well: Well, first: Inked, others: Vec<Inked>) -> bool
    requires first { first.well ≡ well.well }
    requires others { AllByRecursion (λ p. p.well ≡ well.well) others.items }
    ensures { OnTrue result (IsReceivedOf well.received first × AllByRecursion (IsReceivedOf well.received) others.items) }
{
    let mut well = well;
    let (_, all) = well.join_pen(rt, first);
    if !all {
        return false;
    }
    join_pens(rt, &mut well, others)
}

// Puts a control beside the node's end of it, if there is one.
#[tactic(auto, using(crate::proofs::LiveRuns::first_of, crate::proofs::LiveRuns::first_of_none))]
fn settle_answers(control: PageControl, commands: Option<PageCommands>)
    requires { AreOnLines commands control }
    ensures { AreFirstOf commands control }
{
    if let Some(commands) = commands {
        settle_control(control, commands);
    }
}
