//! A node and its page workers, in threads.

ghost use Rattle.std.specs.Prelude.{◌≡◌, ◌+◌, ◌<◌, ◌≤◌, Bool, true, [], ◌∷◌, ◌++◌, map, drop, length, vec_len, vec_capacity, IfOk, IfSome, MatchResult};
ghost use Rattle.std.specs.Bool.{OnTrue, OnFalse};
ghost use Rattle.srm_names.specs.declared.limits.TheConstants.{PAGES};
ghost use Rattle.srm_node.specs.Calls.{calls_of};
ghost use Rattle.srm_node.specs.Nodes.{NodeKeepsLists, recorded_in};
ghost use Rattle.srm_node.specs.Turns.{RunsToEnd};
ghost use Rattle.srm_node.specs.Waits.{ChosenByWords, WaitsByWords};
ghost use Rattle.srm_node.specs.Hosting.{start_of, starts_of, kinds_of, Starts, StartsUpTo, StopsBy, WorkedAs, WorkedEach, SameWell, SameLines, Hosts, HostsWith, HostStopsWith, HostFails, HostFailsWith, AreEndsOfLanes};

use crate::fault::NodeFault;
use crate::node::Node;
use crate::sink::PageSink;
use crate::working::{Worked, work};
use srm_agent::Entry;
use srm_control::PageCommands;
use srm_names::{PAGES, PageMsg};
use srm_pages::ends::Well;
use srm_pages::{Feed, Tap};
use srm_timers::Words;
use srm_wire::{Clock, Wire};
use srm_world::{History, Past};
use std::alloc::{AllocError, Global};
use std::collections::VecDeque;
use std::snapshot::Snapshot;
use std::sync::Wait;
use std::thread;
use std::thread::{Promise, PromisedHandle, Threads};

/// A worker's promise, for contracts alone: its tap is of this tap's lane, it took what its list has, this sink saw each message of the list, and it ended as it
/// says.
#[derive(Drop)]
pub struct WorksOn<S: PageSink>(Snapshot<Tap>, Snapshot<S>);

impl<S: PageSink, L: Past<PageMsg> + Drop> Promise<Worked<L>> for WorksOn<S> {
    ghost use Rattle.srm_node.specs.Working.{WorkedFrom};

    ghost kept_by = { λ p w. WorkedFrom L.appended L.is_refused S.sees p.0.value p.1.value w };
}

/// A worker in its thread. [`host`] makes and joins them; it is public because contracts name it.
#[derive(Drop)]
pub struct Worker<L: Past<PageMsg> + Drop, S: PageSink> {
    handle: PromisedHandle<Worked<L>, WorksOn<S>>,
}

/// What became of a node and its workers. The node keeps its entries, and each worker what it took, unless other histories are named.
#[derive(Drop)]
pub struct Hosted<P: Past<Entry> + Drop = Vec<Entry>, L: Past<PageMsg> + Drop = Vec<PageMsg>> {
    /// What the member did, as it was kept.
    pub history: History<P>,
    /// Empty after a fault: the feeds were dropped, so that the workers end.
    pub feeds: Vec<Feed>,
    /// What became of each worker that was started, by page slot.
    pub worked: Vec<Worked<L>>,
    /// The taps that nobody was started with, by page slot, but for that of the first worker that couldn't be started. Empty if all were started.
    pub left: Vec<Tap>,
    /// Whether the node ran to its end, or why it stopped.
    pub end: Result<(), NodeFault>,
}

/// Runs a node in this thread for up to `turns` turns, and eight page workers in threads beside it, one for each tap, which shows the sink at its place what it
/// takes. Waits for the workers, so it lasts as long as the slowest sink. The type that the caller names for their lists says how these are kept, as with [`work`].
///
/// Preconditions: eight taps and eight sinks, by page slot. A worker that its sink stopped, or that is out of memory, takes nothing more: the run ends with `Ok`
/// only if the rest of its page feed, the close too, has room in the lane's 64 messages, and else with `Turns`.
///
/// After a fault of the node the feeds are dropped, so that the workers end. If a worker's thread can't be started, whatever the cause, the end is `Memory`, the
/// node isn't turned, and what the workers before it did is returned, with the taps behind it. Fails only if out of memory before any worker is started.
pub fn host<
    R: Threads + Wait + Copy + Send + 'static,
    W: Words + Drop,
    X: Wire + Drop,
    C: Clock + Drop,
    P: Past<Entry> + Drop,
    S: PageSink + Send + Drop + 'static,
    L: Past<PageMsg> + Send + Drop + 'static,
>(
    rt: &R,
    alloc: Global,
    node: Node<W, X, C, P>,
    taps: Vec<Tap>,
    sinks: Vec<S>,
    turns: u64,
) -> Result<Hosted<P, L>, AllocError>
    requires taps { vec_len taps ≡ PAGES }
    requires sinks { vec_len sinks ≡ PAGES }
    ensures hosts { IfOk result (λ h. MatchResult h.end (λ _. Hosts (calls_of C.reads X.receives X.sends X.pauses) (kinds_of L.appended L.is_refused S.sees) node.view (starts_of taps.items sinks.items) turns h)
        (λ fault. (all : Bool) × HostFails (calls_of C.reads X.receives X.sends X.pauses) (kinds_of L.appended L.is_refused S.sees) all node.view (starts_of taps.items sinks.items) turns fault h)) }
    ensures lanes { IfOk result (λ h. IfOk h.end (λ _. AreEndsOfLanes node.view.feeds taps.items → AreEndsOfLanes h.feeds.items (map (λ w. w.tap) h.worked.items))) }
    ensures left { IfOk result (λ h. IfOk h.end (λ _. h.left.items ≡ [])) }
    ensures words { IfOk result (λ h. ChosenByWords W.next_word node.view.journal node.words h.history.journal) }
    ensures begins { IfOk result (λ h. h.history.begins ≡ node.begins) }
{
    let (hosted, _) = host_with_ends(rt, alloc, node, taps, sinks, turns)?;
    Ok(hosted)
}

/// A node's ends of what it shared with threads that draw and command, to be put beside the others.
#[derive(Drop)]
pub struct NodeEnds {
    /// Its stroke queue, which [`Well::join_pen`] compares with a producer.
    pub well: Well,
    /// Its end of a control, if it has one, which [`settle_control`](srm_control::settle_control) compares with the control.
    pub commands: Option<PageCommands>,
}

/// Does what [`host`] does, and returns the node's ends of its stroke queue and its control too. Fails only if out of memory before any worker is started.
///
/// A command that the node didn't answer gets no answer any more; but as long as the node's end is there, whoever waits for one isn't told so.
#[tactic(auto, using(crate::proofs::Hosts::host_ends, crate::proofs::Hosts::host_lanes))]
pub fn host_with_ends<
    R: Threads + Wait + Copy + Send + 'static,
    W: Words + Drop,
    X: Wire + Drop,
    C: Clock + Drop,
    P: Past<Entry> + Drop,
    S: PageSink + Send + Drop + 'static,
    L: Past<PageMsg> + Send + Drop + 'static,
>(
    rt: &R,
    alloc: Global,
    node: Node<W, X, C, P>,
    taps: Vec<Tap>,
    sinks: Vec<S>,
    turns: u64,
) -> Result<(Hosted<P, L>, NodeEnds), AllocError>
    requires taps { vec_len taps ≡ PAGES }
    requires sinks { vec_len sinks ≡ PAGES }
    ensures hosts { IfOk result (λ r. MatchResult r.0.end (λ _. HostsWith (calls_of C.reads X.receives X.sends X.pauses) (kinds_of L.appended L.is_refused S.sees) node.view (starts_of taps.items sinks.items) turns r.1 r.0)
        (λ fault. (all : Bool) × HostFailsWith (calls_of C.reads X.receives X.sends X.pauses) (kinds_of L.appended L.is_refused S.sees) all node.view (starts_of taps.items sinks.items) turns fault r.1 r.0)) }
    ensures lanes { IfOk result (λ r. IfOk r.0.end (λ _. AreEndsOfLanes node.view.feeds taps.items → AreEndsOfLanes r.0.feeds.items (map (λ w. w.tap) r.0.worked.items))) }
    ensures left { IfOk result (λ r. IfOk r.0.end (λ _. r.0.left.items ≡ [])) }
    ensures well { IfOk result (λ r. IfOk r.0.end (λ _. SameWell node.view.well r.1.well)) }
    ensures control { IfOk result (λ r. IfOk r.0.end (λ _. SameLines node.view.control r.1.commands)) }
    ensures words { IfOk result (λ r. ChosenByWords W.next_word node.view.journal node.words r.0.history.journal) }
    ensures begins { IfOk result (λ r. r.0.history.begins ≡ node.begins) }
{
    let (mut workers, mut worked) = places(alloc)?;
    let (all, left) = begin(rt, alloc, taps, sinks, &mut workers, &mut worked);
    Ok(go(rt, alloc, node, all, turns, workers, worked, left))
}

// Room for the workers, and for what they return.
fn places<L: Past<PageMsg> + Drop, S: PageSink>(
    alloc: Global,
) -> Result<(VecDeque<Worker<L, S>>, Vec<Worked<L>>), AllocError>
    ensures { IfOk result (λ p. (p.0.items ≡ []) × (p.1.items ≡ [])) }
{
    let mut workers = VecDeque::new(alloc);
    workers.reserve(usize::from(PAGES))?;
    let mut worked = Vec::new(alloc);
    worked.reserve(usize::from(PAGES))?;
    Ok((workers, worked))
}

// Runs the node if all workers were started, and waits for them.
fn go<
    R: Threads + Wait,
    W: Words + Drop,
    X: Wire + Drop,
    C: Clock + Drop,
    P: Past<Entry> + Drop,
    S: PageSink,
    L: Past<PageMsg> + Drop,
>(
    rt: &R,
    alloc: Global,
    node: Node<W, X, C, P>,
    all: bool,
    turns: u64,
    workers: VecDeque<Worker<L, S>>,
    worked: Vec<Worked<L>>,
    left: Vec<Tap>,
) -> (Hosted<P, L>, NodeEnds)
    requires room { vec_len worked + length workers.items ≤ vec_capacity worked }
    requires none { worked.items ≡ [] }
    ensures ends { MatchResult result.0.end (λ _. (all ≡ true) × HostsWith (calls_of C.reads X.receives X.sends X.pauses) (kinds_of L.appended L.is_refused S.sees) node.view (map start_of workers.items) turns result.1 result.0)
        (λ fault. HostStopsWith (calls_of C.reads X.receives X.sends X.pauses) (kinds_of L.appended L.is_refused S.sees) all node.view (map start_of workers.items) turns fault result.1 result.0) }
    ensures each { WorkedEach (kinds_of L.appended L.is_refused S.sees) (map start_of workers.items) result.0.worked.items }
    ensures left { result.0.left.items ≡ left.items }
    ensures words { ChosenByWords W.next_word node.view.journal node.words result.0.history.journal }
    ensures begins { result.0.history.begins ≡ node.begins }
{
    let mut node = node;
    let end = run_if(rt, &mut node, all, turns);
    let (history, feeds, well, commands) = node.into_parts();
    let feeds = kept(alloc, feeds, end.is_ok());
    let worked = join_all(rt, workers, worked);
    let hosted = Hosted {
        history,
        feeds,
        worked,
        left,
        end,
    };
    (hosted, NodeEnds { well, commands })
}

#[tactic(auto, using(crate::proofs::Hosts::starts_the_same))]
// Starts the workers. Whether all were started, and the taps behind that of the first that wasn't.
fn begin<
    R: Threads + Wait + Copy + Send + 'static,
    S: PageSink + Send + Drop + 'static,
    L: Past<PageMsg> + Send + Drop + 'static,
>(
    rt: &R,
    alloc: Global,
    taps: Vec<Tap>,
    sinks: Vec<S>,
    workers: &mut VecDeque<Worker<L, S>>,
    worked: &mut Vec<Worked<L>>,
) -> (bool, Vec<Tap>)
    requires taps { vec_len taps ≡ PAGES }
    requires sinks { vec_len sinks ≡ PAGES }
    requires none { (workers.old.items ≡ []) × (worked.old.items ≡ []) }
    ensures room { vec_len worked.new + length workers.new.items ≤ vec_capacity worked.new }
    ensures none { worked.new.items ≡ [] }
    ensures up_to { StartsUpTo result.0 (starts_of taps.items sinks.items) (map start_of workers.new.items) result.1.items }
{
    let mut taps = VecDeque::from(taps);
    let mut sinks = VecDeque::from(sinks);
    let all = start_all(rt, alloc, &mut taps, &mut sinks, workers, worked);
    (all, Vec::from(taps))
}

// Runs the node if all workers were started.
#[tactic(auto, using(crate::proofs::Waiting::waits_none))]
fn run_if<R: Wait, W: Words + Drop, X: Wire + Drop, C: Clock + Drop, P: Past<Entry> + Drop>(
    rt: &R,
    node: &mut Node<W, X, C, P>,
    all: bool,
    turns: u64,
) -> Result<(), NodeFault>
    ensures runs { MatchResult result (λ _. (all ≡ true) × NodeKeepsLists node.new.view × RunsToEnd (calls_of C.reads X.receives X.sends X.pauses) turns node.old.view node.new.view) (λ fault. StopsBy (calls_of C.reads X.receives X.sends X.pauses) all fault turns node.old.view node.new.view) }
    ensures words { WaitsByWords W.next_word (recorded_in node.old) (recorded_in node.new) }
    ensures begins { node.new.begins ≡ node.old.begins }
{
    if !all {
        return Err(NodeFault::Memory);
    }
    node.run(rt, turns)
}

// The feeds, or none: they are dropped.
fn kept(alloc: Global, feeds: Vec<Feed>, keeps: bool) -> Vec<Feed>
    ensures feeds { OnTrue keeps (result.items ≡ feeds.items) }
    ensures none { OnFalse keeps (result.items ≡ []) }
{
    if keeps { feeds } else { Vec::new(alloc) }
}

// Starts a worker for each tap, with the sink at its place, until one can't be started. Whether all were.
fn start_all<
    R: Threads + Wait + Copy + Send + 'static,
    S: PageSink + Send + Drop + 'static,
    L: Past<PageMsg> + Send + Drop + 'static,
>(
    rt: &R,
    alloc: Global,
    taps: &mut VecDeque<Tap>,
    sinks: &mut VecDeque<S>,
    workers: &mut VecDeque<Worker<L, S>>,
    worked: &mut Vec<Worked<L>>,
) -> bool
    requires taps { length taps.old.items ≡ PAGES }
    requires sinks { length sinks.old.items ≡ PAGES }
    requires none { (workers.old.items ≡ []) × (worked.old.items ≡ []) }
    ensures room { vec_len worked.new + length workers.new.items ≤ vec_capacity worked.new }
    ensures none { worked.new.items ≡ [] }
    ensures up_to { StartsUpTo result (starts_of taps.old.items sinks.old.items) (map start_of workers.new.items) taps.new.items }
{
    for done in 0..PAGES {
        if !start_next(rt, alloc, taps, sinks, workers, worked) {
            return false;
        }
    }
    true
}

// Starts a worker for the first tap that is left. Whether it was started.
fn start_next<
    R: Threads + Wait + Copy + Send + 'static,
    S: PageSink + Send + Drop + 'static,
    L: Past<PageMsg> + Send + Drop + 'static,
>(
    rt: &R,
    alloc: Global,
    taps: &mut VecDeque<Tap>,
    sinks: &mut VecDeque<S>,
    workers: &mut VecDeque<Worker<L, S>>,
    worked: &mut Vec<Worked<L>>,
) -> bool
    requires room { vec_len worked.old + length workers.old.items ≤ vec_capacity worked.old }
    ensures room { vec_len worked.new + length workers.new.items ≤ vec_capacity worked.new }
    ensures none { worked.new.items ≡ worked.old.items }
    ensures next { OnTrue result (Starts taps.old.items taps.new.items sinks.old.items sinks.new.items workers.old.items workers.new.items) }
    ensures same { OnFalse result (map start_of workers.new.items ≡ map start_of workers.old.items) }
    ensures left { taps.new.items ≡ drop 1 taps.old.items }
{
    let Some(tap) = taps.pop_front() else {
        return false;
    };
    let Some(sink) = sinks.pop_front() else {
        return false;
    };
    start_one(rt, alloc, tap, sink, workers, worked)
}

// Starts a worker once there is room for what it returns. Whether it was started.
fn start_one<
    R: Threads + Wait + Copy + Send + 'static,
    S: PageSink + Send + Drop + 'static,
    L: Past<PageMsg> + Send + Drop + 'static,
>(
    rt: &R,
    alloc: Global,
    tap: Tap,
    sink: S,
    workers: &mut VecDeque<Worker<L, S>>,
    worked: &mut Vec<Worked<L>>,
) -> bool
    requires room { vec_len worked.old + length workers.old.items ≤ vec_capacity worked.old }
    ensures room { vec_len worked.new + length workers.new.items ≤ vec_capacity worked.new }
    ensures none { worked.new.items ≡ worked.old.items }
    ensures one { OnTrue result (map start_of workers.new.items ≡ map start_of workers.old.items ++ (tap, sink) ∷ []) }
    ensures same { OnFalse result (map start_of workers.new.items ≡ map start_of workers.old.items) }
{
    if workers.reserve(1).is_err() {
        return false;
    }
    if worked.reserve(workers.len().saturating_add(1)).is_err() {
        return false;
    }
    let Some(worker) = start(rt, alloc, tap, sink) else {
        return false;
    };
    workers.push_back(worker).is_ok()
}

// Starts a worker, if there is a thread for it.
fn start<
    R: Threads + Wait + Copy + Send + 'static,
    S: PageSink + Send + Drop + 'static,
    L: Past<PageMsg> + Send + Drop + 'static,
>(rt: &R, alloc: Global, tap: Tap, sink: S) -> Option<Worker<L, S>>
    ensures { IfSome result (λ w. start_of w ≡ (tap, sink)) }
{
    let own = *rt;
    let promise = WorksOn(Snapshot::of(&tap), Snapshot::of(&sink));
    let spawned = thread::spawn_with(rt, promise, move || {
        let mut sink = sink;
        work(&own, alloc, tap, &mut sink)
    });
    match spawned {
        Ok(handle) => Some(Worker { handle }),
        Err(_) => None,
    }
}

// Waits for all workers.
fn join_all<R: Threads, S: PageSink, L: Past<PageMsg> + Drop>(
    rt: &R,
    workers: VecDeque<Worker<L, S>>,
    worked: Vec<Worked<L>>,
) -> Vec<Worked<L>>
    requires room { vec_len worked + length workers.items ≤ vec_capacity worked }
    requires none { worked.items ≡ [] }
    ensures { WorkedEach (kinds_of L.appended L.is_refused S.sees) (map start_of workers.items) result.items }
{
    let mut left = workers;
    let mut worked = worked;
    for done in 0..left.len() {
        let Some(worker) = left.pop_front() else {
            unreachable!()
        };
        let one = join_one(rt, worker);
        put(&mut worked, one);
    }
    worked
}

fn join_one<R: Threads, S: PageSink, L: Past<PageMsg> + Drop>(
    rt: &R,
    worker: Worker<L, S>,
) -> Worked<L>
    ensures { WorkedAs (kinds_of L.appended L.is_refused S.sees) (start_of worker) result }
{
    let Worker { handle } = worker;
    handle.join(rt)
}

// Puts one into the room that was made for it.
fn put<L: Past<PageMsg> + Drop>(worked: &mut Vec<Worked<L>>, one: Worked<L>)
    requires { vec_len worked.old < vec_capacity worked.old }
    ensures items { worked.new.items ≡ worked.old.items ++ one ∷ [] }
    ensures room { (vec_len worked.new ≡ vec_len worked.old + 1) × (vec_capacity worked.old ≤ vec_capacity worked.new) }
{
    let _ = worked.push(one);
}
