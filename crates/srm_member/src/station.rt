//! A member's station: its node, the taps for its page workers, and its producers.

ghost use Rattle.std.specs.Prelude.{◌≡◌, Bool, List, false, None, [], length, vec_len, map, IfOk, IfErr, IfSome, MatchResult};
ghost use Rattle.srm_names.specs.declared.limits.TheConstants.{PAGES, PENS};
ghost use Rattle.srm_pages.specs.Ends.{AreNewPens};
ghost use Rattle.srm_node.specs.Nodes.{AreNewFeeds};
ghost use Rattle.std.specs.IoError.{error_kind};
ghost use Rattle.srm_node.specs.Calls.{calls_of};
ghost use Rattle.rand_pcg.specs.Pcg.{pcg64};
ghost use Rattle.srm_node.specs.Waits.{ChosenByWords};
ghost use Rattle.srm_node.specs.Hosting.{kinds_of, starts_of, Hosts, HostsWith, HostFails, HostFailsWith, SameWell, SameLines, AreEndsOfLanes};
ghost use Rattle.srm_udp.specs.Clocks.{NeverFalls};
ghost use Rattle.srm_udp.specs.Resting.{new_rested};
ghost use Rattle.srm_guarded.specs.Guarding.{guarded_wire};
ghost use Rattle.srm_member.specs.Sinks.{NeverStops};
ghost use Rattle.srm_member.specs.declared.sink.Unseen.{Unseen};
ghost use Rattle.srm_timers.specs.Seeds.{words_of};
ghost use Rattle.srm_member.specs.Stations.{AreNewTaps, BeginsIn, IsNewStation};
ghost use Rattle.srm_script.specs.declared.fault.ScriptFault.TheVariants.{Memory};
ghost use Rattle.srm_member.specs.declared.fault.MemberFault.TheVariants.{Script};
ghost use Rattle.srm_member.specs.Statuses.{fault_of_binding_at};
ghost use Rattle.srm_member.specs.Strokes.{PensDrew, pens_with};

use crate::fault::MemberFault;
use crate::noting::{Keeping, Notes, Noting, note_if, share_keeping};
use crate::pens::{DonePens, PenThreads, Waking, share_waker};
use crate::recording::{beginning_of, keep_note, remove_record};
use crate::sink::{Unseen, sinks};
use bytes::Bytes;
use srm_agent::{Config, Entry};
use srm_guard::{Guard, Seal};
use srm_guarded::{Guarded, bind_guarded};
use srm_names::PageMsg;
use srm_node::{Hosted, Node, NodeEnds, PageSink, host_with_ends};
use srm_options::NodeOptions;
use srm_pages::ends::Well;
use srm_pages::{Feed, Inked, Pen, Tap, lanes, well};
use srm_record::Written;
use srm_script::ScriptFault;
use srm_timers::Pcg;
use srm_udp::{Rested, SystemClock, UdpWire};
use srm_wire::Wire;
use srm_world::Past;
use std::alloc::{AllocError, Global};
use std::io::Write;
use std::net::{Net, SocketAddr};
use std::rt::Files;
use std::sync::Wait;
use std::thread::Threads;
use std::{io, time};

/// A member's station: its node over a wire and the system's clock, the taps of its page workers, and its producers. The wire is UDP, and the node keeps its
/// entries, unless the types name others.
#[derive(Drop)]
pub struct Station<
    R: time::Clock + Drop,
    X: Wire + Drop = UdpWire,
    P: Past<Entry> + Drop = Vec<Entry>,
> {
    /// The node.
    pub node: Node<Pcg, X, SystemClock<R>, P>,
    /// The taps of its page workers, by page slot.
    pub taps: Vec<Tap>,
    /// Its four producers, by number.
    pub pens: Vec<Pen>,
    /// The handle that ends a pause of the node's wire, for whoever puts a stroke into its queue; `None` if the wire has none.
    pub waker: Waking,
}

impl<R: time::Clock + Copy + Drop, F: Write + Drop, P: Past<Entry> + Drop> Station<
    R,
    Rested<R, Guard<UdpWire>>,
    Written<F, P>,
> {
    /// Binds a member to its own address, with the guard that its options ask for, and `seal` as [`seal_by`](srm_guarded::seal_by) makes it of their key: without
    /// it nothing is tagged or checked, even if the options name a key file. The node's entries go to `file`, if there is one, which was made at the path that the options name, and then to `past`,
    /// which is empty. The node leaves `stay` microseconds after its start, and lets no more be missing than `guard.most_missing`. `linger`, `live` and `turns` aren't used.
    ///
    /// Returns the station, and where it notes what fails: its wire's first failure if `verbose` is set, and why its record isn't written any more. Fails with
    /// [`MemberFault::Wire`] if the address can't be bound, or with [`MemberFault::Binding`] and the cause if `verbose` is set; with `Wire` if the clock can't be read;
    /// and if out of memory. The file is removed then.
    pub fn bind(
        rt: &R,
        alloc: Global,
        options: NodeOptions,
        seal: Option<Seal>,
        file: Option<F>,
        past: P,
    ) -> Result<(Station<R, Rested<R, Guard<UdpWire>>, Written<F, P>>, Notes), MemberFault>
    where
        R: Net + Files,
        requires { P.appended past ≡ [] }
        ensures new { IfOk result (λ n. IsNewStation options.config options.stay options.guard.most_missing None (new_rested (guarded_wire options.addresses.items options.guard seal)) n.0.node.view n.0.taps.items n.0.pens.items) }
        ensures words { IfOk result (λ n. n.0.node.words ≡ words_of options.seed) }
        ensures begins { IfOk result (λ n. BeginsIn F.contents file options.seed n.0.node.view.journal.start n.0.node.begins) }
    {
        let mut options = options;
        let path = options.record.take();
        let record = keep_note(rt, alloc, path, file.is_some())?;
        match Station::bind_keeping(rt, alloc, options, seal, file, past, &record) {
            Ok((station, wire)) => Ok((station, Notes { wire, record })),
            Err(fault) => {
                remove_record(rt, &record);
                Err(fault)
            }
        }
    }

    // Does the same, whatever path the options name. Why the file lacks something is noted in `keeping`.
    fn bind_keeping(
        rt: &R,
        alloc: Global,
        options: NodeOptions,
        seal: Option<Seal>,
        file: Option<F>,
        past: P,
        keeping: &Keeping,
    ) -> Result<(Station<R, Rested<R, Guard<UdpWire>>, Written<F, P>>, Noting), MemberFault>
    where
        R: Net,
        requires { P.appended past ≡ [] }
        ensures new { IfOk result (λ n. IsNewStation options.config options.stay options.guard.most_missing None (new_rested (guarded_wire options.addresses.items options.guard seal)) n.0.node.view n.0.taps.items n.0.pens.items) }
        ensures words { IfOk result (λ n. n.0.node.words ≡ words_of options.seed) }
        ensures begins { IfOk result (λ n. BeginsIn F.contents file options.seed n.0.node.view.journal.start n.0.node.begins) }
    {
        let beginning = beginning_of(rt, &options);
        let NodeOptions {
            config,
            seed,
            stay,
            verbose,
            guard,
            addresses,
            ..
        } = options;
        let me = config.me();
        let most = guard.most_missing;
        let told = if verbose {
            addresses.get(me.index()).copied()
        } else {
            None
        };
        match bind_guarded(rt, alloc, config, &guard, seal, addresses) {
            Ok(
                Guarded {
                    wire,
                    waker,
                    failure,
                },
            ) => {
                let wire = Rested::new(*rt, wire);
                let past = Written::new(alloc, file, beginning, past, share_keeping(keeping));
                match Station::make(rt, alloc, config, seed, stay, most, wire, waker, past) {
                    Ok(station) => Ok((station, note_if(verbose, failure))),
                    Err(fault) => Err(fault),
                }
            }
            Err(error) => Err(binding_fault(told, error)),
        }
    }
}

// The fault where an address can't be bound, which is told with its cause if it is to be told at all.
fn binding_fault(told: Option<SocketAddr>, error: io::Error) -> MemberFault
    ensures { result ≡ fault_of_binding_at told (error_kind error) }
{
    match told {
        Some(address) => MemberFault::of_bind(address, error),
        None => MemberFault::of_binding(error),
    }
}

impl<R: time::Clock + Copy + Drop, X: Wire + Drop> Station<R, X> {
    /// Makes a member's station over a wire of the caller's, which sends as this member to this roster. No call of the wire has failed. Of the options it uses
    /// `config`, `seed`, `stay` and `guard.most_missing`: the rest of the guard is not applied, since that is the wire's. No handle ends the wire's pauses.
    ///
    /// Fails with [`MemberFault::Wire`] if the clock can't be read, and with [`ScriptFault::Memory`](srm_script::ScriptFault) in [`MemberFault::Script`] if out of
    /// memory.
    pub fn over(
        rt: &R,
        alloc: Global,
        options: &NodeOptions,
        wire: X,
    ) -> Result<Station<R, X>, MemberFault>
        requires { X.failure_count wire ≡ 0 }
        ensures new { IfOk result (λ s. IsNewStation options.now.config options.now.stay options.now.guard.most_missing (X.told wire) wire s.node.view s.taps.items s.pens.items) }
        ensures words { IfOk result (λ s. s.node.words ≡ words_of options.now.seed) }
    {
        let (config, seed, stay) = (options.config, options.seed, options.stay);
        let most = options.guard.most_missing;
        let past = Vec::new(alloc);
        Station::make(rt, alloc, config, seed, stay, most, wire, None, past)
    }
}

impl<R: time::Clock + Copy + Drop, X: Wire + Drop, P: Past<Entry> + Drop> Station<R, X, P> {
    /// Runs the node in this thread, and its page workers and producers in one thread each, until all have ended. The k-th producer draws the k-th list of bodies; a
    /// fifth list isn't drawn.
    ///
    /// `turns` is the most turns of the node. Strokes are drawn on page 0.0; a body of more than 1,024 bytes is dropped by the node. Returns what became of the node
    /// and its workers, also after a fault of the run. Fails only with [`ScriptFault::Memory`](srm_script::ScriptFault): if out of memory, if `dealt` has fewer
    /// lists than there are producers, or if a producer's thread can't be started. The node drew nothing then, and is dropped. The type that the caller names for
    /// the workers' lists says how they are kept, as with [`host`](srm_node::host).
    pub fn run<L: Past<PageMsg> + Send + Drop + 'static>(
        self,
        rt: &R,
        alloc: Global,
        dealt: Vec<Vec<Bytes>>,
        turns: u64,
    ) -> Result<Hosted<P, L>, MemberFault>
    where
        R: Threads + Wait + Send + 'static,
        requires { vec_len self.taps ≡ PAGES }
        ensures hosts { IfOk result (λ h. (sinks : List Unseen) × (length sinks ≡ PAGES) × MatchResult h.end (λ _. Hosts (calls_of NeverFalls X.receives X.sends X.pauses) (kinds_of L.appended L.is_refused NeverStops) self.node.view (starts_of self.taps.items sinks) turns h)
            (λ fault. (all : Bool) × HostFails (calls_of NeverFalls X.receives X.sends X.pauses) (kinds_of L.appended L.is_refused NeverStops) all self.node.view (starts_of self.taps.items sinks) turns fault h)) }
        ensures lanes { IfOk result (λ h. IfOk h.end (λ _. AreEndsOfLanes self.node.view.feeds self.taps.items → AreEndsOfLanes h.feeds.items (map (λ w. w.tap) h.worked.items))) }
        ensures words { IfOk result (λ h. ChosenByWords pcg64 self.node.view.journal self.node.words h.history.journal) }
        ensures begins { IfOk result (λ h. h.history.begins ≡ self.node.begins) }
        ensures memory { IfErr result (λ fault. fault ≡ Script Memory) }
    {
        let ran = self.run_whole(rt, alloc, dealt, turns)?;
        Ok(ran.hosted)
    }

    /// Does what [`run`](Station::run) does, and returns the node's ends of its stroke queue and its control, and the producers too. Each producer sent a prefix of its bodies, and all of
    /// them where `drew_all` says so. Fails as `run` does.
    pub fn run_whole<L: Past<PageMsg> + Send + Drop + 'static>(
        self,
        rt: &R,
        alloc: Global,
        dealt: Vec<Vec<Bytes>>,
        turns: u64,
    ) -> Result<Ran<P, L>, MemberFault>
    where
        R: Threads + Wait + Send + 'static,
        requires { vec_len self.taps ≡ PAGES }
        ensures hosts { IfOk result (λ r. (sinks : List Unseen) × (length sinks ≡ PAGES) × MatchResult r.hosted.end (λ _. HostsWith (calls_of NeverFalls X.receives X.sends X.pauses) (kinds_of L.appended L.is_refused NeverStops) self.node.view (starts_of self.taps.items sinks) turns r.ends r.hosted)
            (λ fault. (all : Bool) × HostFailsWith (calls_of NeverFalls X.receives X.sends X.pauses) (kinds_of L.appended L.is_refused NeverStops) all self.node.view (starts_of self.taps.items sinks) turns fault r.ends r.hosted)) }
        ensures lanes { IfOk result (λ r. IfOk r.hosted.end (λ _. AreEndsOfLanes self.node.view.feeds self.taps.items → AreEndsOfLanes r.hosted.feeds.items (map (λ w. w.tap) r.hosted.worked.items))) }
        ensures well { IfOk result (λ r. IfOk r.hosted.end (λ _. SameWell self.node.view.well r.ends.well)) }
        ensures pens { IfOk result (λ r. PensDrew r.drew_all (pens_with self.pens.items (map (λ bodies. bodies.items) dealt.items)) r.pens.items) }
        ensures words { IfOk result (λ r. ChosenByWords pcg64 self.node.view.journal self.node.words r.hosted.history.journal) }
        ensures begins { IfOk result (λ r. r.hosted.history.begins ≡ self.node.begins) }
        ensures memory { IfErr result (λ fault. fault ≡ Script Memory) }
    {
        match Crew::new(alloc, share_waker(&self.waker)) {
            Ok(crew) => self.run_with(rt, alloc, crew, dealt, turns),
            Err(_) => Err(MemberFault::Script(ScriptFault::Memory)),
        }
    }

    /// Runs the station with the sinks and the threads that it needs. It has one exit, since one that drops a node, whose wire and clock are type
    /// parameters, is dear to prove.
    fn run_with<L: Past<PageMsg> + Send + Drop + 'static>(
        self,
        rt: &R,
        alloc: Global,
        crew: Crew,
        dealt: Vec<Vec<Bytes>>,
        turns: u64,
    ) -> Result<Ran<P, L>, MemberFault>
    where
        R: Threads + Wait + Send + 'static,
        requires taps { vec_len self.taps ≡ PAGES }
        requires sinks { vec_len crew.sinks ≡ PAGES }
        requires threads { crew.threads ≡ [] }
        ensures hosts { IfOk result (λ r. MatchResult r.hosted.end (λ _. HostsWith (calls_of NeverFalls X.receives X.sends X.pauses) (kinds_of L.appended L.is_refused NeverStops) self.node.view (starts_of self.taps.items crew.sinks.items) turns r.ends r.hosted)
            (λ fault. (all : Bool) × HostFailsWith (calls_of NeverFalls X.receives X.sends X.pauses) (kinds_of L.appended L.is_refused NeverStops) all self.node.view (starts_of self.taps.items crew.sinks.items) turns fault r.ends r.hosted)) }
        ensures lanes { IfOk result (λ r. IfOk r.hosted.end (λ _. AreEndsOfLanes self.node.view.feeds self.taps.items → AreEndsOfLanes r.hosted.feeds.items (map (λ w. w.tap) r.hosted.worked.items))) }
        ensures well { IfOk result (λ r. IfOk r.hosted.end (λ _. SameWell self.node.view.well r.ends.well)) }
        ensures pens { IfOk result (λ r. PensDrew r.drew_all (pens_with self.pens.items (map (λ bodies. bodies.items) dealt.items)) r.pens.items) }
        ensures words { IfOk result (λ r. ChosenByWords pcg64 self.node.view.journal self.node.words r.hosted.history.journal) }
        ensures begins { IfOk result (λ r. r.hosted.history.begins ≡ self.node.begins) }
        ensures memory { IfErr result (λ fault. fault ≡ Script Memory) }
    {
        let Station {
            node,
            taps,
            pens,
            ..
        } = self;
        let Crew { sinks, mut threads } = crew;
        let all = threads.start(rt, pens, dealt);
        let hosted = host_if(rt, alloc, all, node, taps, sinks, turns);
        let DonePens {
            inked,
            all: drew_all,
        } = threads.end(rt);
        match hosted {
            Some((hosted, ends)) => Ok(Ran {
                hosted,
                ends,
                pens: inked,
                drew_all,
            }),
            None => Err(MemberFault::Script(ScriptFault::Memory)),
        }
    }
}

/// What became of a station's run: its node with its workers, the node's ends, and its producers, which are done.
#[derive(Drop)]
pub struct Ran<P: Past<Entry> + Drop = Vec<Entry>, L: Past<PageMsg> + Drop = Vec<PageMsg>> {
    /// What became of the node and its workers.
    pub hosted: Hosted<P, L>,
    /// The node's ends of its stroke queue and its control.
    pub ends: NodeEnds,
    /// The producers, which are done, by number.
    pub pens: Vec<Inked>,
    /// Whether each producer sent all of its bodies.
    pub drew_all: bool,
}

impl<R: time::Clock + Copy + Drop, X: Wire + Drop, P: Past<Entry> + Drop> Station<R, X, P> {
    // Makes the station of a member with these settings and this history. It leaves `stay` microseconds after its start, and lets no more than `most_missing` be missing.
    fn make(
        rt: &R,
        alloc: Global,
        config: Config,
        seed: u64,
        stay: u64,
        most_missing: Option<u32>,
        wire: X,
        waker: Waking,
        past: P,
    ) -> Result<Station<R, X, P>, MemberFault>
        requires wire { X.failure_count wire ≡ 0 }
        requires past { P.appended past ≡ [] }
        ensures new { IfOk result (λ s. IsNewStation config stay most_missing (X.told wire) wire s.node.view s.taps.items s.pens.items) }
        ensures words { IfOk result (λ s. s.node.words ≡ words_of seed) }
        ensures begins { IfOk result (λ s. s.node.begins ≡ P.begins past) }
        ensures made { IfOk result (λ s. s.node.view.journal.start.made ≡ 0) }
    {
        let Parts {
            clock,
            feeds,
            taps,
            well,
            pens,
        } = make_parts(rt, alloc)?;
        let words = Pcg::new(seed);
        let mut node = Node::with_past(alloc, config, words, wire, clock, feeds, well, past)?;
        node.ask_leave(stay);
        node.limit_missing(most_missing);
        Ok(Station {
            node,
            taps,
            pens,
            waker,
        })
    }
}

/// The clock of a station's node, and both ends of its lanes and of its stroke queue.
#[derive(Drop)]
struct Parts<R: time::Clock + Drop> {
    clock: SystemClock<R>,
    feeds: Vec<Feed>,
    taps: Vec<Tap>,
    well: Well,
    pens: Vec<Pen>,
}

/// The clock and the ends of a station that did nothing yet. Fails if the clock can't be read or memory ran out.
fn make_parts<R: time::Clock + Copy + Drop>(rt: &R, alloc: Global) -> Result<Parts<R>, MemberFault>
    ensures clock { IfOk result (λ e. e.clock ≡ record { last = None }) }
    ensures feeds { IfOk result (λ e. AreNewFeeds e.feeds.items) }
    ensures taps { IfOk result (λ e. length e.taps.items ≡ PAGES) }
    ensures lanes { IfOk result (λ e. AreEndsOfLanes e.feeds.items e.taps.items) }
    ensures new { IfOk result (λ e. AreNewTaps e.taps.items) }
    ensures well { IfOk result (λ e. e.well.received ≡ []) }
    ensures pens { IfOk result (λ e. (length e.pens.items ≡ PENS) × AreNewPens e.well.well e.pens.items) }
{
    let clock = match SystemClock::new(*rt) {
        Ok(clock) => clock,
        Err(error) => return Err(MemberFault::of_binding(error)),
    };
    let (feeds, taps) = slots(alloc)?;
    let (well, pens) = well(alloc)?;
    Ok(Parts {
        clock,
        feeds,
        taps,
        well,
        pens,
    })
}

/// What a run needs beside its station: a sink for each worker, and the threads of the producers.
#[derive(Drop)]
struct Crew {
    sinks: Vec<Unseen>,
    threads: PenThreads,
}

impl Crew {
    /// No thread is started yet. Fails only if out of memory.
    fn new(alloc: Global, waker: Waking) -> Result<Crew, AllocError>
        ensures sinks { IfOk result (λ crew. vec_len crew.sinks ≡ PAGES) }
        ensures threads { IfOk result (λ crew. crew.threads ≡ []) }
    {
        Ok(Crew {
            sinks: sinks(alloc)?,
            threads: PenThreads::new(alloc, waker)?,
        })
    }
}

/// Runs the node as [`host_with_ends`] does if `started`. Pass whether each thread that draws for it was started. Returns `None`, and drops the node, if not, or if
/// memory ran out before any worker was started.
pub fn host_if<R, X, P, S, L>(
    rt: &R,
    alloc: Global,
    started: bool,
    node: Node<Pcg, X, SystemClock<R>, P>,
    taps: Vec<Tap>,
    sinks: Vec<S>,
    turns: u64,
) -> Option<(Hosted<P, L>, NodeEnds)>
where
    R: time::Clock + Threads + Wait + Copy + Send + Drop + 'static,
    X: Wire + Drop,
    P: Past<Entry> + Drop,
    S: PageSink + Send + Drop + 'static,
    L: Past<PageMsg> + Send + Drop + 'static,
    requires taps { vec_len taps ≡ PAGES }
    requires sinks { vec_len sinks ≡ PAGES }
    ensures refused { started ≡ false → result ≡ None }
    ensures hosts { IfSome result (λ r. MatchResult r.0.end (λ _. HostsWith (calls_of NeverFalls X.receives X.sends X.pauses) (kinds_of L.appended L.is_refused S.sees) node.view (starts_of taps.items sinks.items) turns r.1 r.0)
        (λ fault. (all : Bool) × HostFailsWith (calls_of NeverFalls X.receives X.sends X.pauses) (kinds_of L.appended L.is_refused S.sees) all node.view (starts_of taps.items sinks.items) turns fault r.1 r.0)) }
    ensures lanes { IfSome result (λ r. IfOk r.0.end (λ _. AreEndsOfLanes node.view.feeds taps.items → AreEndsOfLanes r.0.feeds.items (map (λ w. w.tap) r.0.worked.items))) }
    ensures well { IfSome result (λ r. IfOk r.0.end (λ _. SameWell node.view.well r.1.well)) }
    ensures control { IfSome result (λ r. IfOk r.0.end (λ _. SameLines node.view.control r.1.commands)) }
    ensures words { IfSome result (λ r. ChosenByWords pcg64 node.view.journal node.words r.0.history.journal) }
    ensures begins { IfSome result (λ r. r.0.history.begins ≡ node.begins) }
{
    if !started {
        return None;
    }
    match host_with_ends(rt, alloc, node, taps, sinks, turns) {
        Ok(hosted) => Some(hosted),
        Err(_) => None,
    }
}

/// The ends of a lane for each slot. Fails only if out of memory.
fn slots(alloc: Global) -> Result<(Vec<Feed>, Vec<Tap>), AllocError>
    ensures feeds { IfOk result (λ e. AreNewFeeds e.0.items) }
    ensures taps { IfOk result (λ e. vec_len e.1 ≡ PAGES) }
    ensures lanes { IfOk result (λ e. AreEndsOfLanes e.0.items e.1.items) }
    ensures new { IfOk result (λ e. AreNewTaps e.1.items) }
{
    let ends = lanes(alloc, 0)?;
    Ok((ends.feeds, ends.taps))
}
