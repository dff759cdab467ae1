//! A member that takes part in a session.

ghost use Rattle.std.specs.Prelude.{◌≡◌, ◌<◌, ◌≤◌, [], Some, None, IfOk, MatchResult};
ghost use Rattle.srm_names.specs.declared.limits.TheConstants.{LATEST_MOMENT, PAGES};
ghost use Rattle.srm_names.specs.Moments.{has_come};
ghost use Rattle.srm_control.specs.Ends.{new_control, new_commands};
ghost use Rattle.srm_node.specs.Counting.{counts_of};
ghost use Rattle.srm_node.specs.Calls.{calls_of};
ghost use Rattle.srm_node.specs.Nodes.{NodeKeepsLists, AreNewFeeds, IsNewJournal, IsNewNode, IsMadeNow, has_ended, recorded_in};
ghost use Rattle.srm_node.specs.Limits.{with_excess, with_most};
ghost use Rattle.srm_node.specs.Parts.{still_asked};
ghost use Rattle.srm_node.specs.Waits.{WaitsByWords};
ghost use Rattle.srm_node.specs.Moments.{GrowsNow};
ghost use Rattle.srm_node.specs.Turns.{ReadsNow, HearsNow, LooksNow, DrawsNow, LeavesNow, ShowsNow, TicksNow, GivesNow, HearsCut, DrawsCut, ShowsCut, GivesCut, TurnEnds, Paused, RunEnds};

mod asking;

use crate::counting::{Counts, counts_in};
use crate::drawing::{draw_strokes, strokes_after};
use crate::ending::is_ended;
use crate::fault::{NodeFault, OutOfMemory};
use crate::giving::give_all;
use crate::listening::{Listening, listen};
use crate::missing_limit::{MissingLimit, with_excess};
use crate::pausing::{Turn, time_to_pause};
use crate::sending::send_all;
use crate::showing::show_asked;
use crate::spare::{Spare, make_spare};
use crate::ticking::{leave, tick};
use srm_agent::{Config, Entry};
use srm_control::{PageCommands, PageControl, page_control};
use srm_deadlines::lesser;
use srm_names::{LATEST_MOMENT, has_come};
use srm_pages::ends::Well;
use srm_pages::{Feed, Stroke};
use srm_timers::Words;
use srm_wire::{Clock, Wire, WireCounts};
use srm_world::{Forgotten, History, Journal, Past, Recorder};
use std::alloc::{AllocError, Global};
use std::marker::Model;
use std::sync::Wait;

/// A member that takes part in a session: its agent, a wire, a clock, the feeds of its page workers, its stroke queue, and its end of a control if it has one.
///
/// All times are microseconds. Contracts see a record of these parts, with the wire and the clock as they stand, the generator of random numbers, and how the record begins that the
/// history is written to, if it is written to one.
#[derive(Drop)]
pub struct Node<
    W: Words + Drop,
    X: Wire + Drop,
    C: Clock + Drop,
    P: Past<Entry> + Drop = Vec<Entry>,
> {
    config: Config,
    recorder: Recorder<W, P>,
    feeds: Vec<Feed>,
    well: Well,
    hand: Option<Stroke>,
    wire: X,
    clock: C,
    buffer: Vec<u8>,
    // When it is to leave, if it was asked to and hasn't left.
    asked: Option<u64>,
    commands: Option<PageCommands>,
    // How much may be missing, and what was dropped for it.
    limit: MissingLimit,
    // For each feed, whether it put its close.
    closed: Vec<bool>,
    // What the last turn did.
    last: Turn,
}

impl<W: Words + Drop, X: Wire + Drop, C: Clock + Drop, P: Past<Entry> + Drop> Model
    for Node<W, X, C, P> {
    ghost use Rattle.std.specs.Prelude.{vec_len};
    ghost use Rattle.srm_node.specs.Nodes.{NodeState, IsNode};

    ghost Value = { NodeState W X C };

    ghost view = { λ n. record {
      view = record {
        limit = n.limit;
        journal = n.recorder.journal;
        feeds = n.feeds.items;
        well = n.well;
        hand = n.hand;
        asked = n.asked;
        control = n.commands;
        failures = X.failure_count n.wire;
        told = X.told n.wire;
        wire = n.wire;
        clock = n.clock;
      };
      words = n.recorder.words;
      begins = n.recorder.begins;
    } };

    ghost invariant = { λ n. IsNode (record {
      limit = n.limit;
      journal = n.recorder.journal;
      feeds = n.feeds.items;
      well = n.well;
      hand = n.hand;
      asked = n.asked;
      control = n.commands;
      failures = X.failure_count n.wire;
      told = X.told n.wire;
      wire = n.wire;
      clock = n.clock;
    }) n.config (vec_len n.buffer) n.closed.items };
}

impl<W: Words + Drop, X: Wire + Drop, C: Clock + Drop> Node<W, X, C> {
    /// Makes a node that has done nothing yet. Reads the clock once, and makes the member at that moment. Preconditions: `feeds` are eight, the k-th of page slot k,
    /// none has put anything or is disconnected, and nothing was received from `well`. `words` are the member's random numbers.
    ///
    /// Fails only if out of memory.
    pub fn new(
        alloc: Global,
        config: Config,
        words: W,
        wire: X,
        clock: C,
        feeds: Vec<Feed>,
        well: Well,
    ) -> Result<Node<W, X, C>, AllocError>
        requires feeds { AreNewFeeds feeds.items }
        requires well { well.received ≡ [] }
        ensures value { IfOk result (λ node. IsNewNode config feeds.items well (X.failure_count wire) (X.told wire) wire node.view) }
        ensures words { IfOk result (λ node. node.words ≡ words) }
        ensures begins { IfOk result (λ node. node.begins ≡ None) }
        ensures made { IfOk result (λ node. IsMadeNow C.reads clock node.view) }
    {
        let past = Vec::new(alloc);
        Node::with_past(alloc, config, words, wire, clock, feeds, well, past)
    }

    /// Counts how much of what the member was given came to nothing so far. Looks at all entries, and takes no memory.
    pub fn counts(&self) -> Counts
        ensures { result ≡ counts_of self.now.view.journal.entries }
    {
        counts_in(self.recorder.entries())
    }
}

impl<W: Words + Drop, X: Wire + Drop, C: Clock + Drop> Node<W, X, C, Forgotten<Entry>> {
    /// Makes a node as [`new`](Node::new) does, with the same preconditions, that keeps no entry: for a member that runs for days. Its calls have the same
    /// contracts, which speak of the journal that it would keep. Fails only if out of memory.
    pub fn forgetful(
        alloc: Global,
        config: Config,
        words: W,
        wire: X,
        clock: C,
        feeds: Vec<Feed>,
        well: Well,
    ) -> Result<Node<W, X, C, Forgotten<Entry>>, AllocError>
        requires feeds { AreNewFeeds feeds.items }
        requires well { well.received ≡ [] }
        ensures value { IfOk result (λ node. IsNewNode config feeds.items well (X.failure_count wire) (X.told wire) wire node.view) }
        ensures words { IfOk result (λ node. node.words ≡ words) }
        ensures begins { IfOk result (λ node. node.begins ≡ None) }
        ensures made { IfOk result (λ node. IsMadeNow C.reads clock node.view) }
    {
        let past = Forgotten::new();
        Node::with_past(alloc, config, words, wire, clock, feeds, well, past)
    }
}

impl<W: Words + Drop, X: Wire + Drop, C: Clock + Drop, P: Past<Entry> + Drop> Node<W, X, C, P> {
    /// Makes a node as [`new`](Node::new) does, with the same preconditions and a history of the caller's, which is empty. Fails only if out of memory.
    pub fn with_past(
        alloc: Global,
        config: Config,
        words: W,
        wire: X,
        clock: C,
        feeds: Vec<Feed>,
        well: Well,
        past: P,
    ) -> Result<Node<W, X, C, P>, AllocError>
        requires feeds { AreNewFeeds feeds.items }
        requires well { well.received ≡ [] }
        requires past { P.appended past ≡ [] }
        ensures value { IfOk result (λ node. IsNewNode config feeds.items well (X.failure_count wire) (X.told wire) wire node.view) }
        ensures words { IfOk result (λ node. node.words ≡ words) }
        ensures begins { IfOk result (λ node. node.begins ≡ P.begins past) }
        ensures made { IfOk result (λ node. IsMadeNow C.reads clock node.view) }
    {
        let mut clock = clock;
        let now = clock.now().min(LATEST_MOMENT);
        let recorder = Recorder::with_past(alloc, config, words, now, past)?;
        Node::over(alloc, config, recorder, wire, clock, feeds, well)
    }

    // A node over a recorder that did nothing yet.
    fn over(
        alloc: Global,
        config: Config,
        recorder: Recorder<W, P>,
        wire: X,
        clock: C,
        feeds: Vec<Feed>,
        well: Well,
    ) -> Result<Node<W, X, C, P>, AllocError>
        requires recorder { IsNewJournal config recorder.journal }
        requires feeds { AreNewFeeds feeds.items }
        requires well { well.received ≡ [] }
        ensures value { IfOk result (λ node. IsNewNode config feeds.items well (X.failure_count wire) (X.told wire) wire node.view) }
        ensures words { IfOk result (λ node. node.words ≡ recorder.words) }
        ensures begins { IfOk result (λ node. node.begins ≡ recorder.begins) }
        ensures clock { IfOk result (λ node. node.view.clock ≡ clock) }
        ensures journal { IfOk result (λ node. node.view.journal ≡ recorder.journal) }
    {
        let Spare { buffer, closed } = make_spare(alloc)?;
        Ok(Node {
            config,
            recorder,
            feeds,
            well,
            hand: None,
            wire,
            clock,
            buffer,
            asked: None,
            commands: None,
            limit: MissingLimit {
                most: None,
                excess: 0,
                unjudged: 0,
            },
            closed,
            // The first turn comes at once.
            last: Turn::full(),
        })
    }

    /// Asks the node to leave from the moment `at` on, in microseconds. It leaves in its first turn from then on that finds no stroke in the queue or in hand after
    /// all four producers are [`done`](srm_pages::Pen::done); a producer that was dropped isn't. A later call replaces an earlier one. A clock past 2^48 counts as
    /// 2^48, so a moment after that never comes. Takes no memory.
    pub fn ask_leave(&mut self, at: u64)
        ensures { self.new ≡ record self.old { view = record self.old.view { asked = Some at } } }
    {
        self.asked = Some(at);
    }

    /// Sets how many drawops may be missing; `None`, as at first, for any number. From now on a datagram that would make drawops missing, and then more than `most`, is
    /// dropped as if the network had lost it: it has no entry, and is counted ([`excess`](Node::excess)). So is one for which memory runs out as the node looks at what it
    /// would make missing. A datagram that makes nothing missing is heard, however much is missing already.
    ///
    /// A member that is further behind than this never catches up, since what tells it of the missing drawops is dropped. Takes no memory.
    pub fn limit_missing(&mut self, most: Option<u32>)
        ensures { self.new ≡ record self.old { view = record self.old.view { limit = with_most most self.old.view.limit } } }
    {
        self.limit.most = most;
    }

    /// Returns how many datagrams were dropped since they would have made too much missing, or since memory ran out as the node looked at that, up to 2^64 - 1.
    pub fn excess(&self) -> u64
        ensures { result ≡ self.now.view.limit.excess }
    {
        self.limit.excess
    }

    /// Returns what the wire has counted so far, and with it the datagrams that the node dropped ([`excess`](Node::excess)). Takes no memory.
    pub fn wire_counts(&self) -> WireCounts
        ensures { result ≡ with_excess self.now.view.limit.excess (X.counted self.now.view.wire) }
    {
        let counts = self.wire.counts();
        with_excess(counts, self.limit.excess)
    }

    /// Makes a handle for one other thread, which shows and begins pages of the member. Each turn carries out its next command, in order, and answers it. A handle
    /// that was made before is disconnected: its commands that have no answer get none. A pausing node finds a command within 10 ms, or at once if its wire is
    /// woken.
    ///
    /// Fails only if out of memory, and then nothing has changed.
    pub fn control(&mut self, alloc: Global) -> Result<PageControl, AllocError>
        ensures { MatchResult result
            (λ control. (control ≡ new_control control.out control.back) × (self.new ≡ record self.old { view = record self.old.view { control = Some (new_commands control.out control.back) } }))
            (λ _. self.new ≡ self.old) }
    {
        let (control, commands) = page_control(alloc)?;
        self.commands = Some(commands);
        Ok(control)
    }

    /// Turns once: the member hears, draws, leaves, shows a page, ticks and gives, as far as there is cause. The clock is read once, for the whole turn.
    ///
    /// 1. It hears up to 64 datagrams, until none is there or a receive fails. One that would make more missing than may be is dropped
    ///    ([`limit_missing`](Node::limit_missing)), and is one of the 64.
    /// 2. It draws up to 64 strokes less the datagrams that came, but up to 8 in any case, as long as the rate lets each go at once. A stroke that the rate keeps back
    ///    is in hand for the next turn. One that the agent refuses is dropped, and counted ([`counts`](Node::counts)).
    /// 3. It leaves if it was asked to by now, no stroke is left, and the queue was empty after a look that found all producers done.
    /// 4. It carries out the next command of its control, if there is one, and answers it.
    /// 5. It ticks, and sends what the tick sends to every other member, in rising order.
    /// 6. It gives each page slot messages while there is credit.
    /// 7. It lets its history see how the member stands, and what the wire has counted and the node dropped ([`Past::turned`]). A turn that runs out of memory isn't seen.
    ///
    /// Returns `Wire` if a call of the wire failed. The turn was done to its end all the same: each datagram was tried to each other member, and what couldn't be sent is
    /// lost. Returns `Memory` if memory ran out, also if a call of the wire failed before. The turn ends in one step then, and the steps before are done: a stroke or a
    /// command stays in hand for the next turn, and a datagram that was being heard is lost. `Turns` is never returned.
    pub fn turn<R: Wait>(&mut self, rt: &R) -> Result<(), NodeFault>
        ensures keeps { NodeKeepsLists self.new.view }
        ensures turns { TurnEnds (calls_of C.reads X.receives X.sends X.pauses) result self.old.view self.new.view }
        ensures moments { GrowsNow C.reads self.old.view self.new.view }
        ensures words { WaitsByWords W.next_word (recorded_in self.old) (recorded_in self.new) }
    {
        let now = self.read_clock();
        let listening = self.listen_now(now)?;
        // Before the queue is drained: a producer that is done in between has sent all that it sends.
        self.look_at_pens();
        let unheard = listening.failed;
        let most = strokes_after(listening.count);
        let none_left = self.draw_now(rt, most, now)?;
        self.leave_now(none_left, now)?;
        self.show_now(rt, now)?;
        let unsent = self.tick_now(now)?;
        self.end_turn(rt)?;
        if unheard | unsent {
            return Err(NodeFault::Wire);
        }
        Ok(())
    }

    /// Returns the history of what the member did so far, as it is kept. Takes no memory.
    pub fn past(&self) -> &P
        ensures entries { P.appended result.now ≡ self.now.view.journal.entries }
        ensures begins { P.begins result.now ≡ self.now.begins }
    {
        self.recorder.past()
    }

    /// Ends the node, and returns its journal and its feeds. Takes no memory.
    pub fn finish(self) -> (Journal<P>, Vec<Feed>)
        ensures journal { result.0 ≡ self.view.journal }
        ensures feeds { result.1.items ≡ self.view.feeds }
        ensures keeps { NodeKeepsLists self.view }
    {
        (self.recorder.finish(), self.feeds)
    }

    /// Ends the node, and returns its history, its feeds, its stroke queue and its end of a control, if it has one. A producer that is done can be put beside the queue
    /// ([`Well::join_pen`]), and a control beside its end ([`settle_control`](srm_control::settle_control)). Takes no memory.
    pub fn into_parts(self) -> (History<P>, Vec<Feed>, Well, Option<PageCommands>)
        ensures journal { result.0.journal ≡ self.view.journal }
        ensures begins { result.0.begins ≡ self.begins }
        ensures feeds { result.1.items ≡ self.view.feeds }
        ensures well { result.2 ≡ self.view.well }
        ensures control { result.3 ≡ self.view.control }
        ensures keeps { NodeKeepsLists self.view }
    {
        let history = self.recorder.into_history();
        (history, self.feeds, self.well, self.commands)
    }

    /// Turns up to `turns` times, with a pause before each turn but a node's first, until the member is gone and each feed has put its close or is disconnected. Reads
    /// the clock once for a pause and once for a turn.
    ///
    /// A pause lasts until something is due or the rate lets the stroke in hand go, at most 10,000 microseconds, and at most 1,000 after a turn that gave a message.
    /// After a turn that heard and drew nothing, and found no command, it lasts at least 1,000. After a turn that heard 64 datagrams, drew all that it might or found a
    /// command there is none. The wire may end a pause sooner.
    ///
    /// Returns the first fault of a turn, or `Turns` if the turns are spent. It may be called again then, and goes on.
    pub fn run<R: Wait>(&mut self, rt: &R, turns: u64) -> Result<(), NodeFault>
        ensures keeps { NodeKeepsLists self.new.view }
        ensures runs { RunEnds (calls_of C.reads X.receives X.sends X.pauses) result turns self.old.view self.new.view }
        ensures words { WaitsByWords W.next_word (recorded_in self.old) (recorded_in self.new) }
    {
        let _ = &self.feeds;
        for done in 0..turns {
            if self.is_ended() {
                return Ok(());
            }
            self.pause();
            self.turn(rt)?;
        }
        if self.is_ended() {
            Ok(())
        } else {
            Err(NodeFault::Turns)
        }
    }

    // Whether the member is gone and each feed has put its close or is disconnected.
    fn is_ended(&self) -> bool
        ensures { result ≡ has_ended self.now.view }
    {
        is_ended(
            self.recorder.state(),
            self.feeds.as_slice(),
            self.closed.as_slice(),
        )
    }

    // Pauses until something is due or the stroke in hand may go, but not long.
    fn pause(&mut self)
        ensures keeps { NodeKeepsLists self.new.view }
        ensures paused { Paused (calls_of C.reads X.receives X.sends X.pauses) self.old.view self.new.view }
        ensures words { self.new.words ≡ self.old.words }
        ensures begins { self.new.begins ≡ self.old.begins }
    {
        let now = self.clock.now().min(LATEST_MOMENT);
        let due = lesser(self.recorder.next_due(), self.hand_due());
        let micros = time_to_pause(self.last, due, now);
        self.wire.pause(micros);
    }

    // When the rate lets the stroke in hand go.
    fn hand_due(&self) -> Option<u64> {
        match &self.hand {
            Some(stroke) => self.recorder.admits_draw_from(stroke.body.len()),
            None => None,
        }
    }

    // Reads the clock. A moment past 2^48 counts as 2^48.
    fn read_clock(&mut self) -> u64
        ensures range { result ≤ LATEST_MOMENT }
        ensures keeps { NodeKeepsLists self.new.view }
        ensures reads { ReadsNow C.reads result self.old.view self.new.view }
        ensures words { WaitsByWords W.next_word (recorded_in self.old) (recorded_in self.new) }
    {
        self.clock.now().min(LATEST_MOMENT)
    }

    // Hears what came.
    fn listen_now(&mut self, now: u64) -> Result<Listening, OutOfMemory>
        requires { now ≤ LATEST_MOMENT }
        ensures keeps { NodeKeepsLists self.new.view }
        ensures hears { MatchResult result (λ heard. HearsNow X.receives now heard.count heard.failed self.old.view self.new.view) (λ _. HearsCut X.receives now self.old.view self.new.view) }
        ensures words { WaitsByWords W.next_word (recorded_in self.old) (recorded_in self.new) }
    {
        let listened = listen(
            &mut self.recorder,
            &mut self.wire,
            self.buffer.as_mut_slice(),
            &mut self.limit,
            now,
        );
        let listening = listened?;
        self.last.heard = listening.count;
        Ok(listening)
    }

    // Looks whether all producers are done.
    fn look_at_pens(&mut self)
        ensures keeps { NodeKeepsLists self.new.view }
        ensures looks { LooksNow self.old.view self.new.view }
        ensures words { WaitsByWords W.next_word (recorded_in self.old) (recorded_in self.new) }
    {
        let _ = self.well.is_done();
    }

    // Draws up to so many strokes, as far as the rate lets them go. Whether none is left.
    fn draw_now<R: Wait>(&mut self, rt: &R, most: u8, now: u64) -> Result<bool, OutOfMemory>
        requires some { 0 < most }
        requires moment { now ≤ LATEST_MOMENT }
        ensures keeps { NodeKeepsLists self.new.view }
        ensures draws { MatchResult result (λ none_left. DrawsNow now most none_left self.old.view self.new.view) (λ _. DrawsCut now most self.old.view self.new.view) }
        ensures words { WaitsByWords W.next_word (recorded_in self.old) (recorded_in self.new) }
    {
        let hand = self.hand.take();
        let (kept, drew) = draw_strokes(rt, &mut self.recorder, &mut self.well, hand, most, now);
        self.hand = kept;
        let drawn = drew?;
        self.last.drawn = drawn.count;
        self.last.most = most;
        Ok(drawn.none_left)
    }

    // Leaves if the node was asked to by now, no stroke is left, and its producers send no more.
    fn leave_now(&mut self, none_left: bool, now: u64) -> Result<(), OutOfMemory>
        requires { now ≤ LATEST_MOMENT }
        ensures keeps { NodeKeepsLists self.new.view }
        ensures leaves { MatchResult result (λ _. LeavesNow now none_left self.old.view self.new.view) (λ _. self.new.view ≡ self.old.view) }
        ensures words { WaitsByWords W.next_word (recorded_in self.old) (recorded_in self.new) }
    {
        let due = self.well.is_drained() & has_come(self.asked, now);
        let leaves = none_left & due;
        let left = leave(&mut self.recorder, leaves, now);
        self.asked = still_asked(leaves & left.is_ok(), self.asked);
        left
    }

    // Carries out the next command of the control, if there is one.
    fn show_now<R: Wait>(&mut self, rt: &R, now: u64) -> Result<(), OutOfMemory>
        requires { now ≤ LATEST_MOMENT }
        ensures keeps { NodeKeepsLists self.new.view }
        ensures shows { MatchResult result (λ _. ShowsNow now self.old.view self.new.view) (λ _. ShowsCut self.old.view self.new.view) }
        ensures words { WaitsByWords W.next_word (recorded_in self.old) (recorded_in self.new) }
    {
        let asked = self.commands.take();
        let (kept, obeyed) = show_asked(rt, &mut self.recorder, asked, now);
        self.commands = kept;
        let found = obeyed?;
        self.last.obeyed = found;
        Ok(())
    }

    // Ticks once, and sends. Whether a call failed.
    fn tick_now(&mut self, now: u64) -> Result<bool, OutOfMemory>
        requires { now ≤ LATEST_MOMENT }
        ensures keeps { NodeKeepsLists self.new.view }
        ensures ticks { MatchResult result (λ unsent. TicksNow X.sends now unsent self.old.view self.new.view) (λ _. self.new.view ≡ self.old.view) }
        ensures words { WaitsByWords W.next_word (recorded_in self.old) (recorded_in self.new) }
    {
        let ticked = tick(&mut self.recorder, now)?;
        Ok(send_all(
            &mut self.wire,
            self.config.me(),
            self.config.members(),
            ticked.outs.as_slice(),
        ))
    }

    // Gives the page slots their messages.
    fn give_now<R: Wait>(&mut self, rt: &R) -> Result<(), OutOfMemory>
        ensures keeps { NodeKeepsLists self.new.view }
        ensures gives { MatchResult result (λ _. GivesNow PAGES self.old.view self.new.view) (λ _. GivesCut self.old.view self.new.view) }
        ensures words { WaitsByWords W.next_word (recorded_in self.old) (recorded_in self.new) }
    {
        let mut gave = false;
        let given = give_all(
            rt,
            &mut self.recorder,
            &mut self.feeds,
            &mut self.closed,
            &mut gave,
        );
        self.last.gave = gave;
        given
    }

    // Does the last two steps of a turn: gives the page slots their messages, and lets the history see the member.
    fn end_turn<R: Wait>(&mut self, rt: &R) -> Result<(), OutOfMemory>
        ensures keeps { NodeKeepsLists self.new.view }
        ensures gives { MatchResult result (λ _. GivesNow PAGES self.old.view self.new.view) (λ _. GivesCut self.old.view self.new.view) }
        ensures words { WaitsByWords W.next_word (recorded_in self.old) (recorded_in self.new) }
    {
        self.give_now(rt)?;
        self.show_turn();
        Ok(())
    }

    // Lets the history see how the member stands, and what the wire has counted and the node dropped.
    fn show_turn(&mut self)
        ensures { self.new ≡ self.old }
    {
        let counts = self.wire_counts();
        self.recorder.turned(&counts);
    }
}

fn still_asked(left: bool, asked: Option<u64>) -> Option<u64>
    ensures { result ≡ still_asked left asked }
{
    if left { None } else { asked }
}
