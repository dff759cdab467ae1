//! A live member: it draws what is typed, and prints what its page workers take as they do.

ghost use Rattle.std.specs.Prelude.{◌≡◌, ◌≤◌, true, None, vec_len, IfOk};
ghost use Rattle.srm_names.specs.declared.limits.TheConstants.{PAGES};
ghost use Rattle.srm_timers.specs.Seeds.{words_of};
ghost use Rattle.srm_node.specs.Calls.{calls_of};
ghost use Rattle.srm_udp.specs.Clocks.{NeverFalls};
ghost use Rattle.srm_udp.specs.Resting.{new_rested};
ghost use Rattle.srm_guarded.specs.Guarding.{guarded_wire};
ghost use Rattle.srm_member.specs.Stations.{BeginsIn, HasNewEnds, IsNewStation};
ghost use Rattle.srm_script.specs.declared.fault.ScriptFault.TheVariants.{Memory};
ghost use Rattle.srm_member.specs.declared.fault.MemberFault.TheVariants.{Script};
ghost use Rattle.srm_live.specs.declared.live_fault.LiveFault.TheVariants.{Member};
ghost use Rattle.srm_live.specs.declared.live_fault.TheConstants.{WAS_BEFORE};
ghost use Rattle.srm_live.specs.LiveMembers.{LivesFrom, LivesWith, LivesWhole};
ghost use Rattle.srm_live.specs.LiveStatuses.{IsLiveStatus, IsWholeEnd, IsWholeStatus, fault_if_cut, status_of_live};

use crate::desk::Desk;
use crate::hosting::{LiveEnd, host_live};
use crate::lingering::Staying;
use crate::live_fault::LiveFault;
use crate::live_sink::{Printing, printing_sinks};
use crate::need::Need;
use crate::news::{Told, tell_news};
use crate::shown_pages::ShownPages;
use crate::teller::Teller;
use crate::telling::{start_telling, tell_wire, told_by};
use crate::unfinished::tell_unfinished;
use crate::watched::Watched;
use srm_agent::Entry;
use srm_guard::{Guard, Seal};
use srm_guarded::{read_key, seal_by};
use srm_member::{MemberFault, Notes, Station, open_record, share_keeping, told_with};
use srm_node::PageSink;
use srm_options::NodeOptions;
use srm_record::Written;
use srm_script::ScriptFault;
use srm_udp::{Rested, UdpWire};
use srm_wire::Wire;
use srm_world::Past;
use std::alloc::{AllocError, Global};
use std::fs::OpenFile;
use std::io::{IsTerminal, Read, Write};
use std::net::Net;
use std::rt::Files;
use std::sync::{Arc, Wait};
use std::thread::Threads;
use std::time;

/// Runs a member with these options: draws each line of the input as it comes, by one producer, and prints what its page workers take as they take it. After the end
/// of input it stays for `stay` microseconds, lingers until for `linger` microseconds, or for 5 seconds if it misses something, nobody needed what it holds and nothing that it
/// missed came, for 30 seconds at most and not if it is alone, and leaves.
///
/// A line that is too long is told to `err` and not drawn. A line that begins with a slash is a command: `/page C.P`, `/new`, `/pages`, `/who`, `/leave` or `/help`; `err`
/// gets a line for any other. A line that begins with two slashes is a stroke with one slash less. Strokes go on the page that `/page` or `/new` turned to last, and
/// before that on page 0.0. The pages that have strokes are shown in turn, each until a session message told of it. The options' `live` and `verbose` aren't used: the
/// cause of a failed bind or a failed call is always told. An input may return `WouldBlock` where nothing is there yet, and is asked again: after a millisecond, or at once if its read took
/// as long. While a read waits, the member can't end.
///
/// `err` gets who of the others is here, falls silent for ten seconds or leaves; once each that the member was in the session before, that a datagram of another session came, that one came that
/// is too long, and that nobody was heard for ten seconds from the start; within a second why its record's file takes no more; why its address can't be bound or its socket failed; and at the end who wasn't heard
/// leaving, which streams miss drawops, what the network refused and what was dropped. If `err` is a terminal, the title of its window says each second what goes on.
///
/// A failing output or input and running out of memory end the reading; the member stays and leaves all the same, since others may need what it holds. Then `err` gets one fault: out of memory, else
/// what ended the node's run, else that the file hasn't the whole record, else the output, else the input. If none of these befell it, and yet not all that was typed was drawn, up to the end of
/// the input or `/leave`, or not all that the workers took was printed, the fault is out of memory.
///
/// Returns the program's status: 0; 1 if the key file can't be used, a stream fails, or the record can't be made or written whole; 3 if the socket or the clock fails; 4 if memory ran out, a worker's too, or
/// all turns were spent; [`WAS_BEFORE`](crate::WAS_BEFORE), 5, if all went well but the member was in the session before. Neither a line that is too long nor a long
/// input is a fault. All threads that it started have ended then.
#[tactic(auto, using(crate::proofs::LiveMembers::never_whole))]
pub fn run_live<R, I, O, E>(rt: &R, options: NodeOptions, reader: I, out: O, err: E) -> u8
where
    R: Net + Files + time::Clock + Threads + Wait + AllocGlobal + Copy + Send + Drop + 'static,
    I: Read + Send + Drop + 'static,
    O: Write + Send + Drop + 'static,
    E: Write + IsTerminal + Send + Drop + 'static,
    ensures ends { IsLiveStatus result }
    ensures greatest { result ≤ WAS_BEFORE }
    ensures whole { IsWholeStatus result → LivesWhole R.File.contents R.File.remaining options (I.remaining reader) }
{
    let alloc = rt.alloc();
    match Arc::new(
        alloc,
        Desk::new(alloc, &options.names, options.config, out, err),
    ) {
        Ok(desk) => run_at(rt, alloc, options, reader, &desk),
        Err(failed) => print(rt, &failed.value, &out_of_memory()),
    }
}

// Runs the member at a desk, and returns its status.
#[tactic(auto, using(crate::proofs::LiveMembers::lives_whole, crate::proofs::LiveMembers::whole_by_status, crate::proofs::LiveMembers::never_whole))]
fn run_at<R, I, O, E>(
    rt: &R,
    alloc: Global,
    options: NodeOptions,
    reader: I,
    desk: &Arc<Desk<O, E>, Global>,
) -> u8
where
    R: Net + Files + time::Clock + Threads + Wait + Copy + Send + Drop + 'static,
    I: Read + Send + Drop + 'static,
    O: Write + Send + Drop + 'static,
    E: Write + Send + Drop + 'static,
    ensures ends { IsLiveStatus result }
    ensures greatest { result ≤ WAS_BEFORE }
    ensures whole { IsWholeStatus result → LivesWhole R.File.contents R.File.remaining options (I.remaining reader) }
{
    let Ok(sinks) = printing_sinks(rt, alloc, &options.names, options.config.me(), desk) else {
        return print(rt, desk, &out_of_memory());
    };
    match run_printing(rt, alloc, options, reader, sinks, desk) {
        Some(fault) => print(rt, desk, &fault),
        None => 0,
    }
}

fn out_of_memory() -> LiveFault
    ensures { result ≡ Member (Script Memory) }
{
    LiveFault::Member(MemberFault::Script(ScriptFault::Memory))
}

// Tells why the member isn't run, or not to its end.
fn print<R: Wait, O: Write, E: Write>(rt: &R, desk: &Desk<O, E>, fault: &LiveFault) -> u8
    ensures status { result ≡ status_of_live fault.now }
    ensures greatest { result ≤ WAS_BEFORE }
{
    desk.print_fault(rt, fault)
}

// Runs the member over its own address, with a sink for each slot. Why it wasn't run to its end, if it wasn't.
#[tactic(auto, using(crate::proofs::LiveMembers::lives_with, crate::proofs::LiveMembers::not_whole))]
fn run_printing<R, I, O, E>(
    rt: &R,
    alloc: Global,
    options: NodeOptions,
    reader: I,
    sinks: Vec<Printing<R, O, E>>,
    desk: &Arc<Desk<O, E>, Global>,
) -> Option<LiveFault>
where
    R: Net + Files + time::Clock + Threads + Wait + Copy + Send + Drop + 'static,
    I: Read + Send + Drop + 'static,
    O: Write + Send + Drop + 'static,
    E: Write + Send + Drop + 'static,
    requires { vec_len sinks ≡ PAGES }
    ensures { IsWholeEnd result → LivesWith R.File.contents R.File.remaining options (I.remaining reader) sinks.items }
{
    let turns = options.turns;
    let Ok(staying) = staying_of(alloc, &options) else {
        return Some(out_of_memory());
    };
    let key = match read_key(rt, alloc, &options.guard) {
        Ok(key) => key,
        Err(fault) => return Some(LiveFault::Member(MemberFault::from(fault))),
    };
    let seal = match seal_by(rt, alloc, key, options.config.me()) {
        Ok(seal) => seal,
        Err(fault) => return Some(LiveFault::Member(MemberFault::from(fault))),
    };
    let record = match open_record(rt, alloc, &options) {
        Ok(record) => record,
        Err(fault) => return Some(LiveFault::Member(fault)),
    };
    match bind(rt, alloc, options, seal, record, &staying, desk) {
        Ok((station, notes)) => run_bound(
            rt, alloc, station, notes, reader, sinks, staying, turns, desk,
        ),
        Err(fault) => Some(LiveFault::Member(fault)),
    }
}

// Runs a member that is bound, whose node is asked for pages. Why it wasn't run to its end, if it wasn't.
#[tactic(auto, using(crate::proofs::LiveRuns::control_is, crate::proofs::LiveMembers::lives_from, crate::proofs::LiveMembers::not_whole))]
fn run_bound<R, X, F, P, S, I, O, E>(
    rt: &R,
    alloc: Global,
    station: Station<R, X, Written<F, P>>,
    notes: Notes,
    reader: I,
    sinks: Vec<S>,
    staying: Staying,
    turns: u64,
    desk: &Arc<Desk<O, E>, Global>,
) -> Option<LiveFault>
where
    R: time::Clock + Threads + Wait + Copy + Send + Drop + 'static,
    X: Wire + Drop,
    F: Write + OpenFile + Drop,
    P: Past<Entry> + Drop,
    S: PageSink + Send + Drop + 'static,
    I: Read + Send + Drop + 'static,
    O: Write + Send + Drop + 'static,
    E: Write + Send + Drop + 'static,
    requires new { HasNewEnds station.node.view station.taps.items station.pens.items }
    requires sinks { vec_len sinks ≡ PAGES }
    ensures { IsWholeEnd result → LivesFrom (calls_of NeverFalls X.receives X.sends X.pauses) S.sees F.contents turns (I.remaining reader) station.node.view station.node.words station.node.begins sinks.items }
{
    let mut station = station;
    let Ok(control) = station.node.control(alloc) else {
        return Some(out_of_memory());
    };
    let pages = ShownPages::new(alloc, control);
    let telling = start_telling(rt, desk, share_keeping(&notes.record));
    let run = host_live(
        rt, alloc, station, pages, sinks, reader, staying, turns, desk,
    );
    let told = told_by(rt, telling);
    let was_before = tell_last(rt, told, desk);
    end(rt, run, &notes, was_before, desk)
}

// Tells what wasn't told yet, what wasn't heard to its end, and what was lost on its way out. Whether the member was in the session before.
fn tell_last<R: Wait, O: Write, E: Write>(rt: &R, told: Told, desk: &Desk<O, E>) -> bool {
    let Some(tally) = desk.tally() else {
        return false;
    };
    let _ = tell_news(rt, tally, told, desk);
    tell_unfinished(rt, tally, desk);
    tell_wire(rt, tally, desk);
    tally.was_before()
}

// How long the member stays, by its options. Who is alone lingers for nobody.
fn staying_of(alloc: Global, options: &NodeOptions) -> Result<Staying, AllocError> {
    let is_alone = options.config.members() == 1;
    Ok(Staying {
        stay: options.stay,
        linger: if is_alone { 0 } else { options.linger },
        need: Arc::new(alloc, Need::new())?,
    })
}

// A live member's station, which keeps no entry, so that it may run for days. It leaves as soon as its producers are done: when it has stayed.
fn bind<R, F, O, E>(
    rt: &R,
    alloc: Global,
    options: NodeOptions,
    seal: Option<Seal>,
    file: Option<F>,
    staying: &Staying,
    desk: &Desk<O, E>,
) -> Result<
    (
        Station<R, Rested<R, Guard<UdpWire>>, Written<F, Watched>>,
        Notes,
    ),
    MemberFault,
>
where
    R: Net + Files + time::Clock + Copy + Drop,
    F: Write + Drop,
    O: Write,
    E: Write,
    ensures new { IfOk result (λ b. IsNewStation options.config 0 options.guard.most_missing None (new_rested (guarded_wire options.addresses.items options.guard seal)) b.0.node.view b.0.taps.items b.0.pens.items) }
    ensures words { IfOk result (λ b. b.0.node.words ≡ words_of options.seed) }
    ensures begins { IfOk result (λ b. BeginsIn F.contents file options.seed b.0.node.view.journal.start b.0.node.begins) }
{
    let need = Arc::try_clone(&staying.need).ok();
    let past = Watched::new(alloc, options.config, need, desk.share_tally());
    let mut options = options;
    options.stay = 0;
    // The cause of a failed bind or call is always told.
    options.verbose = true;
    Station::bind(rt, alloc, options, seal, file, past)
}

// Prints the end of a whole run. Why it was none, by why the node's run wasn't, what befell the streams and whether all was drawn and printed, and whether the member was in the session before. A wire that
// failed is told with the call that failed, and a record that lacks something with its path and the cause.
#[tactic(auto, using(crate::proofs::LiveMembers::whole_end))]
fn end<R: Wait, O: Write, E: Write>(
    rt: &R,
    run: LiveEnd,
    notes: &Notes,
    was_before: bool,
    desk: &Desk<O, E>,
) -> Option<LiveFault>
    ensures { IsWholeEnd result → (run.fault ≡ None) × (run.is_complete ≡ true) }
{
    let LiveEnd { fault, is_complete } = run;
    if fault.is_none() {
        desk.print_gone(rt);
    }
    let told = told_with(fault, desk.alloc(), notes);
    let fault = MemberFault::of_live(told, desk.noted());
    LiveFault::of_end(or_cut(fault, is_complete), was_before)
}

// This fault, or if there is none and not all was drawn and printed, that memory ran out.
fn or_cut(fault: Option<MemberFault>, is_complete: bool) -> Option<MemberFault>
    ensures { result ≡ fault_if_cut is_complete fault }
{
    match fault {
        None if !is_complete => Some(MemberFault::Script(ScriptFault::Memory)),
        fault => fault,
    }
}
