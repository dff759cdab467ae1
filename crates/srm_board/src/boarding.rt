//! A board from its options to its end.

ghost use Rattle.std.specs.Prelude.{◌≡◌, ◌≤◌, List, Option, vec_len};
ghost use Rattle.srm_record.specs.Begun.{IsRecorded};
ghost use Rattle.srm_names.specs.declared.limits.TheConstants.{PAGES};
ghost use Rattle.srm_names.specs.declared.page_msg.PageMsg.{PageMsg as AMessage};
ghost use Rattle.rand_pcg.specs.Pcg.{pcg64};
ghost use Rattle.srm_node.specs.Calls.{calls_of};
ghost use Rattle.srm_node.specs.Waits.{ChosenByWords};
ghost use Rattle.srm_udp.specs.Clocks.{NeverFalls};
ghost use Rattle.srm_member.specs.Stations.{HasNewEnds};
ghost use Rattle.srm_member.specs.WholeRuns.{IsWholeHost};
ghost use Rattle.srm_live.specs.declared.live_fault.TheConstants.{WAS_BEFORE};
ghost use Rattle.srm_live.specs.LiveStatuses.{IsWholeStatus};
ghost use Rattle.srm_board.specs.BoardRuns.{IsWholeBoardRun, RunsWithFile, RunsWithKey, RunsWithSeal};
ghost use Rattle.srm_board.specs.BoardStatuses.{IsBoardStatus, IsWholeEnd};

use crate::binding::bind;
use crate::board_desk::BoardDesk;
use crate::board_fault::BoardFault;
use crate::hosting::host;
use crate::place::Place;
use crate::preparing::{Prepared, Shared, prepare};
use crate::serving::Opening;
use crate::telling::start_telling;
use srm_agent::Entry;
use srm_guard::{Key, Seal};
use srm_guarded::{read_key, seal_by};
use srm_live::{Need, Staying, Tally, Told, tell_news, tell_wire, told_by};
use srm_member::{MemberFault, Notes, Station, open_record, share_keeping, told_with};
use srm_options::{BoardOptions, NodeOptions};
use srm_record::Written;
use srm_wire::Wire;
use srm_world::Past;
use std::alloc::Global;
use std::fs::OpenFile;
use std::io::{Read, Write};
use std::net::{Net, TcpListener, TcpStream};
use std::random::RandomSource;
use std::rt::Files;
use std::sync::{Arc, Wait};
use std::thread::Threads;
use std::time;

/// Runs a member with a board until the page, or the end of the input, asks it to leave; without an input the page alone does. The member stays while others need
/// what it holds, as the options' `linger` says, and leaves with a farewell. Its wire drops what the options' `guard` says. The options' `stay`, `live` and `verbose`
/// have no effect.
///
/// `err` gets the address of the page once; within a second, once each, that the member was in the session before, that a datagram of another session came, that one came that is too long,
/// that nobody was heard for ten seconds from the start, why its first datagrams are dropped and why its record's file takes no more; at the end what the network refused and what was dropped, by cause; and a fault if there was one.
///
/// Returns the program's status: 0; 1 if the key file can't be used, or the record can't be made or written whole; 3 if the board can't be served at its address, the
/// member's address can't be bound, or the socket or the clock fails, with the call that failed; 4 if memory ran out, a worker's too, or all turns were spent;
/// [`WAS_BEFORE`](srm_live::WAS_BEFORE), 5, if all went well but the member was in the session before. All threads that it started have ended then. At status 0 and 5 the
/// member's node ran to its end over the wire of these options, each page worker took all that its journal gave, its waits are by the random numbers of the options' seed, and its record is stored if the options name a file for it.
#[tactic(auto, using(crate::proofs::BoardRuns::never_whole))]
pub fn run_board<R, I, E>(rt: &R, options: BoardOptions, input: Option<I>, err: E) -> u8
where
    R: Net<Listener = TcpListener, Stream = TcpStream>
        + Files
        + RandomSource
        + time::Clock
        + Threads
        + Wait
        + AllocGlobal
        + Copy
        + Send
        + Drop
        + 'static,
    I: Read + Send + Drop + 'static,
    E: Write + Send + Drop + 'static,
    ensures ends { IsBoardStatus result }
    ensures greatest { result ≤ WAS_BEFORE }
    ensures whole { IsWholeStatus result → IsWholeBoardRun R.File.contents R.File.remaining options.node }
{
    let alloc = rt.alloc();
    let place = Place {
        http: options.http,
        has_token: options.has_token,
    };
    let names = options.node.names.copy_or_none(alloc);
    let desk = BoardDesk::new(alloc, options.node.config.me(), names, err);
    match Arc::new(alloc, desk) {
        Ok(desk) => run_at(rt, alloc, options.node, place, input, &desk),
        Err(failed) => failed.value.print_fault(rt, &BoardFault::memory()),
    }
}

// Runs the member at a desk, and returns its status.
#[tactic(auto, using(crate::proofs::BoardRuns::whole_by_status))]
fn run_at<R, I, E>(
    rt: &R,
    alloc: Global,
    options: NodeOptions,
    place: Place,
    input: Option<I>,
    desk: &Arc<BoardDesk<E>, Global>,
) -> u8
where
    R: Net<Listener = TcpListener, Stream = TcpStream>
        + Files
        + RandomSource
        + time::Clock
        + Threads
        + Wait
        + Copy
        + Send
        + Drop
        + 'static,
    I: Read + Send + Drop + 'static,
    E: Write + Send + Drop + 'static,
    ensures ends { IsBoardStatus result }
    ensures greatest { result ≤ WAS_BEFORE }
    ensures whole { IsWholeStatus result → IsWholeBoardRun R.File.contents R.File.remaining options }
{
    match run(rt, alloc, options, place, input, desk) {
        Some(fault) => desk.print_fault(rt, &fault),
        None => 0,
    }
}

// Runs the member. Returns why it wasn't run to its end, or not as it should be, if so.
#[tactic(auto, using(crate::proofs::BoardRuns::not_whole))]
fn run<R, I, E>(
    rt: &R,
    alloc: Global,
    options: NodeOptions,
    place: Place,
    input: Option<I>,
    desk: &Arc<BoardDesk<E>, Global>,
) -> Option<BoardFault>
where
    R: Net<Listener = TcpListener, Stream = TcpStream>
        + Files
        + RandomSource
        + time::Clock
        + Threads
        + Wait
        + Copy
        + Send
        + Drop
        + 'static,
    I: Read + Send + Drop + 'static,
    E: Write + Send + Drop + 'static,
    ensures { IsWholeEnd result → IsWholeBoardRun R.File.contents R.File.remaining options }
{
    let key = match read_key(rt, alloc, &options.guard) {
        Ok(key) => key,
        Err(fault) => return Some(BoardFault::Member(MemberFault::from(fault))),
    };
    match prepare(rt, alloc, place, &options.names, options.config) {
        Ok(prepared) => run_keyed(rt, alloc, options, key, prepared, input, desk),
        Err(error) => Some(BoardFault::of_serve(place.http, error)),
    }
}

// Does the rest, once the board's address is bound.
#[tactic(auto, using(crate::proofs::BoardRuns::not_whole))]
fn run_keyed<R, I, E>(
    rt: &R,
    alloc: Global,
    options: NodeOptions,
    key: Option<Key>,
    prepared: Prepared<R>,
    input: Option<I>,
    desk: &Arc<BoardDesk<E>, Global>,
) -> Option<BoardFault>
where
    R: Net + Files + RandomSource + time::Clock + Threads + Wait + Copy + Send + Drop + 'static,
    I: Read + Send + Drop + 'static,
    E: Write + Send + Drop + 'static,
    requires { vec_len prepared.sinks ≡ PAGES }
    ensures { IsWholeEnd result → RunsWithKey R.File.contents options key }
{
    match seal_by(rt, alloc, key, options.config.me()) {
        Ok(seal) => run_sealed(rt, alloc, options, seal, prepared, input, desk),
        Err(fault) => Some(BoardFault::Member(MemberFault::from(fault))),
    }
}

// Does the rest, once the member has its seal.
#[tactic(auto, using(crate::proofs::BoardRuns::not_whole))]
fn run_sealed<R, I, E>(
    rt: &R,
    alloc: Global,
    options: NodeOptions,
    seal: Option<Seal>,
    prepared: Prepared<R>,
    input: Option<I>,
    desk: &Arc<BoardDesk<E>, Global>,
) -> Option<BoardFault>
where
    R: Net + Files + RandomSource + time::Clock + Threads + Wait + Copy + Send + Drop + 'static,
    I: Read + Send + Drop + 'static,
    E: Write + Send + Drop + 'static,
    requires { vec_len prepared.sinks ≡ PAGES }
    ensures { IsWholeEnd result → RunsWithSeal R.File.contents options seal }
{
    match open_record(rt, alloc, &options) {
        Ok(file) => run_prepared(rt, alloc, options, seal, file, prepared, input, desk),
        Err(fault) => Some(BoardFault::Member(fault)),
    }
}

// Does the rest, once the file of its record is made, if the options name one.
#[tactic(auto, using(crate::proofs::BoardRuns::not_whole))]
fn run_prepared<R, F, I, E>(
    rt: &R,
    alloc: Global,
    options: NodeOptions,
    seal: Option<Seal>,
    file: Option<F>,
    prepared: Prepared<R>,
    input: Option<I>,
    desk: &Arc<BoardDesk<E>, Global>,
) -> Option<BoardFault>
where
    R: Net + Files + RandomSource + time::Clock + Threads + Wait + Copy + Send + Drop + 'static,
    F: Write + OpenFile + Drop,
    I: Read + Send + Drop + 'static,
    E: Write + Send + Drop + 'static,
    requires { vec_len prepared.sinks ≡ PAGES }
    ensures { IsWholeEnd result → RunsWithFile F.contents file options seal }
{
    let turns = options.turns;
    let linger = linger_of(&options);
    match bind(rt, alloc, options, seal, file, &prepared.shared) {
        Ok((station, notes)) => run_bound(
            rt, alloc, station, notes, prepared, linger, turns, input, desk,
        ),
        Err(fault) => Some(BoardFault::Member(fault)),
    }
}

// Does the rest, once the member's address is bound too.
#[tactic(auto, using(crate::proofs::BoardRuns::whole_end))]
fn run_bound<R, X, F, P, I, E>(
    rt: &R,
    alloc: Global,
    station: Station<R, X, Written<F, P>>,
    notes: Notes,
    prepared: Prepared<R>,
    linger: u64,
    turns: u64,
    input: Option<I>,
    desk: &Arc<BoardDesk<E>, Global>,
) -> Option<BoardFault>
where
    R: Net + RandomSource + time::Clock + Threads + Wait + Copy + Send + Drop + 'static,
    X: Wire + Drop,
    F: Write + OpenFile + Drop,
    P: Past<Entry> + Drop,
    I: Read + Send + Drop + 'static,
    E: Write + Send + Drop + 'static,
    requires new { HasNewEnds station.node.view station.taps.items station.pens.items }
    requires sinks { vec_len prepared.sinks ≡ PAGES }
    ensures { IsWholeEnd result → ((took : List (List AMessage)) × (whole : IsWholeHost (calls_of NeverFalls X.receives X.sends X.pauses) turns station.node.view took) × (file : Option F) × IsRecorded F.contents station.node.begins whole.last.journal.entries took file × ChosenByWords pcg64 station.node.view.journal station.node.words whole.last.journal) }
{
    let Prepared {
        endpoint,
        shared,
        sinks,
    } = prepared;
    let Shared {
        slate,
        need,
        tally,
        ..
    } = shared;
    let opening = Opening {
        endpoint,
        staying: staying_for(linger, need),
        input,
    };
    let telling = start_telling(rt, &tally, share_keeping(&notes.record), desk);
    let run = host(rt, alloc, station, sinks, turns, opening, &slate, desk);
    let told = told_by(rt, telling);
    tell_last(rt, &tally, told, desk);
    BoardFault::of_end(told_with(run, alloc, &notes), tally.was_before())
}

// Tells what wasn't told yet, and what was lost or dropped.
fn tell_last<R: Wait, E: Write>(rt: &R, tally: &Tally, told: Told, desk: &BoardDesk<E>) {
    let _ = tell_news(rt, tally, told, desk);
    tell_wire(rt, tally, desk);
}

// The member stays as long as others need what it holds.
fn staying_for(linger: u64, need: Arc<Need, Global>) -> Staying {
    Staying {
        stay: 0,
        linger,
        need,
    }
}

// How long the member lingers. Who is alone lingers for nobody.
fn linger_of(options: &NodeOptions) -> u64 {
    if options.config.members() == 1 {
        0
    } else {
        options.linger
    }
}
