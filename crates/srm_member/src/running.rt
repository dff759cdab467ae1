//! A member from its options to its end.

ghost use Rattle.std.specs.Prelude.{◌≡◌, ◌≤◌, ◌⊎◌, true, Some, is_some, map, IfErr, IfOk, IfSome, MatchOption, OnOk};
ghost use Rattle.std.specs.Bool.{OnTrue};
ghost use Rattle.std.specs.List.{AllByRecursion};
ghost use Rattle.srm_node.specs.Calls.{calls_of};
ghost use Rattle.srm_udp.specs.Clocks.{NeverFalls};
ghost use Rattle.srm_script.specs.declared.status.TheConstants.{WIRE_FAILED, RAN_OUT};
ghost use Rattle.srm_member.specs.Statuses.{IsStatus};
ghost use Rattle.srm_member.specs.Stations.{HasNewEnds};
ghost use Rattle.srm_member.specs.WholeRuns.{IsReceivedOf};
ghost use Rattle.std.specs.Io.KnownBytes.{Keeps};
ghost use Rattle.srm_member.specs.MemberRuns.{FaultKeeps, PrintsRun, PrintsWholeRun, RecordsWholeRun, RunsRecorded};

use crate::dealing::deal;
use crate::fault::MemberFault;
use crate::joining::{join_pens, settle_lanes};
use crate::noting::{Noting, noted_call};
use crate::printing::print_taken;
use crate::recording::{Recorded, end_record, open_record};
use crate::station::{Ran, Station};
use bytes::Bytes;
use srm_agent::Entry;
use srm_guarded::{read_key, seal_by};
use srm_node::{Hosted, Wire};
use srm_options::NodeOptions;
use srm_pages::Inked;
use srm_pages::ends::Well;
use srm_record::Written;
use srm_script::{ScriptFault, read_input};
use srm_world::{Forgotten, Past};
use std::alloc::Global;
use std::fs::OpenFile;
use std::io::{Read, Write};
use std::net::Net;
use std::rt::Files;
use std::sync::Wait;
use std::thread::Threads;
use std::time;

/// Runs a member with these options, draws the lines of the input, and prints what its page workers took.
///
/// Returns the program's status: 0; 1 if the key file can't be used, the input has more than 1,000,000 bytes or a line of more than 1,024, a stream fails, or the
/// record can't be made or written whole; 3 if the socket or the clock fails, with the cause if `verbose` is set; 4 if memory ran out, a worker's too, or all turns were
/// spent. The options' `live` and `linger` aren't used. The fault goes to `err`; nothing else is printed then, unless the output failed, or the run was whole and its
/// record isn't. The node keeps no journal, since nobody reads one.
#[tactic(auto, using(crate::proofs::MemberRuns::not_0, crate::proofs::MemberRuns::kept_by_status))]
pub fn run_node<R, I: Read, O: Write, E: Write>(
    rt: &R,
    options: NodeOptions,
    reader: &mut I,
    out: &mut O,
    err: &mut E,
) -> u8
where
    R: Net + Files + time::Clock + Threads + Wait + AllocGlobal + Copy + Send + Drop + 'static,
    ensures ends { IsStatus result }
    ensures greatest { result ≤ RAN_OUT }
    ensures whole { result ≡ 0 → RecordsWholeRun R.File.contents R.File.remaining options (I.remaining reader.old) (O.contents out.old) (O.contents out.new) }
    ensures nothing { (result ≡ WIRE_FAILED) ⊎ (result ≡ RAN_OUT) → Keeps (O.contents out.old) (O.contents out.new) }
{
    let alloc = rt.alloc();
    match run(rt, alloc, options, reader, out) {
        Ok(()) => 0,
        Err(fault) => fault.print(err),
    }
}

fn run<R, I: Read, O: Write>(
    rt: &R,
    alloc: Global,
    options: NodeOptions,
    reader: &mut I,
    out: &mut O,
) -> Result<(), MemberFault>
where
    R: Net + Files + time::Clock + Threads + Wait + Copy + Send + Drop + 'static,
    ensures whole { OnOk result (RecordsWholeRun R.File.contents R.File.remaining options (I.remaining reader.old) (O.contents out.old) (O.contents out.new)) }
    ensures nothing { IfErr result (λ fault. FaultKeeps fault (PrintsWholeRun options (I.remaining reader.old) (O.contents out.old) (O.contents out.new)) (O.contents out.old) (O.contents out.new)) }
{
    let key = read_key(rt, alloc, &options.guard)?;
    let input = read_input(alloc, reader)?;
    let dealt = deal(alloc, input.as_slice())?;
    drop(input);
    let turns = options.turns;
    let seal = seal_by(rt, alloc, key, options.config.me())?;
    let record = open_record(rt, alloc, &options)?;
    let (station, notes) = Station::bind(rt, alloc, options, seal, record, Forgotten::new())?;
    match run_noting(rt, alloc, station, dealt, turns, &notes.wire, out) {
        Ok(_) => Ok(()),
        Err(fault) => Err(fault),
    }
}

// Runs a station as `run_station` does, and tells which call of its wire failed, if that is noted.
#[tactic(auto, using(crate::proofs::MemberRuns::still_output))]
fn run_noting<R, X, F, P, O>(
    rt: &R,
    alloc: Global,
    station: Station<R, X, Written<F, P>>,
    dealt: Vec<Vec<Bytes>>,
    turns: u64,
    noting: &Noting,
    out: &mut O,
) -> Result<Option<F>, MemberFault>
where
    R: time::Clock + Threads + Wait + Copy + Send + Drop + 'static,
    X: Wire + Drop,
    F: Write + OpenFile + Drop,
    P: Past<Entry> + Drop,
    O: Write,
    requires { HasNewEnds station.node.view station.taps.items station.pens.items }
    ensures whole { IfOk result (λ file. RunsRecorded F.contents (calls_of NeverFalls X.receives X.sends X.pauses) turns (map (λ bodies. bodies.items) dealt.items) station.node.view station.node.words station.node.begins file (O.contents out.old) (O.contents out.new)) }
    ensures nothing { IfErr result (λ fault. FaultKeeps fault (PrintsRun (calls_of NeverFalls X.receives X.sends X.pauses) turns (map (λ bodies. bodies.items) dealt.items) station.node.view (O.contents out.old) (O.contents out.new)) (O.contents out.old) (O.contents out.new)) }
{
    match run_station(rt, alloc, station, dealt, turns, out) {
        Ok(file) => Ok(file),
        Err(fault) => Err(fault.with_call(noted_call(noting))),
    }
}

/// Runs a new station to its end, and prints what its page workers took. Its k-th producer draws the k-th list of bodies. Returns the file of its record, if it has one, which has all of it:
/// how the member began, each call of its journal, what its page workers took, and that this is all.
///
/// `turns` is the most turns of the node. Fails as [`Station::run`] does, with what ended the run ([`MemberFault::of_whole_run`]), with
/// [`ScriptFault::Memory`](srm_script::ScriptFault) before it prints, with [`ScriptFault::Output`](srm_script::ScriptFault) after a prefix of the text, or with
/// [`MemberFault::Record`] after all of it if the file hasn't the whole record. Any other fault leaves `out` as it was, so nothing is printed unless the run was whole:
/// then what is printed as taken in a page slot is all that the node's journal gave there, to its close. The strokes that the journal drew of a producer are all of its
/// bodies, in order. Where a whole run lacks one of these, the fault is [`ScriptFault::Memory`](srm_script::ScriptFault) too.
pub fn run_station<R, X, F, P, O>(
    rt: &R,
    alloc: Global,
    station: Station<R, X, Written<F, P>>,
    dealt: Vec<Vec<Bytes>>,
    turns: u64,
    out: &mut O,
) -> Result<Option<F>, MemberFault>
where
    R: time::Clock + Threads + Wait + Copy + Send + Drop + 'static,
    X: Wire + Drop,
    F: Write + OpenFile + Drop,
    P: Past<Entry> + Drop,
    O: Write,
    requires { HasNewEnds station.node.view station.taps.items station.pens.items }
    ensures whole { IfOk result (λ file. RunsRecorded F.contents (calls_of NeverFalls X.receives X.sends X.pauses) turns (map (λ bodies. bodies.items) dealt.items) station.node.view station.node.words station.node.begins file (O.contents out.old) (O.contents out.new)) }
    ensures nothing { IfErr result (λ fault. FaultKeeps fault (PrintsRun (calls_of NeverFalls X.receives X.sends X.pauses) turns (map (λ bodies. bodies.items) dealt.items) station.node.view (O.contents out.old) (O.contents out.new)) (O.contents out.old) (O.contents out.new)) }
{
    let Ran {
        hosted,
        ends,
        pens,
        drew_all,
    } = station.run_whole(rt, alloc, dealt, turns)?;
    let Hosted {
        history,
        feeds,
        worked,
        end,
        ..
    } = hosted;
    let me = history.start().config.me();
    let Recorded { whole, file } = end_record(alloc, history, worked.as_slice())?;
    match MemberFault::of_whole_run(end, worked.as_slice()) {
        Some(fault) => Err(fault),
        None => {
            if !received_all(rt, drew_all, ends.well, pens) {
                return Err(MemberFault::Script(ScriptFault::Memory));
            }
            print_taken(alloc, out, me, worked.as_slice())?;
            settle_lanes(feeds, worked);
            if whole {
                Ok(file)
            } else {
                Err(MemberFault::Record)
            }
        }
    }
}

// Whether each producer sent all of its bodies, and the stroke queue received what each sent.
fn received_all<R: Wait>(rt: &R, drew_all: bool, well: Well, pens: Vec<Inked>) -> bool
    requires { AllByRecursion (λ p. p.well ≡ well.well) pens.items }
    ensures { OnTrue result ((drew_all ≡ true) × AllByRecursion (IsReceivedOf well.received) pens.items) }
{
    let mut well = well;
    join_pens(rt, &mut well, pens) && drew_all
}
