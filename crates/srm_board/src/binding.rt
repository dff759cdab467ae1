//! The station of a board's member, at the member's address.

ghost use Rattle.std.specs.Prelude.{◌≡◌, [], None, IfOk};
ghost use Rattle.srm_timers.specs.Seeds.{words_of};
ghost use Rattle.srm_member.specs.Stations.{BeginsIn};
ghost use Rattle.srm_board.specs.BoardRuns.{IsBoardStation, MayHaveControl};

use crate::preparing::Shared;
use crate::turning::Turning;
use crate::watching::Watching;
use srm_agent::Entry;
use srm_guard::{Guard, Seal};
use srm_member::{MemberFault, Notes, Station};
use srm_options::NodeOptions;
use srm_record::Written;
use srm_script::ScriptFault;
use srm_udp::{Rested, UdpWire};
use srm_wire::Wire;
use srm_world::Past;
use std::alloc::{AllocError, Global};
use std::io::Write;
use std::net::Net;
use std::rt::Files;
use std::sync::{Arc, Wait};
use std::time;

/// Binds the member to its own address, and makes its station: its node keeps no entry, shows each to the slate, and leaves as soon as its producers are done. Its wire
/// has the guard that the options ask for, and `seal`. Its entries go to `file`, if there is one, which was made at the path that the options name. Returns where
/// it notes what fails too.
///
/// Fails with [`MemberFault::Binding`] and the cause if the address can't be bound, with [`MemberFault::Wire`] if the clock can't be read, and if out of memory. The file
/// is removed then.
pub fn bind<R, F>(
    rt: &R,
    alloc: Global,
    options: NodeOptions,
    seal: Option<Seal>,
    file: Option<F>,
    shared: &Shared,
) -> Result<
    (
        Station<R, Rested<R, Guard<UdpWire>>, Written<F, Watching<R>>>,
        Notes,
    ),
    MemberFault,
>
where
    R: Net + Files + time::Clock + Wait + Copy + Drop,
    F: Write + Drop,
    ensures station { IfOk result (λ b. IsBoardStation options seal b.0.node.view b.0.taps.items b.0.pens.items) }
    ensures words { IfOk result (λ b. b.0.node.words ≡ words_of options.seed) }
    ensures begins { IfOk result (λ b. BeginsIn F.contents file options.seed b.0.node.view.journal.start b.0.node.begins) }
{
    match watch(rt, alloc, shared, options.config.members()) {
        Ok(watching) => bind_watched(rt, alloc, options, seal, file, shared, watching),
        Err(_) => Err(MemberFault::Script(ScriptFault::Memory)),
    }
}

// A history of one of so many members that is shown to what the threads share. Fails only if out of memory.
fn watch<R: Wait + Copy + Drop>(
    rt: &R,
    alloc: Global,
    shared: &Shared,
    members: u8,
) -> Result<Watching<R>, AllocError>
    ensures { IfOk result (λ watching. watching.past ≡ []) }
{
    let slate = Arc::try_clone(&shared.slate)?;
    let turning = Arc::try_clone(&shared.turning)?;
    let need = Arc::try_clone(&shared.need)?;
    let tally = Arc::try_clone(&shared.tally)?;
    Ok(Watching::new(*rt, alloc, slate, turning, need, tally, members))
}

fn bind_watched<R, F>(
    rt: &R,
    alloc: Global,
    options: NodeOptions,
    seal: Option<Seal>,
    file: Option<F>,
    shared: &Shared,
    watching: Watching<R>,
) -> Result<
    (
        Station<R, Rested<R, Guard<UdpWire>>, Written<F, Watching<R>>>,
        Notes,
    ),
    MemberFault,
>
where
    R: Net + Files + time::Clock + Wait + Copy + Drop,
    F: Write + Drop,
    requires { watching.past ≡ [] }
    ensures station { IfOk result (λ b. IsBoardStation options seal b.0.node.view b.0.taps.items b.0.pens.items) }
    ensures words { IfOk result (λ b. b.0.node.words ≡ words_of options.seed) }
    ensures begins { IfOk result (λ b. BeginsIn F.contents file options.seed b.0.node.view.journal.start b.0.node.begins) }
{
    let mut options = options;
    options.stay = 0;
    // The cause of a failed bind or call is always told.
    options.verbose = true;
    match Station::bind(rt, alloc, options, seal, file, watching) {
        Ok((station, notes)) => Ok((connect(rt, alloc, station, &shared.turning), notes)),
        Err(fault) => Err(fault),
    }
}

// Lets the turns of the pages tell the station's node which to show. Out of memory for that it shows the first.
fn connect<R, X, P>(
    rt: &R,
    alloc: Global,
    station: Station<R, X, P>,
    turning: &Turning,
) -> Station<R, X, P>
where
    R: time::Clock + Wait + Copy + Drop,
    X: Wire + Drop,
    P: Past<Entry> + Drop,
    requires { station.node.view.control ≡ None }
    ensures node { MayHaveControl station.node.view result.node.view }
    ensures words { result.node.words ≡ station.node.words }
    ensures begins { result.node.begins ≡ station.node.begins }
    ensures taps { result.taps.items ≡ station.taps.items }
    ensures pens { result.pens.items ≡ station.pens.items }
{
    let mut station = station;
    let Ok(control) = station.node.control(alloc) else {
        return station;
    };
    turning.connect(rt, control);
    station
}
