//! The arrows of a trace.

ghost use Rattle.std.specs.Prelude.{◌≡◌, map, IfOk};
ghost use Rattle.std.specs.List.{enumerate_from};
ghost use Rattle.srm_picture.specs.Arrows.{arrow_to, arrows_in, arrows_of as arrows_for, arrow_end as end_at, arrivals_of, launch, launches_in};

use crate::arrow::{Arrival, Arrow, ArrowEnd, Launch};
use crate::point::Point;
use srm_codec::Datagram;
use srm_entries::{DatagramKind, Entry};
use std::alloc::{AllocError, Global};

/// The sending of each datagram, in order. Fails only if out of memory.
pub(crate) fn launches(alloc: Global, entries: &[Entry]) -> Result<Vec<Launch>, AllocError>
    ensures { IfOk result (λ launches. launches.items ≡ launches_in entries.now) }
{
    let mut launches = Vec::new(alloc);
    for (index, entry) in entries.iter().enumerate() {
        let from = Point {
            entry: index,
            member: entry.member,
        };
        launches.append(&mut launched(alloc, &from, entry.effects.outs.as_slice())?)?;
    }
    Ok(launches)
}

/// The sending of each datagram of one entry.
fn launched(alloc: Global, from: &Point, outs: &[Datagram]) -> Result<Vec<Launch>, AllocError>
    ensures { IfOk result (λ launches. launches.items ≡ map (launch from.now) (enumerate_from 0 outs.now)) }
{
    let mut launches = Vec::new(alloc);
    for (nth, datagram) in outs.iter().enumerate() {
        launches.push(launch_of(from, nth, datagram))?;
    }
    Ok(launches)
}

fn launch_of(from: &Point, nth: usize, datagram: &Datagram) -> Launch
    ensures { result ≡ launch from.now (nth, datagram.now) }
{
    Launch {
        from: *from,
        nth,
        kind: DatagramKind::of(datagram),
    }
}

/// The arrows of each datagram: one to each arrival, or one to nobody if it was never delivered. Fails only if out of memory.
pub(crate) fn arrows(
    alloc: Global,
    launches: &[Launch],
    arrivals: &[Arrival],
) -> Result<Vec<Arrow>, AllocError>
    ensures { IfOk result (λ arrows. arrows.items ≡ arrows_in launches.now arrivals.now) }
{
    let mut arrows = Vec::new(alloc);
    for (number, launch) in launches.iter().enumerate() {
        arrows.append(&mut arrows_of(alloc, number, launch, arrivals)?)?;
    }
    Ok(arrows)
}

/// The arrows of one datagram.
fn arrows_of(
    alloc: Global,
    number: usize,
    launch: &Launch,
    arrivals: &[Arrival],
) -> Result<Vec<Arrow>, AllocError>
    ensures { IfOk result (λ arrows. arrows.items ≡ arrows_for arrivals.now (number, launch.now)) }
{
    let mut arrows = reaching(alloc, number, launch, arrivals)?;
    if arrows.is_empty() {
        arrows.push(Arrow {
            number,
            launch: *launch,
            end: ArrowEnd::Lost,
        })?;
    }
    Ok(arrows)
}

/// The arrows of one datagram to its arrivals.
fn reaching(
    alloc: Global,
    number: usize,
    launch: &Launch,
    arrivals: &[Arrival],
) -> Result<Vec<Arrow>, AllocError>
    ensures { IfOk result (λ arrows. arrows.items ≡ map (arrow_to (number, launch.now)) (arrivals_of number arrivals.now)) }
{
    arrivals
        .iter()
        .filter(|hearing| hearing.number == number)
        .map(|hearing| Arrow {
            number,
            launch: *launch,
            end: end_of(hearing),
        })
        .collect(alloc)
}

fn end_of(hearing: &Arrival) -> ArrowEnd
    ensures { result ≡ end_at hearing.now }
{
    if hearing.accepted {
        ArrowEnd::Accepted(hearing.at)
    } else {
        ArrowEnd::Ignored(hearing.at)
    }
}
