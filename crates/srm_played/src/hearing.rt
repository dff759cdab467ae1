//! Noting which datagram came in an entry.

ghost use Rattle.std.specs.Prelude.{◌≡◌, ◌<◌, ◌++◌, vec_len, vec_capacity, OnOk, OnErr};
ghost use Rattle.srm_world.specs.Events.{IsTimely};
ghost use Rattle.srm_played.specs.Plays.{PlaysOne, came, delivered_number};

use srm_agent::{Entry, Verdict};
use srm_picture::{Arrival, Point};
use srm_timers::Listed;
use srm_world::{Event, World, WorldFault};

/// Applies an event to a world, and notes the datagram that came, if one did. Returns whether the event left an entry.
///
/// Fails only if out of memory: the trace and the arrivals are unchanged.
pub(crate) fn advance(
    world: &mut World<Listed>,
    arrivals: &mut Vec<Arrival>,
    event: Event,
) -> Result<bool, WorldFault>
    requires { IsTimely event }
    ensures plays { OnOk result (PlaysOne (record { trace = world.old.trace; arrivals = arrivals.old.items }) event (record { trace = world.new.trace; arrivals = arrivals.new.items })) }
    ensures world { OnErr result (world.new.trace ≡ world.old.trace) }
    ensures arrivals { OnErr result (arrivals.new.items ≡ arrivals.old.items) }
{
    let number = number_of(&event);
    let index = world.trace().entries().len();
    arrivals.reserve(1)?;
    if !world.apply(event)? {
        return Ok(false);
    }
    note(arrivals, number, index, &world.trace().entries()[index]);
    Ok(true)
}

/// The number of the datagram that an event delivers, if it delivers one.
fn number_of(event: &Event) -> Option<usize>
    ensures { result ≡ delivered_number event.now }
{
    match event {
        Event::Deliver { index, .. } => Some(*index),
        _ => None,
    }
}

/// Notes that the datagram with this number, if there is one, came in an entry. The caller has made room.
fn note(arrivals: &mut Vec<Arrival>, number: Option<usize>, index: usize, entry: &Entry)
    requires { vec_len arrivals.old < vec_capacity arrivals.old }
    ensures { arrivals.new.items ≡ arrivals.old.items ++ came number (index, entry.now) }
{
    let Some(number) = number else {
        return;
    };
    let _ = arrivals.push(Arrival {
        number,
        at: Point {
            entry: index,
            member: entry.member,
        },
        accepted: matches!(entry.verdict, Verdict::Done),
    });
}
