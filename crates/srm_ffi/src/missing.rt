//! What C asks of what a member knows, misses and has to send. These exports change nothing.

ghost use Rattle.std.specs.Prelude.{◌≡◌};
ghost use Rattle.srm_seat.specs.Asking.{IsKnown, IsMissing};
ghost use Rattle.srm_ffi.specs.Calls.{NextMissingCall, OutstandingCall, StreamCall, TellsNumber, stream_named};

use crate::codes::{DONE, EMPTY, MEMBER, NOTHING, PAGE};
use crate::shapes::RawOutstanding;
use srm_names::{Member, Name, Page, Stream};
use srm_seat::Handle;
use std::alloc::Global;

/// Writes the greatest number that the member knows to exist of the stream of `source` on the page of this creator and number, or 0.
///
/// Returns `DONE` or the first of these that holds: `PAGE` if `creator` is past 31; `MEMBER` if `source` is; `EMPTY`.
#[unsafe(no_mangle)]
pub extern "C" fn srm_raw_known(
    alloc: Global,
    handle: &mut Handle,
    creator: u8,
    number: u16,
    source: u8,
    known: &mut u32,
) -> u32
    ensures { StreamCall IsKnown (stream_named creator number source) result known.old known.new handle.old.value handle.new.value }
{
    let stream = match stream_named(creator, number, source) {
        Ok(stream) => stream,
        Err(why) => return why,
    };
    let Some(seat) = handle.take(alloc) else {
        return EMPTY;
    };
    *known = seat.known(stream);
    handle.put(seat);
    DONE
}

/// Writes how many names are missing of the stream of `source` on the page of this creator and number.
///
/// Returns `DONE` or the first of these that holds: `PAGE` if `creator` is past 31; `MEMBER` if `source` is; `EMPTY`.
#[unsafe(no_mangle)]
pub extern "C" fn srm_raw_missing(
    alloc: Global,
    handle: &mut Handle,
    creator: u8,
    number: u16,
    source: u8,
    count: &mut u32,
) -> u32
    ensures { StreamCall IsMissing (stream_named creator number source) result count.old count.new handle.old.value handle.new.value }
{
    let stream = match stream_named(creator, number, source) {
        Ok(stream) => stream,
        Err(why) => return why,
    };
    let Some(seat) = handle.take(alloc) else {
        return EMPTY;
    };
    *count = seat.missing_of(stream);
    handle.put(seat);
    DONE
}

/// Writes the number of the first missing name of a stream whose number is above `after`.
///
/// Returns `DONE` or the first of these that holds: `PAGE` if `creator` is past 31; `MEMBER` if `source` is; `EMPTY`; `NOTHING` if no such name is missing.
#[unsafe(no_mangle)]
pub extern "C" fn srm_raw_next_missing(
    alloc: Global,
    handle: &mut Handle,
    creator: u8,
    number: u16,
    source: u8,
    after: u32,
    next: &mut u32,
) -> u32
    ensures { NextMissingCall after (stream_named creator number source) result next.old next.new handle.old.value handle.new.value }
{
    let stream = match stream_named(creator, number, source) {
        Ok(stream) => stream,
        Err(why) => return why,
    };
    let Some(seat) = handle.take(alloc) else {
        return EMPTY;
    };
    let name = seat.next_missing(stream, after);
    handle.put(seat);
    tell_number(name, next)
}

fn tell_number(name: Option<Name>, to: &mut u32) -> u32
    ensures { TellsNumber name result to.old to.new }
{
    match name {
        Some(name) => {
            *to = name.number();
            DONE
        }
        None => NOTHING,
    }
}

/// Writes what the member misses, when its timers expire, what waits to be sent, and whether it takes part.
///
/// Returns `DONE`, or `EMPTY`.
#[unsafe(no_mangle)]
pub extern "C" fn srm_raw_outstanding(
    alloc: Global,
    handle: &mut Handle,
    outstanding: &mut RawOutstanding,
) -> u32
    ensures { OutstandingCall result outstanding.old outstanding.new handle.old.value handle.new.value }
{
    let Some(seat) = handle.take(alloc) else {
        return EMPTY;
    };
    *outstanding = RawOutstanding::of(&seat.outstanding());
    handle.put(seat);
    DONE
}

/// The stream that C names; or the code that refuses it.
fn stream_named(creator: u8, number: u16, source: u8) -> Result<Stream, u32>
    ensures { result ≡ stream_named creator number source }
{
    let Some(creator) = Member::new(creator) else {
        return Err(PAGE);
    };
    let Some(source) = Member::new(source) else {
        return Err(MEMBER);
    };
    Ok(Stream {
        source,
        page: Page { creator, number },
    })
}
