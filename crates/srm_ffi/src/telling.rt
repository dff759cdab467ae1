//! What C asks of an agent. These exports change nothing.

ghost use Rattle.std.specs.Prelude.{◌≡◌, ◌≤◌, ◌<◌};
ghost use Rattle.srm_names.specs.declared.limits.TheConstants.{MEMBERS};
ghost use Rattle.srm_ffi.specs.declared.codes.TheConstants.{MEMBER};
ghost use Rattle.srm_ffi.specs.Calls.{AdmitsCall, AdmitsFromCall, DistanceCall, DueCall, IsRefused, NewPageCall, StateCall, TellsPage};

use crate::codes::{DONE, EMPTY, MEMBER, PAGE, of_state, or_never};
use crate::shapes::RawPage;
use srm_names::{Member, Page};
use srm_seat::Handle;
use std::alloc::Global;

/// Returns when a tick next does something, in microseconds; 2^64 - 1 if none will, or the handle is empty.
#[unsafe(no_mangle)]
pub extern "C" fn srm_raw_next_due(alloc: Global, handle: &mut Handle) -> u64
    ensures { DueCall result handle.old.value handle.new.value }
{
    let Some(seat) = handle.take(alloc) else {
        return u64::MAX;
    };
    let due = seat.next_due();
    handle.put(seat);
    or_never(due)
}

/// Returns whether the member takes part: 1 active, 2 leaving, 3 gone; 0 if the handle is empty.
#[unsafe(no_mangle)]
pub extern "C" fn srm_raw_state(alloc: Global, handle: &mut Handle) -> u8
    ensures { StateCall result handle.old.value handle.new.value }
{
    let Some(seat) = handle.take(alloc) else {
        return 0;
    };
    let state = seat.state();
    handle.put(seat);
    of_state(state)
}

/// Writes the page that the member would begin next.
///
/// Returns `DONE` or the first of these that holds: `EMPTY`; `PAGE` if none is left.
#[unsafe(no_mangle)]
pub extern "C" fn srm_raw_new_page(alloc: Global, handle: &mut Handle, page: &mut RawPage) -> u32
    ensures { NewPageCall result page.old page.new handle.old.value handle.new.value }
{
    let Some(seat) = handle.take(alloc) else {
        return EMPTY;
    };
    let next = seat.new_page();
    handle.put(seat);
    tell_page(next, page)
}

fn tell_page(page: Option<Page>, to: &mut RawPage) -> u32
    ensures { TellsPage page result to.old to.new }
{
    match page {
        Some(page) => {
            *to = RawPage::of(page);
            DONE
        }
        None => PAGE,
    }
}

/// Writes the one-way distance to a member in microseconds.
///
/// Returns `DONE` or the first of these that holds: `MEMBER` if the member is past 31; `EMPTY`.
#[unsafe(no_mangle)]
pub extern "C" fn srm_raw_distance(
    alloc: Global,
    handle: &mut Handle,
    member: u8,
    distance: &mut u64,
) -> u32
    ensures no_member { MEMBERS ≤ member → IsRefused MEMBER result handle.old.value handle.new.value × (distance.new ≡ distance.old) }
    ensures told { member < MEMBERS → DistanceCall member result distance.old distance.new handle.old.value handle.new.value }
{
    let Some(member) = Member::new(member) else {
        return MEMBER;
    };
    let Some(seat) = handle.take(alloc) else {
        return EMPTY;
    };
    *distance = seat.distance(member);
    handle.put(seat);
    DONE
}

/// Returns whether the rate would let a body of so many bytes, drawn at `now`, go at once; `now` is any number. False if the handle is empty.
#[unsafe(no_mangle)]
pub extern "C" fn srm_raw_admits(
    alloc: Global,
    handle: &mut Handle,
    length: usize,
    now: u64,
) -> bool
    ensures { AdmitsCall length now result handle.old.value handle.new.value }
{
    let Some(seat) = handle.take(alloc) else {
        return false;
    };
    let admits = seat.admits_draw(length, now);
    handle.put(seat);
    admits
}

/// Returns when a body of so many bytes would go at once, in microseconds; 2^64 - 1 if something has to go first, or the handle is empty.
#[unsafe(no_mangle)]
pub extern "C" fn srm_raw_admits_from(alloc: Global, handle: &mut Handle, length: usize) -> u64
    ensures { AdmitsFromCall length result handle.old.value handle.new.value }
{
    let Some(seat) = handle.take(alloc) else {
        return u64::MAX;
    };
    let first = seat.admits_draw_from(length);
    handle.put(seat);
    or_never(first)
}
