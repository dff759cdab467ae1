//! Records, some of them missing or cut, put into a possible order.

ghost use Rattle.std.specs.Prelude.{◌≡◌, ◌||◌, if◌then◌else◌, is_some, IfOk, IfSome, MatchOption, OnOk};
ghost use Rattle.std.specs.Option.{option_copied};
ghost use Rattle.srm_codec.specs.Spelling.{IsSpellable};
ghost use Rattle.srm_entries.specs.Entries.{accepted};
ghost use Rattle.srm_gaps.specs.Possible.{HasOrder, IsRefusedAt};
ghost use Rattle.srm_gaps.specs.Orders.{Comes, Goes, IsCallOf, IsFirstLeft, MayFollow, NoneLeft, Stops, Tries, is_free_by, next_by, smaller};

use crate::order::Order;
use crate::told::{Told, calls_told, may_miss};
use srm_entries::Entry;
use srm_names::Member;
use std::alloc::{AllocError, Global};

/// Puts the calls of records into an order where each hears nothing, or what may have been sent before. Returns `None` if such an order has them all; else the
/// smallest member that has a call left where the order is stuck, and the number of its calls that are in it. Fails only if out of memory.
#[tactic(auto, using(crate::proofs::Following::comes_first))]
pub fn first_stuck(alloc: Global, told: &[Told]) -> Result<Option<(Member, usize)>, AllocError>
    ensures { IfOk result (λ found. MatchOption found (HasOrder told.now) (λ at. IsRefusedAt told.now at.0 at.1)) }
{
    let mut order = Order::new(alloc)?;
    run(alloc, told, &mut order)?;
    Ok(settle(told, &order))
}

/// What an order is that no call may follow.
#[tactic(auto, using(crate::proofs::Ordering::has_order))]
fn settle(told: &[Told], order: &Order) -> Option<(Member, usize)>
    requires { Stops told.now order.now }
    ensures { MatchOption result (HasOrder told.now) (λ at. IsRefusedAt told.now at.0 at.1) }
{
    match first_left(told, order) {
        Some(member) => Some((member, order.count(member))),
        None => None,
    }
}

/// Puts calls in order until none may follow.
#[tactic(auto, using(crate::proofs::Ordering::tried_comes, crate::proofs::Ordering::tried_less, crate::proofs::Ordering::stops))]
fn run(alloc: Global, told: &[Told], order: &mut Order) -> Result<(), AllocError>
    requires { Comes told.now order.old }
    ensures { OnOk result (Stops told.now order.new) }
{
    while try_each(alloc, told, order)? {}
    Ok(())
}

/// Puts calls of each member in order as long as they may follow. Returns whether it put any.
#[tactic(auto, using(crate::proofs::Ordering::tries_first, crate::proofs::Ordering::tries_more, crate::proofs::Ordering::tries_all))]
fn try_each(alloc: Global, told: &[Told], order: &mut Order) -> Result<bool, AllocError>
    requires { Comes told.now order.old }
    ensures { IfOk result (Tries told.now told.now order.old order.new) }
{
    let mut moved = false;
    for one in told {
        let went = go_on(alloc, told, one.member(), order)?;
        moved = either(moved, went);
    }
    Ok(moved)
}

fn either(a: bool, b: bool) -> bool
    ensures { result ≡ (a || b) }
{
    a || b
}

/// Puts calls of a member in order as long as they may follow. Returns whether it put any.
#[tactic(auto, using(crate::proofs::Ordering::goes_first, crate::proofs::Ordering::goes_more, crate::proofs::Ordering::goes_end))]
fn go_on(
    alloc: Global,
    told: &[Told],
    member: Member,
    order: &mut Order,
) -> Result<bool, AllocError>
    requires { Comes told.now order.old }
    ensures { IfOk result (Goes told.now member order.old order.new) }
{
    let mut moved = false;
    while advance(alloc, told, member, order)? {
        moved = true;
    }
    Ok(moved)
}

/// Puts the next call of a member in order, if there is one that may follow. Returns whether it did.
#[tactic(auto, using(crate::proofs::Following::stalled_at_end, crate::proofs::Following::stalled_here))]
fn advance(
    alloc: Global,
    told: &[Told],
    member: Member,
    order: &mut Order,
) -> Result<bool, AllocError>
    requires { Comes told.now order.old }
    ensures { IfOk result (Goes told.now member order.old order.new) }
{
    let Some(entry) = next_call(told, member, order) else {
        return Ok(false);
    };
    if !may_follow(alloc, told, order, entry)? {
        return Ok(false);
    }
    order.enter(alloc, entry)?;
    Ok(true)
}

fn next_call<'a>(told: &'a [Told], member: Member, order: &Order) -> Option<&'a Entry>
    ensures value { option_copied result ≡ next_by told.now order.now member }
    ensures call { IfSome (option_copied result) (IsCallOf member) }
{
    calls_told(told, member).get(order.count(member))
}

/// Whether a call hears nothing, or what may have been sent before.
#[tactic(auto, using(crate::proofs::Following::follows_nothing, crate::proofs::Following::follows_free, crate::proofs::Following::follows_sent))]
fn may_follow(
    alloc: Global,
    told: &[Told],
    order: &Order,
    entry: &Entry,
) -> Result<bool, AllocError>
    requires { IfSome (accepted entry.now) IsSpellable }
    ensures { IfOk result (MayFollow told.now order.now entry.now) }
{
    let Some(datagram) = entry.accepted() else {
        return Ok(true);
    };
    if is_free(told, order, datagram.sender()) {
        return Ok(true);
    }
    order.has_sent(alloc, datagram)
}

/// Whether a member may have done anything by now.
fn is_free(told: &[Told], order: &Order, member: Member) -> bool
    ensures { result ≡ is_free_by told.now order.now member }
{
    may_miss(told, member) && order.count(member) == calls_told(told, member).len()
}

/// The smallest member that has a call left.
#[tactic(auto, using(crate::proofs::Ordering::left_none, crate::proofs::Ordering::left_more, crate::proofs::Ordering::left_all))]
fn first_left(told: &[Told], order: &Order) -> Option<Member>
    ensures { MatchOption result (NoneLeft told.now told.now order.now) (IsFirstLeft told.now told.now order.now) }
{
    let mut first = None;
    for one in told {
        first = smaller_left(told, order, one.member(), first);
    }
    first
}

fn smaller_left(
    told: &[Told],
    order: &Order,
    member: Member,
    first: Option<Member>,
) -> Option<Member>
    ensures { result ≡ (if is_some (next_by told.now order.now member) then smaller first member else first) }
{
    if next_call(told, member, order).is_none() {
        return first;
    }
    smaller(first, member)
}

fn smaller(first: Option<Member>, member: Member) -> Option<Member>
    ensures { result ≡ smaller first member }
{
    match first {
        Some(other) if other <= member => Some(other),
        _ => Some(member),
    }
}
