//! Entering an event into the trace.

ghost use Rattle.std.specs.Prelude.{◌≡◌, [], IfOk, IfNone, IfSome, OnErr};
ghost use Rattle.srm_world.specs.Events.{IsTimely};
ghost use Rattle.srm_world.specs.Sent.{all_of};
ghost use Rattle.srm_world.specs.Worlds.{Appends, EntersAll, KeepsParticipants, Skips};

use crate::appending::append;
use crate::event::Event;
use crate::participant::Participant;
use crate::sent::SentDatagrams;
use crate::trace::Trace;
use srm_agent::Entry;
use srm_names::PAGES;
use srm_timers::Words;
use std::alloc::AllocError;

/// Lets an event happen to its member, and appends its entry to the trace and what the member sent to `sent`. Returns whether it left an
/// entry. Fails only if out of memory.
pub(super) fn enter<W: Words + Drop>(
    participants: &mut [Participant<W>],
    sent: &mut SentDatagrams,
    trace: &mut Trace,
    event: &Event,
) -> Result<bool, AllocError>
    requires timely { IsTimely event.now }
    requires settled { sent.old.newest ≡ [] }
    ensures ok { IfOk result (Appends W.next_word participants.old participants.new (all_of sent.old) (all_of sent.new) event.now trace.old trace.new) }
    ensures err { OnErr result (KeepsParticipants participants.old participants.new (all_of sent.old) (all_of sent.new)) }
    ensures same { OnErr result (trace.new ≡ trace.old) }
{
    trace.entries.reserve(1)?;
    match entry_of(participants, sent, event)? {
        None => Ok(false),
        Some(entry) => {
            append(&mut trace.entries, entry);
            Ok(true)
        }
    }
}

/// Lets an event happen to its member, and returns its entry; `None` if the event is skipped. Adds what the member sent to `sent`.
fn entry_of<W: Words + Drop>(
    participants: &mut [Participant<W>],
    sent: &mut SentDatagrams,
    event: &Event,
) -> Result<Option<Entry>, AllocError>
    requires timely { IsTimely event.now }
    requires settled { sent.old.newest ≡ [] }
    ensures entry { IfOk result (λ entry. IfSome entry (EntersAll W.next_word participants.old participants.new (all_of sent.old) (all_of sent.new) event.now)) }
    ensures skipped { IfOk result (λ entry. IfNone entry (Skips participants.old participants.new (all_of sent.old) (all_of sent.new) event.now)) }
    ensures err { OnErr result (KeepsParticipants participants.old participants.new (all_of sent.old) (all_of sent.new)) }
{
    let place = usize::from(event.member());
    if place >= participants.len() {
        return Ok(None);
    }
    match event {
        Event::Draw {
            now,
            page,
            body,
            ..
        } => {
            let body = body.clone()?;
            Ok(Some(participants[place].draw(*page, body, *now)?))
        }
        Event::Deliver { now, index, .. } => {
            let Some(out) = sent.get(*index) else {
                return Ok(None);
            };
            let entry = participants[place].hear(out.bytes.as_slice(), *now)?;
            Ok(Some(entry))
        }
        Event::Tick { now, .. } => {
            let (entry, outs) = participants[place].tick(*now)?;
            sent.add(outs);
            Ok(Some(entry))
        }
        Event::Show { now, page, .. } => Ok(Some(participants[place].show(*page, *now)?)),
        Event::Leave { now, .. } => Ok(Some(participants[place].leave(*now)?)),
        Event::Give { slot, .. } => {
            if *slot >= PAGES {
                return Ok(None);
            }
            Ok(Some(participants[place].give(*slot)?))
        }
        Event::Take { slot, .. } => {
            if *slot >= PAGES {
                return Ok(None);
            }
            Ok(Some(participants[place].take(*slot)))
        }
    }
}
