//! Local actions: what happens at one member alone.

ghost use Rattle.std.specs.Prelude.{◌≡◌, if◌then◌else◌, Some, None, option_map, IfOk, OnOk};
ghost use Rattle.srm_entries.specs.declared.entry.Verdict.TheVariants.{Done};
ghost use Rattle.srm_entries.specs.Effects.{becomes_gone};
ghost use Rattle.srm_picture.specs.declared.action.LocalActionKind.TheVariants.{Gone};
ghost use Rattle.srm_picture.specs.OneThat.{IsOneThat};
ghost use Rattle.srm_picture.specs.Actions.{AddsAction, AreActions, Shows, message_kind};

use crate::point::Point;
use srm_entries::{Effects, Entry, Input, Verdict};
use srm_names::PageMsg;
use std::alloc::{AllocError, Global};

/// What a notch on a lifeline stands for.
#[derive(Clone, Copy, Debug, PartialEq, Eq)]
pub enum LocalActionKind {
    /// The member drew a drawop.
    Drew,
    /// The member gave a drawop to a page worker.
    Gave,
    /// A page worker took a drawop.
    Took,
    /// Another message was given or taken, the member showed a page or began to leave, or a call failed.
    Other,
    /// The member sent its farewell, and is gone.
    Gone,
}

/// A notch on a lifeline.
#[derive(Clone, Copy, Debug, PartialEq, Eq)]
pub struct LocalAction {
    /// The entry that it stands for.
    pub at: Point,
    /// How many datagrams its entry sent. The notch is drawn below these.
    pub nth: usize,
    /// What it stands for.
    pub kind: LocalActionKind,
}

/// The notches of a trace, in order. Fails only if out of memory.
pub(crate) fn actions(alloc: Global, entries: &[Entry]) -> Result<Vec<LocalAction>, AllocError>
    ensures { IfOk result (λ actions. AreActions entries.now actions.items) }
{
    let mut actions = Vec::new(alloc);
    for (index, entry) in entries.iter().enumerate() {
        push_action(&mut actions, index, entry)?;
    }
    Ok(actions)
}

/// Appends the notch of an entry, if it has one.
fn push_action(
    actions: &mut Vec<LocalAction>,
    index: usize,
    entry: &Entry,
) -> Result<(), AllocError>
    ensures { OnOk result (AddsAction index entry.now actions.old.items actions.new.items) }
{
    match kind_in(entry) {
        None => Ok(()),
        Some(kind) => Ok(actions.push(LocalAction {
            at: Point {
                entry: index,
                member: entry.member,
            },
            nth: entry.effects.outs.as_slice().len(),
            kind,
        })?),
    }
}

/// The kind of notch that an entry has, if it has one.
fn kind_in(entry: &Entry) -> Option<LocalActionKind>
    ensures { IsOneThat (Shows entry.now) result }
{
    match entry.verdict {
        Verdict::Done => kind_done(entry),
        Verdict::Ignored(_) => None,
        Verdict::Refused(_) => Some(LocalActionKind::Other),
    }
}

fn kind_done(entry: &Entry) -> Option<LocalActionKind>
    requires { entry.now.verdict ≡ Done }
    ensures { IsOneThat (Shows entry.now) result }
{
    match entry.input {
        Input::Drew(_, _) => Some(LocalActionKind::Drew),
        Input::Gave(_) => kind_of(&entry.effects.message, LocalActionKind::Gave),
        Input::Took(_) => kind_of(&entry.effects.message, LocalActionKind::Took),
        Input::Showed(_) | Input::AskedLeave => Some(LocalActionKind::Other),
        Input::Ticked => farewell_kind(&entry.effects),
        Input::Heard(_) | Input::Noise => None,
    }
}

fn kind_of(message: &Option<PageMsg>, drawop: LocalActionKind) -> Option<LocalActionKind>
    ensures { result ≡ option_map (message_kind drawop) message.now }
{
    match message {
        None => None,
        Some(PageMsg::Draw(_)) => Some(drawop),
        Some(_) => Some(LocalActionKind::Other),
    }
}

fn farewell_kind(effects: &Effects) -> Option<LocalActionKind>
    ensures { result ≡ (if becomes_gone effects.now then Some Gone else None) }
{
    if effects.becomes_gone() {
        Some(LocalActionKind::Gone)
    } else {
        None
    }
}
