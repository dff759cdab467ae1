//! Drawing what the producers sent.

ghost use Rattle.std.specs.Prelude.{◌≡◌, ◌<◌, ◌≤◌, true, is_none, option_to_list, MatchResult};
ghost use Rattle.srm_names.specs.declared.limits.TheConstants.{LATEST_MOMENT};
ghost use Rattle.srm_world.specs.Claims.{IsLawfulJournal};
ghost use Rattle.srm_node.specs.Parts.{strokes_after, PopsStrokes, once, IsAdmitted, DrawsOne, DrewStrokes, DrewStrokesCut};
ghost use Rattle.srm_node.specs.Waits.{WaitsByWords};

use crate::fault::{OutOfMemory, is_memory};
use crate::limits::{STROKES_A_TURN, STROKES_AT_LEAST};
use srm_agent::Entry;
use srm_pages::Stroke;
use srm_pages::ends::Well;
use srm_timers::Words;
use srm_world::{Past, Recorder};
use std::sync::Wait;

/// What a turn drew: how many strokes, and whether none is left, in the queue or in hand.
#[derive(Clone, Copy)]
pub struct Drawn {
    /// How many strokes it drew.
    pub count: u8,
    /// Whether none is left.
    pub none_left: bool,
}

impl Drawn {
    fn new(count: u8, none_left: bool) -> Drawn
        ensures count { result.count ≡ count }
        ensures none_left { result.none_left ≡ none_left }
    {
        Drawn { count, none_left }
    }
}

/// Returns how many strokes a turn may draw that heard so many datagrams: 64 less these, and never fewer than 8. So members that all draw leave one another room to be
/// heard, and a flood of noise stops nobody from drawing.
pub fn strokes_after(heard: u8) -> u8
    ensures value { result ≡ strokes_after heard }
    ensures some { 0 < result }
{
    STROKES_A_TURN.saturating_sub(heard).max(STROKES_AT_LEAST)
}

/// Draws up to `most` strokes, the one in hand first, as long as the rate lets their datagrams go at once. Returns the stroke that is in hand then: one that the rate
/// keeps back, or that memory ran out for. A stroke that the agent refuses for another cause is dropped.
pub fn draw_strokes<R: Wait, W: Words + Drop, P: Past<Entry> + Drop>(
    rt: &R,
    recorder: &mut Recorder<W, P>,
    well: &mut Well,
    hand: Option<Stroke>,
    most: u8,
    now: u64,
) -> (Option<Stroke>, Result<Drawn, OutOfMemory>)
    requires some { 0 < most }
    requires moment { now ≤ LATEST_MOMENT }
    requires lawful { IsLawfulJournal recorder.old.journal }
    ensures lawful { IsLawfulJournal recorder.new.journal }
    ensures words { WaitsByWords W.next_word recorder.old recorder.new }
    ensures draws { MatchResult result.1 (λ drawn. DrewStrokes now most drawn.none_left recorder.old.journal recorder.new.journal well.old well.new hand result.0)
        (λ _. DrewStrokesCut now most recorder.old.journal recorder.new.journal well.old well.new hand result.0) }
{
    let mut kept = hand;
    for count in 0..most {
        let Some(stroke) = next_stroke(rt, well, kept) else {
            return (None, Ok(Drawn::new(count, true)));
        };
        if !is_admitted(recorder, &stroke, now) {
            return (Some(stroke), Ok(Drawn::new(count, false)));
        }
        let Ok(()) = draw_stroke(recorder, &stroke, now) else {
            return (Some(stroke), Err(OutOfMemory));
        };
        kept = None;
    }
    (None, Ok(Drawn::new(most, false)))
}

// The stroke in hand, if there is one, else the front one of the queue, if there is one.
fn next_stroke<R: Wait>(rt: &R, well: &mut Well, hand: Option<Stroke>) -> Option<Stroke>
    ensures { PopsStrokes (once (is_none result)) well.old well.new (option_to_list hand) (option_to_list result) }
{
    match hand {
        Some(stroke) => Some(stroke),
        None => well.next(rt),
    }
}

// Whether the rate lets a stroke's datagram go at once.
fn is_admitted<W: Words + Drop, P: Past<Entry> + Drop>(
    recorder: &Recorder<W, P>,
    stroke: &Stroke,
    now: u64,
) -> bool
    ensures { IsAdmitted now recorder.now.journal stroke.now result }
{
    recorder.admits_draw(stroke.body.len(), now)
}

// Draws a stroke that is admitted. Fails only if out of memory.
fn draw_stroke<W: Words + Drop, P: Past<Entry> + Drop>(
    recorder: &mut Recorder<W, P>,
    stroke: &Stroke,
    now: u64,
) -> Result<(), OutOfMemory>
    requires moment { now ≤ LATEST_MOMENT }
    requires lawful { IsLawfulJournal recorder.old.journal }
    requires admitted { IsAdmitted now recorder.old.journal stroke.now true }
    ensures lawful { IsLawfulJournal recorder.new.journal }
    ensures words { WaitsByWords W.next_word recorder.old recorder.new }
    ensures draws { MatchResult result (λ _. DrawsOne now stroke.now recorder.old.journal recorder.new.journal) (λ _. recorder.new.journal ≡ recorder.old.journal) }
{
    let Ok(body) = stroke.body.clone() else {
        return Err(OutOfMemory);
    };
    match recorder.draw(stroke.page, body, now) {
        Ok(_) => Ok(()),
        Err(fault) => {
            if is_memory(fault) {
                Err(OutOfMemory)
            } else {
                Ok(())
            }
        }
    }
}
