//! How the stroke queue is made.

ghost use Rattle.std.specs.Prelude.{◌≡◌, [], true, vec_len, IfOk, OnOk};
ghost use Rattle.std.specs.Arc.{arc_value};
ghost use Rattle.crossbeam_queue.specs.Passes.{view as knows, IsPassOf};
ghost use Rattle.srm_names.specs.declared.limits.TheConstants.{PENS};
ghost use Rattle.srm_pages.specs.Ends.{AreNewPens, new_well};

use crate::ends;
use crate::ink::{Ink, InkPass, NextPen, StrokeQueue};
use crate::pen::Pen;
use srm_names::{PENS, WELL_STROKES};
use std::alloc::{AllocError, Global};
use std::sync::Arc;
use std::sync::atomic::AtomicU64;

/// Makes the stroke queue, which holds 64 strokes, and its four producers, the k-th of number k. Nothing is sent or received yet. Those that nobody uses have to be
/// [`done`](Pen::done), or the node never leaves. Fails only if out of memory.
#[tactic(auto, using(crate::proofs::InkSteps::begins))]
pub fn well(alloc: Global) -> Result<(ends::Well, Vec<Pen>), AllocError>
    ensures well { IfOk result (λ r. r.0 ≡ new_well r.0.well) }
    ensures pens { IfOk result (λ r. (vec_len r.1 ≡ PENS) × AreNewPens r.0.well r.1.items) }
{
    let (queue, mut pass) = StrokeQueue::ruled(alloc, WELL_STROKES as usize)?;
    let ink = Arc::new(
        alloc,
        Ink {
            queue,
            open: AtomicU64::new(u64::from(PENS)),
        },
    )?;
    let pens = all_pens(alloc, &ink, &mut pass)?;
    Ok((
        ends::Well {
            ink,
            pass,
            nones: 0,
            done_at: None,
        },
        pens,
    ))
}

// Makes the producers, whose passes are split off the reader's.
#[tactic(auto, using(crate::proofs::InkSteps::next_pen))]
fn all_pens(
    alloc: Global,
    ink: &Arc<Ink, Global>,
    reader: &mut InkPass,
) -> Result<Vec<Pen>, AllocError>
    requires reader { IsPassOf (arc_value ink.now).queue reader.old × ((knows reader.old).reads ≡ true) × ((knows reader.old).made ≡ 0) × ((knows reader.old).received ≡ []) }
    ensures reader { OnOk result (IsPassOf (arc_value ink.now).queue reader.new × ((knows reader.new).reads ≡ true) × ((knows reader.new).received ≡ [])) }
    ensures pens { IfOk result (λ v. (vec_len v ≡ PENS) × AreNewPens (arc_value ink.now).queue.table.shared.table_id v.items) }
{
    let mut pens = Vec::new(alloc);
    for number in 0..PENS {
        let pass = ink.queue.another::<NextPen>(reader);
        pens.push(Pen {
            ink: Arc::try_clone(ink)?,
            pass,
            number,
        })?;
    }
    Ok(pens)
}
