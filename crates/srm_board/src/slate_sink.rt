//! What the page workers of a board hand their messages to.

ghost use Rattle.std.specs.Prelude.{◌≡◌, vec_len, IfOk};
ghost use Rattle.srm_names.specs.declared.limits.TheConstants.{PAGES};

use srm_names::{PAGES, PageMsg};
use srm_node::PageSink;
use srm_slate::Slate;
use std::alloc::{AllocError, Global};
use std::sync::{Arc, Wait};

/// Puts each message on the slate. A message that the slate has no memory for stops no worker, since the others of the session go on.
#[derive(Drop)]
pub struct SlateSink<R: Wait + Drop> {
    rt: R,
    slate: Arc<Slate, Global>,
}

impl<R: Wait + Drop> PageSink for SlateSink<R> {
    ghost use Rattle.srm_member.specs.Sinks.{NeverStops};

    ghost sees = { NeverStops };

    fn message(&mut self, slot: u8, message: &PageMsg) -> bool {
        self.slate.take(&self.rt, slot, message);
        true
    }
}

/// One for each slot. Fails only out of memory.
pub fn slate_sinks<R: Wait + Copy + Drop>(
    rt: &R,
    alloc: Global,
    slate: &Arc<Slate, Global>,
) -> Result<Vec<SlateSink<R>>, AllocError>
    ensures { IfOk result (λ sinks. vec_len sinks ≡ PAGES) }
{
    let mut sinks = Vec::new(alloc);
    for _ in 0..PAGES {
        sinks.push(SlateSink {
            rt: *rt,
            slate: Arc::try_clone(slate)?,
        })?;
    }
    Ok(sinks)
}
