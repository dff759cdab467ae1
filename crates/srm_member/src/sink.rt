//! What the page workers of a member show their messages to.

ghost use Rattle.std.specs.Prelude.{◌≡◌, vec_len, IfOk};
ghost use Rattle.srm_names.specs.declared.limits.TheConstants.{PAGES};

use srm_names::{PAGES, PageMsg};
use srm_node::PageSink;
use std::alloc::{AllocError, Global};

/// Shows nothing while the member runs, and never stops its worker: what was taken is printed at its end.
#[derive(Clone, Copy, Debug)]
pub struct Unseen;

impl PageSink for Unseen {
    ghost use Rattle.srm_member.specs.Sinks.{NeverStops};

    ghost sees = { NeverStops };

    fn message(&mut self, _slot: u8, _message: &PageMsg) -> bool {
        true
    }
}

/// Makes a sink for each page slot. Fails only if out of memory.
pub fn sinks(alloc: Global) -> Result<Vec<Unseen>, AllocError>
    ensures { IfOk result (λ sinks. vec_len sinks ≡ PAGES) }
{
    let mut sinks = Vec::new(alloc);
    for _ in 0..PAGES {
        sinks.push(Unseen)?;
    }
    Ok(sinks)
}
