//! Sinks that show nothing.

ghost use Rattle.std.specs.Prelude.{◌≡◌, vec_len, IfOk};
ghost use Rattle.srm_names.specs.declared.limits.TheConstants.{PAGES};

use srm_names::PageMsg;
use srm_node::PageSink;
use std::alloc::{AllocError, Global};

/// A sink that takes all, or stops at the first message in slot 0.
#[derive(Clone, Copy)]
pub struct Plain {
    pub stops: bool,
}

impl PageSink for Plain {
    fn message(&mut self, slot: u8, _message: &PageMsg) -> bool {
        !(self.stops && slot == 0)
    }
}

/// A sink for each slot. The first may stop.
pub fn plain_sinks(alloc: Global, stops: bool) -> Result<Vec<Plain>, AllocError>
    ensures { IfOk result (λ sinks. vec_len sinks ≡ PAGES) }
{
    Ok(Vec::from_array(alloc, [Plain { stops }; 8])?)
}
