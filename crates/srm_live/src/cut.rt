//! Why what is typed isn't drawn to its end.

ghost use Rattle.std.specs.Prelude.{◌≡◌};
ghost use Rattle.srm_script.specs.declared.fault.ScriptFault.TheVariants.{Memory};
ghost use Rattle.srm_live.specs.declared.cut.ReadingEnd.TheVariants.{Fault};

use srm_script::ScriptFault;
use std::alloc::AllocError;

/// Why what is typed isn't drawn to its end.
#[derive(Debug, Drop)]
pub enum ReadingEnd {
    /// The output is closed or the node has ended: nothing more is drawn.
    Closed,
    /// The input failed, or memory ran out.
    Fault(ScriptFault),
}

impl From<AllocError> for ReadingEnd {
    ghost from_gives = { λ _ gives. gives ≡ Fault Memory };

    fn from(_error: AllocError) -> ReadingEnd {
        ReadingEnd::Fault(ScriptFault::Memory)
    }
}
