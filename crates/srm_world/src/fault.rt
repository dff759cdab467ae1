//! Why a world stops.

ghost use Rattle.std.specs.Prelude.{◌≡◌};
ghost use Rattle.srm_world.specs.declared.fault.WorldFault.TheVariants.{Memory};

use std::alloc::AllocError;
use thiserror::Error;

/// Why a world stops. It is then as after the events before.
#[derive(Clone, Copy, Debug, PartialEq, Eq, Error)]
pub enum WorldFault {
    /// Out of memory.
    #[error("out of memory")]
    Memory = 1,
}

impl From<AllocError> for WorldFault {
    ghost from_gives = { λ _ fault. fault ≡ Memory };

    fn from(_error: AllocError) -> WorldFault {
        WorldFault::Memory
    }
}
