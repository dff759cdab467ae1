//! Why a store refuses a call.

ghost use Rattle.std.specs.Prelude.{◌≡◌};
ghost use Rattle.srm_store.specs.declared.fault.StoreFault.TheVariants.{Memory};

use std::alloc::AllocError;
use thiserror::Error;

/// Why a call of the store fails. What the store holds and knows is then as before.
#[derive(Clone, Copy, Debug, PartialEq, Eq, Error)]
pub enum StoreFault {
    /// The call names a page without a page slot, and none is left.
    #[error("the table has no slot for another page")]
    PageLimit = 1,
    /// Out of memory.
    #[error("out of memory")]
    Memory = 2,
}

impl From<AllocError> for StoreFault {
    ghost from_gives = { λ _ fault. fault ≡ Memory };

    fn from(_error: AllocError) -> StoreFault {
        StoreFault::Memory
    }
}
