//! How the ends are made.

mod new_lanes;
mod new_well;

pub use new_lanes::lanes;
pub use new_well::well;
