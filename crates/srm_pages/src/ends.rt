//! The types whose names differ only in case from the functions [`crate::lanes`] and [`crate::well`].

mod lanes;
mod well;

pub use lanes::Lanes;
pub use well::Well;
