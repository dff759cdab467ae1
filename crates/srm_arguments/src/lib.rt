//! The arguments of a program, as texts.
//!
//! ```
//! let arguments = read_arguments(&rt)?;
//! let texts = texts_of(alloc, arguments.as_slice())?;
//! ```
//!
//! **Errors.** An argument that is no text, and out of memory. [`ArgumentFault`] has the text and the status of each.
#![tactic(auto)]

mod fault;
mod reading;

pub use fault::ArgumentFault;
pub use reading::{read_arguments, texts_of};
