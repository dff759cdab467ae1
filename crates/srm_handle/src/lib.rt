//! A box as the pointer that memory of C's can keep.
//!
//! A struct of C's layout has no type parameters, so each type of value that C holds has its handle: a pointer and whether it is full, zeroes at first. Its crate says by
//! [`held`](../specs/Held.antt) that it owns a box, or nothing. [`Loose`] is the way between a box and that pointer, for all of them.
//!
//! **Errors.** No call fails or takes memory.
#![tactic(auto)]

mod loose;

pub use loose::Loose;
