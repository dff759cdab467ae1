//! A member's wire over UDP with its guard, as the member's options say.
//!
//! ```
//! let key = read_key(&rt, alloc, &options.guard)?; // of the file that `--key` names, or of the room
//! let seal = seal_by(&rt, alloc, key, options.config.me())?; // numbers and tags what this member sends, from the time of day on
//! let Guarded { wire, waker, failure } = bind_guarded(&rt, alloc, options.config, &options.guard, seal, options.addresses)?;
//! ```
//!
//! **Errors.** [`read_key`] returns a [`KeyFileFault`]: the file can't be read or has a wrong length, or memory ran out. [`seal_by`] returns one too: the system doesn't
//! tell the time of day, or memory ran out. [`bind_guarded`] fails if the address can't be bound, and if out of memory.
#![tactic(auto)]

mod binding;
mod key_file;
mod sealing;

pub use binding::{Guarded, bind_guarded};
pub use key_file::{KeyFileFault, read_key};
pub use sealing::seal_by;
