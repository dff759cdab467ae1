//! Datagrams as bytes: each datagram has one spelling, and each list of bytes is the spelling of one datagram or has
//! a first fault.
//!
//! A [`Datagram`] is data, a request, a repair or a session message. [`length`] tells how many bytes it has, [`names_in`] which names it names. The laws are
//! [`judging_undoes_spelling`] and [`spellings_are_unique`].
//!
//! ```
//! let bytes = encode(alloc, session, &datagram)?;
//! let again = decode(alloc, session, bytes.as_slice())?; // equal to the datagram
//! ```
//!
//! **Errors.** [`decode`] returns the first [`DecodeFault`] that it finds. It goes through the fields in order: are all bytes of the
//! field there, and is its value in range? Last it looks for bytes left over. [`encode`], and [`encode_into`], which appends to bytes, fail only if out of memory. Their precondition
//! is that the datagram has a spelling, as [`encodable`] says.
#![tactic(auto)]

mod contents;
mod datagram;
mod decoding;
mod encoding;
mod fault;
mod fields;
mod format;
mod laws;
mod lists;
mod mask;
mod mentions;
mod reader;
mod spellable;

pub use datagram::Datagram;
pub use decoding::decode;
pub use encoding::{encode, encode_into, length};
pub use fault::DecodeFault;
pub use format::{
    DRAWOP_BYTES, ECHO_BYTES, HEAD_BYTES, LONGEST_LIST, MASK_BITS, NAME_BYTES,
    SESSION_MESSAGE_BYTES,
};
pub use laws::{judging_undoes_spelling, spellings_are_unique};
pub use mentions::{names_in, only_name};
pub use spellable::encodable;
pub use srm_names::Echo;
