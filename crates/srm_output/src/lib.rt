//! Bytes that are written to an output until it has them all.
//!
//! ```
//! write_bytes(&mut file, text.as_bytes())?;
//! ```
//!
//! [`write_bytes`] is [`Write::write_all`](std::io::Write::write_all) with a contract for both ends: an output that refuses bytes has got a front of them, and contracts say so.
#![tactic(auto)]

mod writing;

pub use writing::write_bytes;
