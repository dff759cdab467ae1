//! A member's record as bytes: its lines as frames, read and written.
//!
//! [`read_record`] returns a [`Record`]: its [`Beginning`], its [`Line`]s, each a [`Call`] at a moment, and its [`RecordEnd`]. [`beginning_bytes`] and then
//! [`put_line`] write one; [`put_frame`] and [`crc_32`] are their parts.
//!
//! ```
//! let record = read_record(alloc, bytes)?;
//! for line in record.lines.as_slice() {
//!     // what the member was handed, or what was taken, and when
//! }
//! ```
//!
//! A record is how a member began, and then a frame for each line: kind, moment, payload and checksum. `docs/RECORDS.md` has it byte by byte. A record may be cut at any byte behind its beginning: it is read up to its cut.
//!
//! **Errors.** [`read_record`] returns a [`RecordFault`] for bytes that are no record. [`put_line`] and its kin, and [`beginning_bytes`], fail if out of memory; the former for a payload of 2^32 bytes or more too, and [`put_heard`] for a datagram without a spelling.
#![tactic(auto)]

mod beginning;
mod checksum;
mod fault;
mod format;
mod frame;
mod framed;
mod line;
mod message;
mod reader;
mod reading;
mod remainders;
mod spelling;

pub use beginning::{Beginning, beginning_bytes};
pub use checksum::crc_32;
pub use fault::RecordFault;
pub use frame::put_frame;
pub use line::{Call, Line};
pub use reading::{Record, RecordEnd, read_record};
pub use spelling::{put_heard, put_line, put_lines, put_took};
