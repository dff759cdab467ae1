//! A live member of a session over UDP, as `srm node --live` runs it.
//!
//! ```
//! let status = run_live(&rt, options, PolledInput::new(&rt, alloc, rt.stdin(), STDIN), rt.stdout(), rt.stderr());
//! ```
//!
//! The member's node runs in the calling thread; its producer, its eight page workers and the teller of news run in one thread each. [`run_live`] draws each line as
//! it comes, and prints each message as it is taken. It owns its streams, since its threads read and write them. Its input must say where nothing is there yet, as
//! [`PolledInput`] does.
//!
//! **Errors**, in this order: a key file that can't be used, a record whose file can't be made, an address that can't be bound, and what ends a run. A line that is too long is no error. If several
//! things befell a run, it tells one: out of memory, else what ended the node's run, else a record that isn't whole, else an output that failed, else an input that did.
//! [`MemberFault`](srm_member::MemberFault) has the text and the status of each; an address that can't be bound and a call of the socket that fails are told with the
//! cause: `srm: cannot bind 127.0.0.1:80: permission denied`. A member that was in the session before, under the same number, is told so once, goes on, and ends with the status
//! [`WAS_BEFORE`].
#![tactic(auto)]

mod asking;
mod claims;
mod command;
mod cut;
mod desk;
mod dropped;
mod error_stream;
mod holes;
mod hosting;
mod laws;
mod lingering;
mod live_fault;
mod live_line;
mod live_sink;
mod living;
mod lost;
mod member_set;
mod need;
mod news;
mod obeying;
mod page_code;
mod pages_told;
mod patience;
mod polled_input;
mod presence;
mod printed;
mod readable;
mod remaining;
mod shown_page;
mod shown_pages;
mod signs;
mod tally;
mod teller;
mod telling;
mod title;
mod typed;
mod typing;
mod typing_thread;
mod typist;
mod unfinished;
mod watched;
mod who;

pub use claims::Claims;
pub use holes::has_strokes;
pub use hosting::unrecorded;
pub use laws::a_sink_prints_what_it_sees;
pub use lingering::{Stay, Staying};
pub use live_fault::WAS_BEFORE;
pub use living::run_live;
pub use need::{Need, is_needed};
pub use news::{Told, tell_news};
pub use polled_input::PolledInput;
pub use tally::{Activity, Tally};
pub use teller::Teller;
pub use telling::{tell_activity, tell_wire, told_by};
