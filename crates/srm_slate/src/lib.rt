//! The board of a member: what its browsers see, and the server that shows it.
//!
//! A [`Slate`] holds the messages that a member's page workers took, in order, what befell the member (what it found missing, requested, received late and repaired), and what the
//! member answered last of what it misses.
//! [`open_door`] serves it over HTTP by one thread: the page, and a WebSocket for each tab. The WebSocket tells what is new, and takes what the tab draws, which goes to an [`Easel`].
//!
//! Each tab is told what comes behind what it has, so a tab that is slow or asleep delays nobody. What it was told in all its frames is a prefix of what the workers took: the
//! law [`frames_tell_a_prefix`] says so. A tab numbers what it draws, so each stroke is handed to the member once at most, and in order, also where its connection is renewed:
//! the contract of [`Hand::draw`] says so.
//!
//! A [`Record`] has what the workers took ([`Taken`]), what befell the member ([`Happening`]) and what it misses ([`Hole`]); [`Record::look`] returns a [`Look`] with [`Counts`], and a [`Draft`] of it becomes a [`Sheet`], the text for all tabs with one [`Cursor`]. [`open_door`]
//! takes a [`Face`] and returns a [`Door`]. A [`Guard`] judges what a request says ([`Asked`], [`Method`]): a [`Judged`], which grants a [`Wish`]. [`new_token`]
//! makes a token of what a [`TokenSource`] gives. An [`Easel`] returns a [`Drawn`], and a [`Hand`] tells the [`Place`] of a number.
//!
//! ```
//! let slate = Arc::new(alloc, Slate::new(alloc))?;
//! let door = open_door(&rt, alloc, listener, face, Arc::try_clone(&slate)?, easel).ok_or(..)?;
//! slate.take(&rt, 0, &message); // A page worker took a message.
//! slate.end(&rt); // The member's run has ended.
//! door.close(&rt);
//! ```
//!
//! **Who may ask.** [`Guard::judge`] refuses a request that names another host or lacks the token of the page's address. It also refuses a request that
//! doesn't come from the page, unless it asks for the page itself.
//!
//! **Errors.** If out of memory, a [`Record`] keeps no later message and says that it is lossy; a request gets no answer, and the page asks again. [`open_door`]
//! returns `None` if it can't start its thread.
#![tactic(auto)]

mod asked;
mod asking;
mod bell;
mod calling;
mod crowd;
mod cursor;
mod door;
mod due;
mod easel;
mod floor;
mod guard;
mod guest;
mod hand;
mod hands;
mod happening;
mod happenings;
mod hole;
mod host;
mod laws;
mod leaving;
mod look;
mod noted;
mod page;
mod record;
mod round;
mod serving;
mod sheet;
mod shown;
mod slate;
mod strokes;
mod tab;
mod taken;
mod telling;
mod token;
mod watching;
mod went;

pub use asked::{Asked, Method};
pub use cursor::Cursor;
pub use door::{Door, Face, open_door};
pub use easel::{Drawn, Easel};
pub use guard::{Guard, Judged, Wish};
pub use hand::{Hand, Place};
pub use happening::Happening;
pub use hole::{Hole, NAMED};
pub use laws::{frames_tell_a_prefix, slots_show_a_front};
pub use look::{Counts, Look};
pub use record::Record;
pub use sheet::{Draft, Sheet};
pub use shown::Shown;
pub use slate::Slate;
pub use tab::Tab;
pub use taken::Taken;
pub use token::{TokenSource, new_token};
