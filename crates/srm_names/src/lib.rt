//! Members, pages, the names of drawops, what a page worker is given, and the limits of a session.
//!
//! A [`Drawop`] is a stroke with its [`Name`]; a [`Stream`] is what one source draws on one [`Page`]. A page worker is given [`PageMsg`]s. A session message carries
//! [`Echo`]es, which other members measure distances by. [`Items`] is a list that contracts see.
//!
//! The limits are constants: [`MEMBERS`], [`PAGES`], [`PAGE_NUMBERS`], [`DRAWOPS`], [`LONGEST_BODY`], [`LATEST_MOMENT`], [`LONGEST_DISTANCE`], [`LANE_MESSAGES`],
//! [`WELL_STROKES`], [`PENS`], [`VIEWERS`].
//!
//! A name belongs to one drawop for ever. A `Name` out of range can't be made. It is copied freely:
//!
//! ```
//! let source = Member::new(0)?;
//! let page = Page { creator: source, number: 0 };
//! let name = Name::new(source, page, 1)?;
//! assert!(Name::new(source, page, 0).is_none());
//! ```
//!
//! **Errors.** [`Member::new`] returns `None` from [`MEMBERS`] on, [`Name::new`] and [`Stream::at`] for number 0 and past
//! [`DRAWOPS`]. Copies and lists fail only if out of memory.
#![tactic(auto)]

mod between;
mod drawop;
mod echo;
mod items;
mod limits;
mod member;
mod moments;
mod name;
mod page;
mod page_msg;
mod stream;

pub use between::names_between;
pub use drawop::Drawop;
pub use echo::Echo;
pub use items::Items;
pub use limits::{
    DRAWOPS, LANE_MESSAGES, LATEST_MOMENT, LONGEST_BODY, LONGEST_DISTANCE, MEMBERS, PAGE_NUMBERS,
    PAGES, PENS, VIEWERS, WELL_STROKES,
};
pub use member::Member;
pub use moments::has_come;
pub use name::{Name, names_are_in_order};
pub use page::Page;
pub use page_msg::PageMsg;
pub use stream::Stream;
