//! What a member holds of each stream, what it knows to exist, what is missing, and how far each stream may be released.
//!
//! Contracts speak of the calls so far: a store *fits* lists of drawops inserted, of names with evidence and of members settled (their farewell said how far their streams go), if
//! all that it holds and knows is what the definitions in `specs/` say of these lists. It keeps no history.
//!
//! ```
//! let mut store = Store::new(alloc)?;
//! store.insert(first)?;
//! let missing = store.evidence(third.name)?; // numbers 2 and 3, which were not known to exist
//! assert_eq!(store.released(stream), 1);
//! ```
//!
//! A store keeps its pages in a [`PageTable`], each in its page slot. A member also shows pages that no stream names yet, so it keeps
//! another one beside its store.
//!
//! **Errors.** [`StoreFault::PageLimit`] if a ninth page would be needed, [`StoreFault::Memory`] if out of memory. What is held and
//! known is then as before. A second drawop under a name is no error: [`Insert`] says what was found, and the first stays.
#![tactic(auto)]

mod block;
mod fault;
mod finals;
mod insert;
mod page_table;
mod places;
mod room;
mod rooms;
mod store;
mod stream_places;
mod table;

pub use fault::StoreFault;
pub use finals::row_number;
pub use insert::{Insert, same_drawop};
pub use page_table::PageTable;
pub use store::Store;
