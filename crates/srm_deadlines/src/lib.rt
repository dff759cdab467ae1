//! Deadlines by name, and which of them have expired.
//!
//! [`Deadlines`] is a trait with three implementations. [`Tree`] keeps the first deadline of each block, so that setting, clearing
//! and finding the next cost the logarithm of the number of names. [`Ordered`] keeps deadlines in order, and [`Scanned`] looks through them all:
//! tests compare with them. All three stand on [`ByName`], which has values of any kind by name.
//!
//! ```
//! let mut deadlines = Tree::new(alloc);
//! deadlines.room(&[name])?; // a place for the name
//! deadlines.set(name, 1_000_000);
//! let mut come = Vec::with_capacity(alloc, 1)?;
//! deadlines.due(1_000_000, &mut come)?; // the name
//! ```
//!
//! Deadlines are moments in microseconds. **Errors**: `room` fails only if out of memory, and so does `due` if the list that it is lent
//! has too little room. Setting takes no memory: the caller shows that the name has a place.
#![tactic(auto)]

mod agenda;
mod blocks;
mod by_name;
mod deadlines;
mod moment_list;
mod ordered;
mod scanned;
mod timed;
mod tree;

pub use agenda::put_names;
pub use by_name::{ByName, NamedValue};
pub use deadlines::Deadlines;
pub use ordered::Ordered;
pub use scanned::{Scanned, lesser};
pub use timed::Timed;
pub use tree::Tree;
