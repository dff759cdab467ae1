//! Which page a member shows next.
//!
//! A session message tells what its sender knows of the page that it shows, and of no other. So a member that misses the last stroke of another page doesn't learn of it
//! until somebody shows that page. A member that shows the pages with strokes in turn, each until it has sent a session message of it, tells of them all. A [`PageRota`]
//! says whose turn it is. It has no thread, no clock and no node.
//!
//! ```
//! let mut rota = PageRota::new(alloc)?;
//! rota.add(page); // It has strokes.
//! rota.prefer(page); // It is the one in use.
//! let next = rota.told(page); // A session message of it went: this page is next.
//! ```
//!
//! **Errors.** Only [`PageRota::new`] takes memory. A ninth page isn't added.
#![tactic(auto)]

mod page_rota;

pub use page_rota::PageRota;
