//! A guard below a node: a wire around a wire that drops what the node is not to hear.
//!
//! ```
//! let key = Key::read(alloc, &mut file)?; // 16 to 1,024 bytes that all members share
//! let seal = Seal::new(alloc, key, me, micros_of_the_day)?; // this member's counters begin above those of its last start
//! let guard = Guard::new(wire, alloc, Some(seal))?; // numbers and tags what it sends, drops what has no right tag or came before
//! ```
//!
//! **Drops.** With a [`Seal`] the guard drops each datagram without its right tag, and each whose counter came before or lies more than 4,095 below the greatest of its
//! sender. A network may lose any datagram, so a guard may drop it, and what holds of a node over any wire holds over a guard.
//!
//! **Limits of a key.** It hides nothing, doesn't stop anyone from holding a datagram back and delivering it later, and doesn't tell one member from another: a member
//! that has the key may lie, and by one high counter put behind the window what another one sends. It is for one session: counters don't name theirs.
//!
//! [`Guard::dropped`] returns what was dropped, by cause ([`Dropped`]). Who has no [`Wire`](srm_wire::Wire) calls [`Seal::close`] for each datagram to a member, and [`Seal::open`] for what
//! comes ([`Opened`]).
//!
//! **Errors.** [`Key::read`] returns a [`KeyFault`]. [`Guard::new`] and [`Seal::new`] fail only if out of memory.
#![tactic(auto)]

mod dropped;
mod guard;
mod hmac;
mod key;
mod laws;
mod seal;

pub use dropped::Dropped;
pub use guard::Guard;
pub use hmac::hmac_sha256;
pub use key::{Key, KeyFault, TAG_BYTES};
pub use laws::{each_receive_opens, nothing_is_passed_on_twice};
pub use seal::{Opened, Seal, TRAILER_BYTES};
