//! What a member may send, and in which order, under its rate: a token bucket with three classes.
//!
//! Each class is first in, first out. Nothing of a lower class goes while a higher one waits, even if it would fit. Tokens are counted
//! in millionths of a byte: a rate in bytes a second gives as many of them each microsecond.
//!
//! Contracts speak of the calls so far: a bucket *fits* a list of calls if all that it keeps is what the definitions in `specs/` say of
//! that list, and the bucket law holds of it. It keeps no history.
//!
//! ```
//! let mut bucket = Bucket::new(alloc, 8_000, 4_204); // bytes a second, bytes
//! bucket.hand(Class::New, Item { value, length: 33 })?;
//! while let Some(item) = bucket.pop(now) { /* send it */ }
//! let next = bucket.wait_until(); // when the next one may go
//! ```
//!
//! The caller shows that rates, depths and lengths are in the ranges that [`Bucket::new`] and [`Bucket::hand`] name. **Errors**:
//! [`Bucket::hand`] and [`Bucket::room`] fail only if out of memory.
#![tactic(auto)]

mod bucket;
mod class;
mod item;
mod limits;
mod queues;
mod tokens;

pub use bucket::Bucket;
pub use class::Class;
pub use item::Item;
pub use limits::{
    GREATEST_DEPTH, GREATEST_LENGTH, GREATEST_RATE, LEAST_DEPTH, LEAST_LENGTH, LEAST_RATE,
    MILLIONTHS,
};
