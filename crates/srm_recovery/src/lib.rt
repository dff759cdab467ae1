//! How long a loss lasts: how soon a member has what others have, once a network connects them.
//!
//! The laws hold of every run of several members, whatever code made it. None says that a network delivers: each says what follows from a time on at which it connects two members, as
//! to the requests for a name and its repairs.
//!
//! What a member gets:
//!
//! - [`recovers`]: it holds what it knows of, where another one held it
//! - [`shares`]: it holds what another one held and tells it of
//! - [`reads`]: it has released what a source drew
//! - [`keeps`]: and that also where the source has left and others hold it
//!
//! When a member may go:
//!
//! - [`leaves`]: once it has served what it drew to one other member
//! - [`assures`]: once nobody asks
//!
//! Where the premises come from:
//!
//! - [`connects`]: a network that delivers among some members connects each two of them
//! - [`hears`], [`accepts`]: who hears accepts, in an honest run
//! - [`empties`], [`fits`]: a bucket runs empty while its rate pays for what it gets
//! - [`reports`]: session messages are due so often
//! - [`waits`]: timers wait, and hold-offs last, so long
#![tactic(auto)]

mod laws;

pub use laws::{
    accepts, assures, connects, empties, fits, hears, keeps, leaves, reads, recovers, reports,
    shares, waits,
};
