//! What is wrong in a command line that has all its options.

use crate::system_cause::SystemCause;
use srm_names::MEMBERS;
use srm_timers::GREATEST_TIMER_SETTING;
use std::io::ErrorKind;
use thiserror::Error;

/// What is wrong in a command line that has all its options.
#[derive(Clone, Copy, Debug, Error)]
pub enum Mistake<'a> {
    #[error("'{0}' is no IPv4 address with a port, as 127.0.0.1:47100 is one")]
    Address(&'a str),
    #[error("'{0}' is no address with a port, as 127.0.0.1:47100, [::1]:47100 or host:47100")]
    Host(&'a str),
    #[error("srm: cannot resolve {0}: {cause}", cause = SystemCause::of_host(*.1))]
    Unresolved(&'a str, ErrorKind),
    #[error("the addresses are of IPv4 and of IPv6: all members need one of the same kind")]
    Families,
    #[error("there are more than {MEMBERS} addresses")]
    TooMany,
    #[error("'--me <M>' is no place in the list of addresses, the first of which has the place 0")]
    NoPlace,
    #[error("invalid value '{0}' for '--waits <c1,c2,d1,d2>': that isn't four numbers from 0 to {GREATEST_TIMER_SETTING} with commas between")]
    Waits(&'a str),
    #[error("the address '{0}' stands there twice: each member has one of its own")]
    Twice(&'a str),
    #[error("the address '{0}' of this member has port 0: name the port that the others send to")]
    OwnPort(&'a str),
    #[error("'--{0} <FILE>' is empty: name a file, or leave it out")]
    NoFile(&'a str),
    #[error("invalid value '{0}' for '--{1}': that is no time from {2} to {3} microseconds, as 5s, 500ms or 5000000")]
    Time(&'a str, &'a str, u64, u64),
    #[error("'--linger <U>' is for '--live' alone")]
    Linger,
    #[error("'--no-token' with '--http {0}': whoever reaches this machine could draw; name one address of it, or leave '--no-token' out")]
    Open(&'a str),
    #[error("'--only-roster' and '--any-origin' don't go together: leave one out")]
    Origins,
    #[error("'{0}' with '--room': the room says it for all members, so leave it out")]
    BesideRoom(&'a str),
    #[error("'{0}' with '--room': the room has the addresses, so leave it out")]
    AddressBesideRoom(&'a str),
    #[error("'--me <NAME>' is missing: name one of the room's members, or its place, from 0")]
    NoName,
    #[error("'--room <FILE>' stands there twice: leave one out")]
    Rooms,
    #[error("an option is missing or out of its range")]
    Range,
    #[error("out of memory")]
    Memory,
}
