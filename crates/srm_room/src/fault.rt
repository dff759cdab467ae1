//! Why a text is no room.

ghost use Rattle.std.specs.Prelude.{◌≡◌, None};
ghost use Rattle.srm_room.specs.Readings.{fault_of};
ghost use Rattle.srm_room.specs.declared.fault.RoomError.TheVariants.{Memory, Refused};

use crate::field::{Field, Place};
use std::alloc::AllocError;
use thiserror::Error;
use toml::de;

/// Why a text is no room. Members are counted by their places, from 0.
#[derive(Clone, Copy, Debug, PartialEq, Eq, Error)]
pub enum Fault {
    /// It is no TOML.
    #[error("that is no TOML: write a room as srm room new does")]
    NotToml,
    /// A key lacks.
    #[error("{0}there is no `{1}`: write {wanted}", wanted = .1.wanted())]
    Lacks(Place, Field),
    /// What stands at a key isn't of its kind, or out of its range.
    #[error("{0}`{1}` is of another kind or out of its range: write {wanted}", wanted = .1.wanted())]
    Wrong(Place, Field),
    /// The key has fewer than 16 bytes or more than 1,024.
    #[error("the key is too short or too long: write 16 to 1024 bytes, two hexadecimal digits each, or let srm room new choose it")]
    KeyLength,
    /// There is no member.
    #[error("there is no member: write [[member]] with a name and an address for each")]
    NoMember,
    /// There are more than 32 members.
    #[error("there are more than 32 members: leave some out")]
    TooMany,
    /// The member's name is none.
    #[error("{}`name` is none: write 1 to 40 characters without space, control character or `=`, and no number", Place::Member(*.0))]
    Name(usize),
    /// The member's address is none.
    #[error("{}`address` is none: write 192.0.2.7:47100, [2001:db8::7]:47100 or host:47100, with a port from 1 to 65535", Place::Member(*.0))]
    Address(usize),
    /// A member before has the name too.
    #[error("{}a member before has its `name` too: give it another", Place::Member(*.0))]
    NameTwice(usize),
    /// A member before has the address too.
    #[error("{}a member before has its `address` too: give it another", Place::Member(*.0))]
    AddressTwice(usize),
    /// There is a key that isn't known.
    #[error("{0}there is a key that isn't known: leave it out")]
    Unknown(Place),
}

/// Why a room can't be read or made.
#[derive(Clone, Copy, Debug, Drop, Error)]
pub enum RoomError {
    /// The text is no TOML, for this cause, with the line from 1 ([`Fault::NotToml`]).
    #[error("that is no TOML: {message}: write a room as srm room new does", message = .0.message())]
    Syntax(de::Error, Option<usize>),
    /// The first fault of the text, with its line, from 1, where there is one.
    #[error("{0}")]
    Refused(Fault, Option<usize>),
    /// Memory ran out.
    #[error("out of memory")]
    Memory,
}

impl RoomError {
    /// Returns the fault of the text. `None` if memory ran out.
    pub fn fault(&self) -> Option<Fault>
        ensures { result ≡ fault_of self.now }
    {
        match self {
            RoomError::Syntax(..) => Some(Fault::NotToml),
            RoomError::Refused(fault, _) => Some(*fault),
            RoomError::Memory => None,
        }
    }

    /// Returns the line of the fault, from 1, where there is one.
    pub fn line(&self) -> Option<usize> {
        match self {
            RoomError::Syntax(_, line) | RoomError::Refused(_, line) => *line,
            RoomError::Memory => None,
        }
    }
}

impl From<AllocError> for RoomError {
    ghost from_gives = { λ _ error. error ≡ Memory };

    fn from(_error: AllocError) -> RoomError {
        RoomError::Memory
    }
}

impl From<Fault> for RoomError {
    ghost from_gives = { λ fault error. error ≡ Refused fault None };

    fn from(fault: Fault) -> RoomError {
        RoomError::Refused(fault, None)
    }
}
