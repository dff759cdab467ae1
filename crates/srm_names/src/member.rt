//! Members.

ghost use Rattle.std.specs.Prelude.{◌≡◌, ◌<◌, ◌↔◌, IfSome, IsSome};

use crate::limits::MEMBERS;
use std::marker::Model;

/// A member of the session, by its number: 0 to 31. Contracts see the number.
#[derive(Clone, Copy, Debug, PartialEq, Eq, PartialOrd, Ord, Hash)]
pub struct Member {
    number: u8,
}

impl Model for Member {
    ghost use Rattle.std.specs.Prelude.{ℕ, ◌<◌};
    ghost use Rattle.srm_names.specs.declared.limits.TheConstants.{MEMBERS};

    ghost Value = { ℕ };

    ghost view = { λ m. m.number };

    ghost invariant = { λ m. m.number < MEMBERS };

    ghost inverse = { λ n. record { number = n } };
}

impl Member {
    /// Returns the member with this number, or `None` from [`MEMBERS`] on.
    pub fn new(number: u8) -> Option<Member>
        ensures known { IsSome result ↔ (number < MEMBERS) }
        ensures value { IfSome result (λ member. member ≡ number) }
    {
        if number < MEMBERS {
            Some(Member { number })
        } else {
            None
        }
    }

    /// Returns its number, 0 to 31.
    pub fn number(self) -> u8
        ensures value { result ≡ self }
        ensures below { result < MEMBERS }
    {
        self.number
    }

    /// Returns its number as the index of a table by member.
    pub fn index(self) -> usize
        ensures value { result ≡ self }
        ensures below { result < MEMBERS }
    {
        usize::from(self.number)
    }
}
