//! The names of drawops.

ghost use Rattle.std.specs.Prelude.{◌≡◌, ◌≤◌, ◌↔◌, IfSome, IsSome};
ghost use Rattle.srm_names.specs.NameOrder.{IsTotalOrderOfNames};
ghost use Rattle.srm_names.specs.Names.{name_below, named};

use crate::limits::DRAWOPS;
use crate::member::Member;
use crate::page::Page;
use crate::stream::Stream;
use std::marker::Model;

/// The name of a drawop: its stream and its number there, from 1 to 65,536. No other drawop ever gets it.
///
/// Names are in order of source, page creator, page number and number; `<` and `cmp` are in this order.
#[derive(Clone, Copy, Debug, PartialEq, Eq, PartialOrd, Ord, Hash)]
pub struct Name {
    stream: Stream,
    number: u32,
}

impl Model for Name {
    ghost use Rattle.std.specs.Prelude.{◌≤◌};
    ghost use Rattle.srm_names.specs.declared.limits.TheConstants.{DRAWOPS};
    ghost use Rattle.srm_names.specs.FullName.{FullName};

    ghost Value = { FullName };

    ghost view = { λ n. record { stream = n.stream; number = n.number } };

    ghost invariant = { λ n. (1 ≤ n.number) × (n.number ≤ DRAWOPS) };

    ghost inverse = { λ n. record { stream = n.stream; number = n.number } };
}

impl Name {
    /// Returns the name with this number, or `None` if the number isn't from 1 to [`DRAWOPS`].
    pub fn new(source: Member, page: Page, number: u32) -> Option<Name>
        ensures known { IsSome result ↔ ((1 ≤ number) × (number ≤ DRAWOPS)) }
        ensures value { IfSome result (λ name. name ≡ record {
          stream = record { source = source; page = page };
          number = number;
        }) }
    {
        if 1 <= number && number <= DRAWOPS {
            Some(Name {
                stream: Stream { source, page },
                number,
            })
        } else {
            None
        }
    }

    /// Returns its stream.
    pub fn stream(self) -> Stream
        ensures { result ≡ self.stream }
    {
        self.stream
    }

    /// Returns the member that drew it.
    pub fn source(self) -> Member
        ensures { result ≡ self.stream.source }
    {
        self.stream.source
    }

    /// Returns its number in its stream, 1 to 65,536.
    pub fn number(self) -> u32
        ensures value { result ≡ self.number }
        ensures low { 1 ≤ result }
        ensures high { result ≤ DRAWOPS }
    {
        self.number
    }

    /// Returns whether this name comes before `other`, as `<` says.
    pub fn is_before(self, other: Name) -> bool
        ensures { result ≡ name_below self other }
    {
        self < other
    }
}

impl Stream {
    /// Returns the stream's name with this number, or `None` if the number isn't from 1 to [`DRAWOPS`].
    pub fn at(&self, number: u32) -> Option<Name>
        ensures known { IsSome result ↔ ((1 ≤ number) × (number ≤ DRAWOPS)) }
        ensures value { IfSome result (λ name. name ≡ named self.now number) }
    {
        Name::new(self.source, self.page, number)
    }
}

/// States the law that the order of names is total, and does nothing: of two different names one is before the other, no name is before itself, and a name that is
/// before another is before all behind it.
pub fn names_are_in_order()
    ensures { IsTotalOrderOfNames }
{}
