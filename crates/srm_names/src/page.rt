//! Pages.

ghost use Rattle.std.specs.Prelude.{◌≡◌};

use crate::member::Member;

/// A page, by the member that began it and a number local to that member. The first page is number 0 of member 0.
#[derive(Clone, Copy, Debug, PartialEq, Eq, PartialOrd, Ord, Hash)]
pub struct Page {
    /// The member that began it.
    pub creator: Member,
    /// Its number among the pages of that member, 0 to 65,535.
    pub number: u16,
}

impl Page {
    ghost use Rattle.srm_names.specs.Names.{first_page};

    /// Returns the page that each member has from the start: number 0 of member 0.
    pub fn first() -> Page
        ensures { result ≡ first_page }
    {
        Page {
            creator: Member::new(0).unwrap(),
            number: 0,
        }
    }
}
